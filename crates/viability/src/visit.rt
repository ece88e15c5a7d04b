// One visit as an expansion sees it, and the formulas that have a sound expansion there, from the first number to the last, with no search.
ghost use Rattle.std.specs.Prelude.{◌≡◌, ◌<◌, ◌≤◌, Decides, length};
ghost use Rattle.judge.specs.Formulas.{node_at};
ghost use Rattle.viability.specs.Offers.{chosen, Offered, OffersSide};
ghost use Rattle.viability.specs.Viable.{FitOffered, FitsSomehow, Viable, Tells};
ghost use Rattle.viability.specs.Visits.{moment_at, contents_at};

use super::labels::{inside, with};
use super::offer::{Offer, Side, brings_on, offer_on};
use ltlf::Book;

/// A visit: the book, the atoms that hold there, as a mask, and whether it is the last.
#[derive(Clone, Copy)]
pub struct Visit<'a> {
    pub book: &'a Book,
    pub truth: u64,
    pub last: bool,
}

impl Visit<'_> {
    /// What the formula of a number brings on one side, whether it is admitted there or not.
    ///
    /// A number that the book does not have counts as true: it brings nothing.
    pub fn brings(&self, number: u8, side: Side) -> Offer
        ensures { OffersSide number (node_at (contents_at self.now) number) (chosen side) result }
    {
        match self.book.node(number) {
            Ok(node) => brings_on(node, number, side),
            Err(_) => Offer::new(0, 0),
        }
    }

    /// What the formula of a number brings on one side; none where it is not admitted there.
    ///
    /// A number that the book does not have counts as true: it is admitted, and brings nothing.
    // Inlined, as is `fitting`: each call names its side, and where an offer is only tested none is made.
    #[inline(always)]
    pub fn offer(&self, number: u8, side: Side) -> Option<Offer>
        ensures { Offered (moment_at self.now) number (node_at (contents_at self.now) number) (chosen side) result }
    {
        match self.book.node(number) {
            Ok(node) => offer_on(node, number, side, self.truth, self.last),
            Err(_) => Some(Offer::new(0, 0)),
        }
    }

    /// The offer of a formula on one side, where it is admitted with parts among `able` alone.
    #[inline(always)]
    pub fn fitting(&self, number: u8, side: Side, able: u64) -> Option<Offer>
        ensures { FitOffered (moment_at self.now) (contents_at self.now) able number (chosen side) result }
    {
        let offer = self.offer(number, side)?;
        inside(offer.parts, able).then_some(offer)
    }

    /// Whether some side of a formula is admitted, with parts among `able` alone.
    fn fits_somehow(&self, number: u8, able: u64) -> bool
        ensures { Decides result (FitsSomehow (moment_at self.now) (contents_at self.now) able number) }
    {
        self.fitting(number, Side::One, able).is_some()
            || self.fitting(number, Side::Other, able).is_some()
    }

    /// The formulas that have a sound expansion: a label has a sound choice exactly when it lies inside.
    pub fn viable(&self) -> u64
        ensures fit { Viable (moment_at self.now) (contents_at self.now) result }
        ensures tells { Tells (contents_at self.now) self.now.truth self.now.last result }
    {
        let mut able = 0;
        // The number is a formula, not an index, and each test needs the formulas found before it.
        for number in 0..self.book.formula_count() {
            if self.fits_somehow(number, able) {
                able = with(able, number);
            }
        }
        able
    }
}
