// Whether a label has a sound choice: the choices are tried one after another, and the first that is tried is sound.
ghost use Rattle.std.specs.Prelude.{◌≡◌, ◌<◌, ◌≤◌, false};
ghost use Rattle.tableau.specs.Labels.{◌∈◌};
ghost use Rattle.viability.specs.Offers.{BringsInside};
ghost use Rattle.viability.specs.Viable.{Viable, DecidesSound};
ghost use Rattle.viability.specs.Visits.{moment_at, contents_at};

use super::labels::{contains, inside, known_part};
use super::offer::{Offer, Side};
use super::visit::Visit;

impl Visit<'_> {
    /// The offer of a side of a formula that fits, where one does; that of the other side where it is flipped.
    fn tried(&self, number: u8, able: u64, flipped: bool) -> Option<Offer>
        requires { Viable (moment_at self.now) (contents_at self.now) able }
        ensures { flipped ≡ false → number ∈ able → BringsInside able result }
    {
        match self.fitting(number, Side::One, able) {
            Some(offer) if !flipped => Some(offer),
            None if !flipped => self.fitting(number, Side::Other, able),
            Some(_) => self.offer(number, Side::Other),
            None => self.offer(number, Side::One),
        }
    }

    /// Whether the formulas of a label have a sound choice.
    ///
    /// Formulas that the book does not have are passed over. Each choice is tried as its difference from one whose sides fit.
    pub fn some_sound(&self, label: u64) -> bool
        ensures { DecidesSound (contents_at self.now) self.now.truth self.now.last label result }
    {
        let able = self.viable();
        let members = known_part(self.book, label);
        if !inside(members, able) {
            return false;
        }
        // Nested loops left by a label: a choice that is not sound goes on to the next.
        'choices: for flips in 0..u64::MAX {
            let mut expansion = members;
            for number in (0..self.book.formula_count()).rev() {
                if !contains(expansion, number) {
                    continue;
                }
                let Some(offer) = self.tried(number, able, contains(flips, number)) else {
                    continue 'choices;
                };
                expansion |= offer.parts;
            }
            return true;
        }
        false
    }
}
