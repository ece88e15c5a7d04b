// What guides the expansion at each viable formula: the ways on, what they can hand on, and what they hand on whatever is chosen.
ghost use Rattle.std.specs.Prelude.{◌≡◌, ◌<◌, ◌≤◌, length, slice_index_or};
ghost use Rattle.successors.specs.Guides.{reach_at, must_at, GuidesBelow};
ghost use Rattle.successors.specs.Handing.{Top};
ghost use Rattle.successors.specs.Ways.{Gathers, Brings, Covers, Shared};
ghost use Rattle.viability.specs.Viable.{Viable};
ghost use Rattle.viability.specs.Visits.{moment_at, contents_at};

use super::ways::{Ways, ways_on};
use viability::{Offer, Visit, without};

/// What is handed on from a formula or a label, here or from its parts: what can be, and what is whatever is chosen.
#[derive(Clone, Copy, Drop)]
pub struct Span {
    pub(crate) reach: u64,
    pub(crate) must: u64,
}

/// The ways on from a formula, and what they hand on.
#[derive(Clone, Copy, Drop)]
pub struct Guide {
    pub(crate) ways: Ways,
    pub(crate) span: Span,
}

impl Guide {
    /// No way on yet.
    pub(crate) const NONE: Guide = Guide {
        ways: Ways {
            first: Offer {
                parts: 0,
                handed: 0,
            },
            second: None,
        },
        span: Span { reach: 0, must: 0 },
    };
}

/// The greatest formula of a label.
pub(crate) fn top(label: u64) -> u8
    requires { 0 < label }
    ensures { (result < 64) × (Top label result) }
{
    let zeros = label.leading_zeros();
    (63 - zeros) as u8
}

/// The guide of a number.
pub(crate) fn guide_at(guides: &[Guide; 64], number: u8) -> Guide
    requires { number < 64 }
    ensures { (d : Guide) → slice_index_or guides.now number d ≡ result }
{
    guides[number as usize]
}

/// What the guides of these members have together.
pub(crate) fn gathered(guides: &[Guide; 64], members: u64) -> Span
    ensures { Gathers (reach_at guides.now) members result.reach × Gathers (must_at guides.now) members result.must }
{
    let mut reach = 0;
    let mut must = 0;
    let mut rest = members;
    // The members are bits: an iterator over them would be this loop again.
    while rest > 0 {
        let number = top(rest);
        let span = guide_at(guides, number).span;
        reach |= span.reach;
        must |= span.must;
        rest = without(rest, number);
    }
    Span { reach, must }
}

/// What an offer hands on, and what the guides of its parts have.
fn brought(offer: Offer, guides: &[Guide; 64]) -> Span
    ensures { Brings (reach_at guides.now) offer result.reach × Brings (must_at guides.now) offer result.must }
{
    let parts = gathered(guides, offer.parts);
    Span {
        reach: offer.handed | parts.reach,
        must: offer.handed | parts.must,
    }
}

/// What some way on hands on, here or from its parts, and what every way on does.
fn span_of(ways: Ways, guides: &[Guide; 64]) -> Span
    ensures { Covers (reach_at guides.now) ways result.reach × Shared (must_at guides.now) ways result.must }
{
    let first = brought(ways.first, guides);
    match ways.second {
        Some(second) => {
            let second = brought(second, guides);
            Span {
                reach: first.reach | second.reach,
                must: first.must & second.must,
            }
        }
        None => first,
    }
}

/// Fills in the guides of the formulas that some side fits, and returns how many of them fork.
pub(crate) fn fill(visit: &Visit, able: u64, guides: &mut [Guide; 64]) -> u8
    requires { Viable (moment_at visit.now) (contents_at visit.now) able }
    ensures { GuidesBelow (moment_at visit.now) (contents_at visit.now) able guides.new (length (contents_at visit.now).nodes) }
{
    let mut forks: u8 = 0;
    // A formula's guide is made of those of its parts, which have lower numbers.
    for number in 0..visit.book.formula_count() {
        if let Some(ways) = ways_on(visit, number, able) {
            let span = span_of(ways, guides);
            guides[number as usize] = Guide { ways, span };
            forks = forks.saturating_add(u8::from(ways.second.is_some()));
        }
    }
    forks
}
