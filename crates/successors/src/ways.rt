// The ways on from a viable formula.
ghost use Rattle.std.specs.Prelude.{◌≡◌, ◌<◌, length};
ghost use Rattle.successors.specs.Ways.{WaysFound};
ghost use Rattle.viability.specs.Viable.{Viable};
ghost use Rattle.viability.specs.Visits.{moment_at, contents_at};

use viability::{Offer, Side, Visit, contains};

/// The ways on from a formula: one, and a second where they fork.
#[derive(Clone, Copy, Drop)]
pub struct Ways {
    pub(crate) first: Offer,
    pub(crate) second: Option<Offer>,
}

/// The ways on from a formula; none where no side fits.
pub(crate) fn ways_on(visit: &Visit, number: u8, able: u64) -> Option<Ways>
    requires viable { Viable (moment_at visit.now) (contents_at visit.now) able }
    requires below { number < length (contents_at visit.now).nodes }
    ensures { WaysFound (moment_at visit.now) (contents_at visit.now) able number result }
{
    // One test of a bit: of a formula that is not viable neither side is asked.
    if !contains(able, number) {
        return None;
    }
    let other = visit.fitting(number, Side::Other, able);
    match visit.fitting(number, Side::One, able) {
        Some(first) => Some(Ways {
            first,
            second: other.filter(|second| *second != first),
        }),
        None => Some(Ways {
            first: other?,
            second: None,
        }),
    }
}
