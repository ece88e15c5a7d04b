ghost use Rattle.std.specs.Prelude.{◌≡◌};
ghost use Rattle.numbers.specs.Strength.{strongest};

use super::term::{Comparison, Moment, Term};
use arrayvec::ArrayVec;

/// A sum of at most four terms, compared with a constant, and the strongest moment of these terms.
#[derive(Drop)]
pub(crate) struct Atom {
    pub(crate) terms: ArrayVec<Term, 4>,
    pub(crate) comparison: Comparison,
    pub(crate) constant: i32,
    pub(crate) strength: Moment,
    ghost marked: { strength ≡ strongest terms.items },
}
