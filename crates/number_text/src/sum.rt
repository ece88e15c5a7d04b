ghost use Rattle.std.specs.Prelude.{◌≡◌, ◌≤◌, length};

use numbers::{Comparison, Term};

/// A sum of its first `count` terms, compared with a constant.
// An array with a count: a sum is `Copy`, and an `ArrayVec` is not.
#[derive(Clone, Copy, Drop)]
pub struct Sum {
    pub terms: [Term; 4],
    pub count: usize,
    pub comparison: Comparison,
    pub constant: i32,
    ghost whole: { length terms ≡ 4 },
    ghost few: { count ≤ 4 },
}
