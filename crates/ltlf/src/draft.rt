ghost use Rattle.std.specs.Prelude.{◌≡◌, ℕ, ◌<◌, ◌≤◌, true, length, ◌≢◌, slice_index, slice_index_or};
ghost use Rattle.intern.specs.Index.{Indexed, items};
ghost use Rattle.ltlf.specs.Nodes.{known, same, node_turn};
ghost use Rattle.ltlf.specs.declared.node.Node.TheVariants.{True};

use super::node::Node;
use arrayvec::ArrayVec;
use intern::Cell;

/// Formulas in the order in which they were put, each once, and which of them are rules.
// Ghost fields and no `Model`: every draft is proper, and a model's value would forget it (`BooksAreProper`).
// The cells keep their count beside them, since a formula is found or added among the first cells of a slice.
#[derive(Drop)]
pub struct Draft {
    pub(crate) codes: u16,
    pub(crate) atoms: u8,
    pub(crate) cells: [Cell<Node>; 64],
    pub(crate) len: u8,
    pub(crate) rules: ArrayVec<u8, 64>,
    ghost room: { len ≤ 64 },
    ghost whole: { length cells ≡ 64 },
    ghost indexed: { Indexed same node_turn cells len },
    ghost before: { (k : ℕ) → k < len → known atoms k (slice_index_or (items cells len) k True) ≡ true },
    ghost stood: { (i : ℕ) → i < length rules.items → slice_index rules.items i < len },
    ghost apart: { (i j : ℕ) → i < j → j < length rules.items → slice_index rules.items i ≢ slice_index rules.items j },
    ghost coded: { codes ≤ 4096 },
    ghost told: { atoms ≤ 32 },
}
