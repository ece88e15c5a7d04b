// The search by layers: the positions at distance 0, at distance 1, and so on.
ghost use Rattle.std.specs.Prelude.{◌≡◌, ◌^◌, ◌≤◌, length};
ghost use Rattle.search.specs.Layers.{AllBounded, After, Came, FoundIn, IndexedRows, Searched, Spread};
ghost use Rattle.search.specs.Questions.{Room};
ghost use Rattle.search.specs.Rows.{position};
ghost use Rattle.tableau.specs.Positions.{Starts, Step, Ends};

use crate::Row;
use crate::space::Space;
use intern::{Cell, Slot, find_or_add};
use successors::NextLabel;

/// What a search that had rows enough has found.
// Both cases have `filled`: a struct around them would be taken apart in the one place that reads it.
#[derive(Clone, Copy, Drop)]
pub(crate) enum Found {
    /// The position of a row ends, and none at a smaller distance does.
    Can {
        row: usize,
        filled: usize,
        depth: usize,
    },
    /// No position ends.
    Cannot {
        filled: usize,
    },
}

// Rows, `filled` and labels stay arguments, with their facts: a struct would promise in each contract that it still lends the same.

/// Enters a row behind the first `filled`, unless its position stands there; `None` where no row is left.
// The body stands once more for next labels, in `successors`: each contract says its own of what is entered.
pub(crate) fn enter(rows: &mut [Cell<Row>], filled: usize, row: Row) -> Option<usize>
    requires { (length rows.old ≤ 2 ^ 32) × (IndexedRows rows.old filled) }
    ensures { Spread (λ e. e.from ≡ row.from) (λ p. p ≡ position row) rows.old rows.new filled result }
{
    match find_or_add(rows, filled, row).ok()? {
        Slot::Found(_) => Some(filled),
        Slot::Added(_) => Some(filled + 1),
    }
}

/// The first row of rows[start..end) whose position ends.
pub(crate) fn first_end<S: Space>(
    space: &S,
    rows: &[Cell<Row>],
    start: usize,
    end: usize,
) -> Option<usize>
    requires span { (start ≤ end) × (end ≤ length rows.now) }
    requires bounded { AllBounded (S.Space.question space.now) rows.now start end }
    ensures { FoundIn (Ends (S.Space.question space.now)) rows.now start end result }
{
    // By number: tried as `position`, whose closure would have to take any row, while `finish` asks for a bounded one.
    for i in start..end {
        if space.finish(rows[i].item) {
            return Some(i);
        }
    }
    None
}

/// Enters behind rows[..end) what rows[start..end) step to; `None` where a row is wanted and none is left.
pub(crate) fn expand_layer<S: Space>(
    space: &S,
    rows: &mut [Cell<Row>],
    start: usize,
    end: usize,
    labels: &mut [Cell<NextLabel>],
) -> Option<usize>
    requires span { start ≤ end }
    requires room { Room rows.old labels.old }
    requires indexed { IndexedRows rows.old end }
    requires bounded { AllBounded (S.Space.question space.now) rows.old start end }
    ensures { Spread (Came (Step (S.Space.question space.now)) rows.old start end) (After (Step (S.Space.question space.now)) rows.old start end) rows.old rows.new end result }
{
    let mut filled = end;
    // By number: rows are entered behind the layer while it is read, so that no borrow of it can last.
    for i in start..end {
        filled = space.expand(rows[i].item, i as u32, rows, filled, labels)?;
    }
    Some(filled)
}

/// Enters the positions up to the least distance at which one ends, or all that steps lead to; `None` where a row is wanted and none is left.
pub(crate) fn by_layers<S: Space>(
    space: &S,
    rows: &mut [Cell<Row>],
    labels: &mut [Cell<NextLabel>],
) -> Option<Found>
    requires room { Room rows.old labels.old }
    ensures { Searched (Starts (S.Space.question space.now)) (Step (S.Space.question space.now)) (Ends (S.Space.question space.now)) rows.old rows.new result }
{
    let mut filled = space.begin(rows)?;
    let mut start = 0;
    let mut depth: usize = 0;
    // A `while`: how many layers there are is known only when one is empty.
    'layers: while start < filled {
        if let Some(row) = first_end(space, rows, start, filled) {
            return Some(Found::Can { row, filled, depth });
        }
        let more = expand_layer(space, rows, start, filled, labels)?;
        start = filled;
        filled = more;
        depth += 1;
    }
    Some(Found::Cannot { filled })
}
