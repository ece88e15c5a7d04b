// The next labels of a row, kept from one pattern of facts to the next.
ghost use Rattle.std.specs.Prelude.{◌≡◌, ◌^◌, ◌<◌, ◌≤◌, length, None};
ghost use Rattle.ltlf.specs.Contents.{book_contents};
ghost use Rattle.search.specs.Layers.{IndexedRows, Spread};
ghost use Rattle.search.specs.Questions.{Known, Labelled, LabelledOr, Patterned};
ghost use Rattle.successors.specs.Cells.{labels};
ghost use Rattle.tableau.specs.Labels.{Label};
ghost use Rattle.tableau.specs.Positions.{In, Distinct};

use crate::Row;
use crate::layers::enter;
use intern::Cell;
use ltlf::Book;
use successors::{NextLabel, next_labels};
use viability::Visit;

/// Which atoms hold, and how many next labels there are then.
#[derive(Clone, Copy, Drop)]
pub(crate) struct Pattern {
    pub(crate) truth: u64,
    pub(crate) count: usize,
}

/// The next labels of a label where the atoms of `truth` hold, in the cells; those that are there serve again.
///
/// `None` where they outnumber the cells.
pub(crate) fn labels_for(
    book: &Book,
    label: u64,
    truth: u64,
    cells: &mut [Cell<NextLabel>],
    known: Option<Pattern>,
) -> Option<Pattern>
    requires { (length cells.old ≤ 2 ^ 32) × (Known (book_contents book.now) label cells.old known) }
    ensures { Patterned (book_contents book.now) label truth cells.new result }
{
    if let Some(pattern) = known {
        if pattern.truth == truth {
            return known;
        }
    }
    let visit = Visit {
        book,
        truth,
        last: false,
    };
    let count = next_labels(&visit, label, cells)?;
    Some(Pattern { truth, count })
}

/// Enters the positions of a place and a code with the labels of the cells.
///
/// `None` where a row is wanted and none is left.
pub(crate) fn enter_labels(
    rows: &mut [Cell<Row>],
    filled: usize,
    visit: Row,
    cells: &[Cell<NextLabel>],
) -> Option<usize>
    requires { (length rows.old ≤ 2 ^ 32) × IndexedRows rows.old filled }
    ensures { Spread (λ e. e.from ≡ visit.from) (Labelled visit.place visit.code cells.now (length cells.now)) rows.old rows.new filled result }
{
    let mut filled = filled;
    for cell in cells {
        let label = cell.item.formulas;
        filled = enter(rows, filled, Row { label, ..visit })?;
    }
    Some(filled)
}

/// Fills the rows up with positions of the labels of the cells, where those are at least as many as the rows and there is another label.
pub(crate) fn fill_up(rows: &mut [Cell<Row>], filled: usize, visit: Row, cells: &[Cell<NextLabel>])
    requires { (length rows.old ≤ 2 ^ 32) × ((IndexedRows rows.old filled) × ((length rows.old ≤ length cells.now) × (Distinct (labels cells.now (length cells.now))))) }
    ensures { (L : Label) → (In L (labels cells.now (length cells.now)) → ⊥) → Spread (λ e. e.from ≡ visit.from) (LabelledOr L visit.place visit.code cells.now (length cells.now)) rows.old rows.new filled None }
{
    let _ = enter_labels(rows, filled, visit, cells);
}
