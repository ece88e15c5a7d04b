// The steps from a row, code by code.
ghost use Rattle.std.specs.Prelude.{◌≡◌, ◌^◌, ◌<◌, ◌≤◌, length};
ghost use Rattle.ltlf.specs.Contents.{book_contents};
ghost use Rattle.search.specs.Layers.{IndexedRows, Spread};
ghost use Rattle.search.specs.Questions.{Room, SomeOf, StepsFrom};
ghost use Rattle.search.specs.Rows.{position};

use crate::Row;
use crate::asked::Asked;
use crate::facts::truth_at;
use crate::labels::{enter_labels, fill_up, labels_for};
use intern::Cell;
use std::ops::Range;
use successors::NextLabel;
use theory::Theory;

/// Enters what `row` steps to at each code of `visits`, with the place and the origin of `visit`.
///
/// `None` where a row is wanted and none is left. A label is expanded once for each run of codes with the same facts.
pub(crate) fn expand_codes<T: Theory>(
    asked: &Asked<T>,
    row: Row,
    visit: Row,
    visits: Range<u16>,
    rows: &mut [Cell<Row>],
    filled: usize,
    cells: &mut [Cell<NextLabel>],
) -> Option<usize>
    requires codes { (row.code < (T.Theory.meaning asked.now.theory.now).codes) × ((visits.start ≤ visits.end) × (visits.end ≤ (T.Theory.meaning asked.now.theory.now).codes)) }
    requires known { row.label < 2 ^ length (book_contents asked.now.book.now).nodes }
    requires room { Room rows.old cells.old }
    requires indexed { IndexedRows rows.old filled }
    ensures { Spread (λ e. e.from ≡ visit.from) (SomeOf (StepsFrom (T.Theory.meaning asked.now.theory.now) (book_contents asked.now.book.now) (position row) visit.place) visits.start visits.end) rows.old rows.new filled result }
{
    let mut filled = filled;
    let mut known = None;
    for code in visits {
        let truth = truth_at(asked.theory, asked.book.atom_count(), row.code, Some(code));
        let at = Row { code, ..visit };
        let Some(pattern) = labels_for(asked.book, row.label, truth, cells, known) else {
            fill_up(rows, filled, at, cells);
            return None;
        };
        known = Some(pattern);
        filled = enter_labels(rows, filled, at, &cells[..pattern.count])?;
    }
    Some(filled)
}
