// A history read back from the rows: each row names the row from which a step led to it.
ghost use Rattle.std.specs.Prelude.{◌≡◌, suc, ◌<◌, ◌++◌, length, drop};
ghost use Rattle.search.specs.Trails.{Backed, trail};

use crate::Row;
use intern::Cell;

/// Writes the codes of the rows that led to `row` in `depth` steps, and its own, into the first entries; the others stay.
pub(crate) fn read_back(rows: &[Cell<Row>], row: Row, depth: usize, history: &mut [u16])
    requires { (depth < length history.old) × (Backed rows.now depth row) }
    ensures { history.new ≡ trail rows.now depth row ++ drop (suc depth) history.old }
{
    let mut at = row;
    // By number: of what is written through a reversed `iter_mut` a proof knows nothing.
    for left in (0..depth).rev() {
        history[left + 1] = at.code;
        at = rows[at.from as usize].item;
    }
    history[0] = at.code;
}
