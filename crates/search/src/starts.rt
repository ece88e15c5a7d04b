// The starting positions.
ghost use Rattle.std.specs.Prelude.{◌≡◌, ◌^◌, ◌≤◌, length};
ghost use Rattle.search.specs.Layers.{Spread};
ghost use Rattle.search.specs.Questions.{SomeOf, StartsAt};

use crate::Row;
use crate::layers::enter;
use intern::Cell;
use std::ops::Range;

/// Enters the positions at place 0 with a label and the codes that may stand there; `None` where a row is wanted and none is left.
pub(crate) fn enter_starts(rows: &mut [Cell<Row>], label: u64, visits: Range<u16>) -> Option<usize>
    requires { (length rows.old ≤ 2 ^ 32) × (visits.start ≤ visits.end) }
    ensures { Spread (λ e. e.from ≡ 0) (SomeOf (StartsAt label) visits.start visits.end) rows.old rows.new 0 result }
{
    let mut filled = 0;
    for code in visits {
        let row = Row {
            place: 0,
            code,
            label,
            from: 0,
        };
        filled = enter(rows, filled, row)?;
    }
    Some(filled)
}
