// A question answered in lent rows, with the history that it shows.
ghost use Rattle.std.specs.Prelude.{◌≡◌, ◌^◌, ◌≤◌, length};
ghost use Rattle.search.specs.Outcomes.{outcome_of, RowsLeft, HistoryLeft};
ghost use Rattle.search.specs.Questions.{Room};
ghost use Rattle.tableau.specs.Search.{answer};

use crate::history::read_back;
use crate::layers::{Found, by_layers};
use crate::space::Space;
use crate::{Outcome, Row};
use intern::Cell;
use successors::NextLabel;

/// Answers the question of a space, and shows a shortest history where there is one.
pub(crate) fn explore<S: Space>(
    space: &S,
    rows: &mut [Cell<Row>],
    history: &mut [u16],
    labels: &mut [Cell<NextLabel>],
) -> Outcome
    requires room { Room rows.old labels.old }
    requires list { length rows.old ≤ length history.old }
    ensures answer { result ≡ outcome_of (answer (S.Space.question space.now) (length rows.old)) }
    ensures rows { RowsLeft (S.Space.question space.now) rows.old rows.new result }
    ensures history { HistoryLeft (S.Space.question space.now) history.old history.new result }
{
    match by_layers(space, rows, labels) {
        Some(Found::Can { row, filled, depth }) => {
            read_back(rows, rows[row].item, depth, history);
            Outcome::Can {
                length: depth + 1,
                rows: filled,
            }
        }
        Some(Found::Cannot { filled }) => Outcome::Cannot { rows: filled },
        None => Outcome::Short { rows: rows.len() },
    }
}
