// Entering a label into the cells.
ghost use Rattle.std.specs.Prelude.{◌≡◌};
ghost use Rattle.successors.specs.Cells.{Taken, Filled};

use super::label::NextLabel;
use intern::{Cell, Slot, find_or_add};

/// Enters a label after the first `filled`, unless it is among them, and returns how many there are then.
///
/// None where the cells are full.
// The body stands once more for rows, in `search`: each contract says its own of what is entered.
pub(crate) fn enter(cells: &mut [Cell<NextLabel>], filled: usize, label: u64) -> Option<usize>
    requires { Taken cells.old filled }
    ensures { Filled (λ q. q ≡ label) cells.old cells.new filled result }
{
    match find_or_add(cells, filled, NextLabel { formulas: label }).ok()? {
        Slot::Found(_) => Some(filled),
        Slot::Added(_) => Some(filled + 1),
    }
}
