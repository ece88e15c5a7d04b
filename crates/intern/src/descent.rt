ghost use Rattle.std.specs.Prelude.{◌≡◌};
ghost use Rattle.intern.specs.Walk.{reached, found_at};

use crate::{Cell, EntryError, Keyed};

/// Where the walk for a record ends.
#[derive(Clone, Copy, Drop)]
pub enum End {
    /// At a cell whose item equals the record.
    Here(usize),
    /// At a cell with no link on the side where the walk would go on: the bit of the key there, right where it is 1.
    Gap { at: usize, right: bool },
}

impl End {
    /// The cell where the record was found.
    pub(crate) fn found(self) -> Option<usize>
        ensures { result ≡ found_at self }
    {
        match self {
            End::Here(at) => Some(at),
            End::Gap { .. } => None,
        }
    }
}

/// Walks from cell 0 along the turns of `r`.
///
/// Errors: `Broken` where `filled` is 0 or past the cells, or a link does not lead to a later filled cell.
pub(crate) fn descend<R: Keyed + Copy>(
    cells: &[Cell<R>],
    filled: usize,
    r: R,
) -> Result<End, EntryError>
    ensures { result ≡ reached R.Keyed.alike R.Keyed.turns cells.now filled r }
{
    if filled > cells.len() {
        return Err(EntryError::Broken);
    }
    let mut at = 0;
    // The number is the depth at which a turn is asked, bounded by the filled cells.
    for depth in 0..filled {
        let here = cells[at];
        if here.item == r {
            return Ok(End::Here(at));
        }
        let right = r.turn(depth);
        let Some(link) = here.child(right) else {
            return Ok(End::Gap { at, right });
        };
        let next = link as usize;
        if next <= at || next >= filled {
            return Err(EntryError::Broken);
        }
        at = next;
    }
    Err(EntryError::Broken)
}
