// Finding an equal record among cells, or adding it, once and for every kind of record. Rests on nothing.
// The cells' own links are a digital search tree: at each cell the next bit of the record's key says which link to follow.
// Promises: the answers are those of the walk in specs/ for all cells; of indexed cells, those of a scan from the first cell.
#![tactic(auto)]

mod cell;
mod descent;
mod keyed;

ghost use Rattle.std.specs.Prelude.{◌≡◌, ◌<◌, ◌≤◌, length};
ghost use Rattle.intern.specs.Entry.{slot_answer, cells_after, new_slot, with_first, with_hung};
ghost use Rattle.intern.specs.Index.{Indexed, items, place};
ghost use Rattle.intern.specs.Settled.{Settled};
ghost use Rattle.intern.specs.Walk.{lookup};

pub use cell::Cell;
use descent::{End, descend};
pub use keyed::Keyed;

// Cells and how many are filled are two arguments throughout: callers lend a slice, of arrays and of buffers of their own.

// The greatest cell number that fits a link.
const LAST_LINK: usize = u32::MAX as usize;

/// The cell of a record: where it was found, or where it was added.
#[derive(Clone, Copy, PartialEq, Eq, Debug, Drop)]
pub enum Slot {
    Found(usize),
    Added(usize),
}

/// Why a record was neither found nor added.
#[derive(Clone, Copy, PartialEq, Eq, Debug, Drop)]
pub enum EntryError {
    /// No cell is left, or the new cell's number does not fit a link.
    Full,
    /// `filled` is past the cells, or a link does not lead to a later filled cell.
    Broken,
}

/// The number of the cell, among the first `filled`, whose item equals `r`.
///
/// `None` where there is none, and where `filled` is past the cells or a link on the way is broken.
pub fn find<R: Keyed + Copy>(cells: &[Cell<R>], filled: usize, r: R) -> Option<usize>
    ensures answer { result ≡ lookup R.Keyed.alike R.Keyed.turns cells.now filled r }
    ensures first { Indexed R.Keyed.alike R.Keyed.turns cells.now filled → result ≡ place R.Keyed.alike r (items cells.now filled) }
{
    descend(cells, filled, r).ok()?.found()
}

/// Finds the cell, among the first `filled`, whose item equals `r`, or adds `r` in the cell after them.
///
/// Where the record is found, and on an error, the cells are unchanged.
pub fn find_or_add<R: Keyed + Copy>(
    cells: &mut [Cell<R>],
    filled: usize,
    r: R,
) -> Result<Slot, EntryError>
    ensures answer { result ≡ slot_answer R.Keyed.alike R.Keyed.turns cells.old filled r }
    ensures after { cells.new ≡ cells_after R.Keyed.alike R.Keyed.turns cells.old filled r }
    ensures settled { Indexed R.Keyed.alike R.Keyed.turns cells.old filled → Settled R.Keyed.alike R.Keyed.turns cells.old filled r result cells.new }
{
    enter(cells, filled, r)
}

// Adds `r` where its walk ends at a gap.
fn enter<R: Keyed + Copy>(cells: &mut [Cell<R>], filled: usize, r: R) -> Result<Slot, EntryError>
    ensures answer { result ≡ slot_answer R.Keyed.alike R.Keyed.turns cells.old filled r }
    ensures after { cells.new ≡ cells_after R.Keyed.alike R.Keyed.turns cells.old filled r }
{
    if filled == 0 {
        return put(cells, filled, r);
    }
    match descend(cells, filled, r)? {
        End::Here(at) => Ok(Slot::Found(at)),
        End::Gap { at, right } => hang(cells, filled, r, at, right),
    }
}

// Puts `r` into the cell after the filled ones, with no link to it.
fn put<R: Copy>(cells: &mut [Cell<R>], filled: usize, r: R) -> Result<Slot, EntryError>
    ensures answer { result ≡ new_slot filled (length cells.old) }
    ensures after { cells.new ≡ with_first cells.old filled r }
{
    if filled >= cells.len() || filled > LAST_LINK {
        return Err(EntryError::Full);
    }
    cells[filled] = Cell::new(r);
    Ok(Slot::Added(filled))
}

// Puts `r` into the cell after the filled ones, linked from the cell `at`.
fn hang<R: Copy>(
    cells: &mut [Cell<R>],
    filled: usize,
    r: R,
    at: usize,
    right: bool,
) -> Result<Slot, EntryError>
    requires { (at < filled) × (filled ≤ length cells.old) }
    ensures answer { result ≡ new_slot filled (length cells.old) }
    ensures after { cells.new ≡ with_hung cells.old filled r at right }
{
    let slot = put(cells, filled, r)?;
    cells[at] = cells[at].link(right, filled as u32);
    Ok(slot)
}
