// The states of the expansion that are done. A state that is missing costs time, never a label.
ghost use Rattle.std.specs.Prelude.{◌≡◌, ◌<◌, true};
ghost use Rattle.successors.specs.Tables.{Stands, Puts};

/// The members that are still to be expanded, and the next label so far.
#[derive(Clone, Copy, PartialEq, Eq, Debug, Drop)]
pub struct State {
    pub(crate) members: u64,
    pub(crate) next: u64,
}

/// Where the table keeps a state: each greatest member has places of its own, so that the many states with a low one
/// do not drive out the few with a high one.
fn place(number: u8, state: State, size: usize) -> usize
    requires { 0 < size }
    ensures { result < size }
{
    let mixed = (state.members.wrapping_mul(0x9E3779B97F4A7C15)
        ^ state.next.wrapping_mul(0xC2B2AE3D27D4EB4F)).wrapping_mul(0x165667B19E3779F9);
    (number as usize * 64 + (mixed >> 40) as usize % 64) % size
}

/// Whether a state was remembered.
pub(crate) fn seen(table: &[Option<State>], number: u8, state: State) -> bool
    ensures { result ≡ true → Stands table.now state }
{
    if table.is_empty() {
        return false;
    }
    table[place(number, state, table.len())] == Some(state)
}

/// Remembers a state, in place of another where its place is taken.
pub(crate) fn remember(table: &mut [Option<State>], number: u8, state: State)
    ensures { Puts table.old table.new state }
{
    if !table.is_empty() {
        let at = place(number, state, table.len());
        table[at] = Some(state);
    }
}
