ghost use Rattle.std.specs.Prelude.{◌≡◌, ℕ, ◌<◌, ◌≤◌, length, slice_index};
ghost use Rattle.names.specs.Rosters.{texts};

use arrayvec::ArrayVec;
use names::Roster;

/// One to twelve named flags, and at most 32 atoms, each naming a flag by its number.
// Ghost fields and no `impl Model`: a theory's law `ranges` speaks of every value of the type.
#[derive(Drop)]
pub struct Flags {
    pub(crate) names: Roster<12>,
    pub(crate) atoms: ArrayVec<u8, 32>,
    ghost some: { 1 ≤ length (texts names) },
    ghost few: { length atoms.items ≤ 32 },
    ghost named: { (k : ℕ) → k < length atoms.items → slice_index atoms.items k < length (texts names) },
}
