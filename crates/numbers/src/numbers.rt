ghost use Rattle.std.specs.Prelude.{◌≡◌, ◌≤◌, true, length, map};
ghost use Rattle.names.specs.Rosters.{texts};
ghost use Rattle.numbers.specs.Kept.{atom_of, sums_stand};
ghost use Rattle.numbers.specs.Values.{combinations};
ghost use Rattle.numbers.specs.Variables.{variables_of};

use super::atom::Atom;
use super::grid::Grid;
use arrayvec::ArrayVec;
use names::Roster;

/// One to eight named variables with their bounds, and at most 32 atoms over them.
// Ghost fields and no `impl Model`: a theory's law `ranges` speaks of every value of the type.
#[derive(Drop)]
pub struct Numbers {
    pub(crate) names: Roster<8>,
    pub(crate) grid: Grid,
    pub(crate) atoms: ArrayVec<Atom, 32>,
    ghost paired: { length (texts names) ≡ length grid.variables.items },
    ghost counted: { grid.codes ≡ combinations (variables_of names grid) },
    ghost few: { length atoms.items ≤ 32 },
    ghost known: { sums_stand (length grid.variables.items) (map atom_of atoms.items) ≡ true },
}
