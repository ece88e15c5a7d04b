ghost use Rattle.std.specs.Prelude.{◌≡◌};
ghost use Rattle.successors.specs.Cells.{mixed, same_label, label_turn};
ghost use Rattle.std.proofs.Common.{rules};

use intern::Keyed;

/// A next label: the formulas that must hold at the next visit, as bits.
#[derive(Clone, Copy, PartialEq, Eq, Debug, Drop)]
pub struct NextLabel {
    pub formulas: u64,
}

// The turn is that of a row with another mix: a line, and no function of its own.
impl Keyed for NextLabel {
    ghost alike = { same_label };

    ghost turns = { label_turn };

    ghost decides = { Prim.search rules };

    ghost reflexive = { Prim.search rules };

    ghost symmetric = { Prim.search rules };

    ghost transitive = { Prim.search rules };

    ghost agree = { Prim.search rules };

    fn turn(&self, depth: usize) -> bool {
        (self.formulas.wrapping_mul(11_400_714_819_323_198_485) >> (63 - depth % 64)) % 2 == 1
    }
}
