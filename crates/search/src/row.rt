ghost use Rattle.std.specs.Prelude.{◌≡◌};
ghost use Rattle.search.specs.Rows.{same_position, mixed, row_turn};
ghost use Rattle.std.specs.Cmp.Rules.{comparing};
ghost use Rattle.std.proofs.Common.{rules};

use intern::Keyed;

/// A position, with the number of the row from which a step led to it.
#[derive(Clone, Copy, Debug, Drop)]
pub struct Row {
    pub place: u16,
    pub code: u16,
    pub label: u64,
    pub from: u32,
}

/// Rows are equal when they hold one position, wherever it came from.
// By hand: a derive would compare `from`, and a position would be entered once for each row that leads to it.
impl PartialEq for Row {
    ghost eq = { λ x y. same_position x y };

    ghost laws = { Prim.search (comparing, rules) };

    fn eq(&self, other: &Row) -> bool {
        self.place == other.place && self.label == other.label && self.code == other.code
    }
}

impl Row {
    // Label, code and place mixed into 64 bits, the best mixed at the top.
    fn mixed(self) -> u64
        ensures { result ≡ mixed self }
    {
        let visit = u64::from(self.code) + 65_536 * u64::from(self.place);
        let first = self.label.wrapping_mul(0x9E37_79B9_7F4A_7C15);
        first.wrapping_add(visit.wrapping_mul(0xD6E8_FEB8_6659_FD93))
    }
}

impl Keyed for Row {
    ghost alike = { same_position };

    ghost turns = { row_turn };

    ghost decides = { Prim.search rules };

    ghost reflexive = { Prim.search rules };

    ghost symmetric = { Prim.search rules };

    ghost transitive = { Prim.search rules };

    ghost agree = { Prim.search rules };

    fn turn(&self, depth: usize) -> bool {
        (self.mixed() >> (63 - depth % 64)) % 2 == 1
    }
}
