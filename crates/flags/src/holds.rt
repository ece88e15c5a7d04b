ghost use Rattle.std.specs.Prelude.{◌≡◌};
ghost use Rattle.flags.specs.Meaning.{flags_meaning};
ghost use Rattle.flags.specs.Model.{flags_of};
ghost use Rattle.flags.specs.Ranges.{flags_ranges};

use super::flags::Flags;
use refusal::Refusal;
use theory::Theory;

impl Theory for Flags {
    ghost meaning = { λ t. flags_meaning (flags_of t) };

    ghost ranges = { flags_ranges };

    fn code_count(&self) -> u16 {
        1 << self.flag_count()
    }

    fn atom_count(&self) -> u8 {
        self.atoms.len() as u8
    }

    fn holds(&self, atom: u8, code: u16, next: Option<u16>) -> Result<bool, Refusal> {
        theory::check_within(self.code_count(), self.atom_count(), atom, code, next)?;
        let flag = self.atoms[atom as usize];
        Ok((code >> flag) % 2 == 1)
    }
}
