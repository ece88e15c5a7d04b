ghost use Rattle.std.specs.Prelude.{◌≡◌};
ghost use Rattle.numbers.specs.Model.{numbers_of, numbers_meaning, numbers_ranges};

use super::numbers::Numbers;
use refusal::Refusal;
use theory::Theory;

impl Theory for Numbers {
    ghost meaning = { λ t. numbers_meaning (numbers_of t) };

    ghost ranges = { numbers_ranges };

    fn code_count(&self) -> u16 {
        self.grid.codes
    }

    fn atom_count(&self) -> u8 {
        self.atoms.len() as u8
    }

    fn holds(&self, atom: u8, code: u16, next: Option<u16>) -> Result<bool, Refusal> {
        theory::check_within(self.grid.codes, self.atom_count(), atom, code, next)?;
        Ok(self.atoms[atom as usize].holds(&self.grid, code, next))
    }
}
