// What the lines of a number sheet fill.
ghost use Rattle.std.specs.Prelude.{◌≡◌, ℕ, ◌+◌, refl};
ghost use Rattle.numbers.specs.Model.{numbers_of};
ghost use Rattle.sheet_text.specs.Held.{numbers};

use super::filled::Filled;
use super::heading::Heading;
use number_text::{read_sum, read_values, read_variable};
use numbers::Numbers;

impl Filled for Numbers {
    ghost held = { λ t. numbers (numbers_of t) };

    fn heading(&self) -> Heading {
        Heading::Numbers
    }

    fn begin(&mut self, text: &[u8]) -> Option<()> {
        let declared = read_variable(text)?;
        *self = Numbers::with_variable(declared.name, declared.low, declared.high).ok()?;
        Some(())
    }

    fn put_variable(&mut self, text: &[u8]) -> Option<()> {
        let declared = read_variable(text)?;
        self.add_variable(declared.name, declared.low, declared.high)
            .ok()
    }

    fn put_atom(&mut self, text: &[u8]) -> Option<()> {
        let sum = read_sum(self, text)?;
        self.add_atom(&sum.terms[..sum.count], sum.comparison, sum.constant)
            .ok()
    }

    fn note(&self, line: &[u8]) -> Option<u16> {
        match line {
            [b'n', rest @ ..] => read_values(self, rest),
            _ => None,
        }
    }

    ghost meant = { λ t. refl };
}
