ghost use Rattle.std.specs.Prelude.{◌≡◌, ℕ, ◌<◌, true, length, pos, slice_index_or};
ghost use Rattle.numbers.specs.Codes.{all_values, ValuesTellCodes};
ghost use Rattle.numbers.specs.Limits.{within};
ghost use Rattle.numbers.specs.Model.{numbers_of};

use super::numbers::Numbers;
use arrayvec::ArrayVec;
use refusal::Refusal;
use theory::{Printable, print_values};

impl Numbers {
    /// The values of a code, in variable order.
    fn values(&self, code: u16) -> ArrayVec<i32, 8>
        ensures are { result.items ≡ all_values (numbers_of self.now).variables code }
        ensures bounds { (k : ℕ) → k < length result.items → within 10000 (slice_index_or result.items k (pos 0)) ≡ true }
    {
        let mut values = ArrayVec::new();
        // By number: that a span divides is known of the variable's place in the grid.
        for variable in 0..self.variable_count() {
            values.push(self.grid.value(variable, code));
        }
        values
    }
}

impl Printable for Numbers {
    ghost values = { λ t code. all_values (numbers_of t).variables code };

    fn print(&self, code: u16, out: &mut [u8]) -> Result<usize, Refusal> {
        print_values(self.grid.codes, code, &self.values(code), out)
    }
}

/// States that the values of a code tell the code.
pub fn values_tell_codes()
    ensures { ValuesTellCodes }
{}
