// The values of a note.
ghost use Rattle.std.specs.Prelude.{◌≡◌, ℕ, ◌+◌, ◌*◌, ◌≤◌};
ghost use Rattle.items.specs.Reads.{read_seen};
ghost use Rattle.numbers.specs.Limits.{value_count};
ghost use Rattle.numbers.specs.Model.{numbers_of};
ghost use Rattle.number_text.specs.Values.{counted_on, counts_below, reads_below, value_read, values_read};

use super::integers::read_small;
use items::{Read, space};
use numbers::Numbers;

/// The code with one more value, which lies from `low` to `high`.
fn count_on(low: i32, high: i32, before: u32, value: i32) -> Option<u32>
    requires { (before + 1) * value_count low high ≤ 65535 }
    ensures is { result ≡ counted_on low high before value }
    ensures below { counts_below low high before result }
{
    // An `if`: `then_some` would count a value past its bounds too.
    if low <= value && value <= high {
        Some(before * (high.abs_diff(low) + 1) + value.abs_diff(low))
    } else {
        None
    }
}

/// The code with one more value, which stands behind a space.
fn read_value<'a>(low: i32, high: i32, before: Read<'a, u32>) -> Option<Read<'a, u32>>
    requires { (before.value + 1) * value_count low high ≤ 65535 }
    ensures read { read_seen result ≡ value_read low high before.entry.value before.entry.rest.now }
    ensures below { reads_below low high before.entry.value result }
{
    let written = space(before.rest)?;
    let number = read_small(written, 10_000)?;
    let value = count_on(low, high, before.value, number.value)?;
    Some(Read {
        value,
        rest: number.rest,
    })
}

/// The code that the values in a text write, a space and a value for each variable of a theory.
///
/// None where a value is missing, is no whole number or lies outside the bounds, or anything else stands there.
pub fn read_values(numbers: &Numbers, text: &[u8]) -> Option<u16>
    ensures { result ≡ values_read (numbers_of numbers.now).variables 0 text.now }
{
    let mut code = Read {
        value: 0,
        rest: text,
    };
    // By number: the theory lends no slice of its variables.
    for number in 0..numbers.variable_count() {
        let (low, high) = numbers.variable_bounds(number)?;
        code = read_value(low, high, code)?;
    }
    let code = code.alone()?;
    Some(code as u16)
}
