// The line of a variable.
ghost use Rattle.std.specs.Prelude.{◌≡◌};
ghost use Rattle.number_text.specs.Variables.{declared_seen, bounds_read, variable_read};

use super::integers::read_small;
use items::{read_name, space};

/// A variable as its line declares it.
#[derive(Clone, Copy, Drop)]
pub struct Declared<'a> {
    pub name: &'a [u8],
    pub low: i32,
    pub high: i32,
}

/// The variable of a name whose bounds are all of a text.
fn bounded<'a>(name: &'a [u8], text: &'a [u8]) -> Option<Declared<'a>>
    ensures { declared_seen result ≡ bounds_read name.now text.now }
{
    let low = read_small(text, 10_000)?;
    let second = space(low.rest)?;
    let high = read_small(second, 10_000)?.alone()?;
    Some(Declared {
        name,
        low: low.value,
        high,
    })
}

/// The variable whose name and bounds are all of a text: `NAME LOW HIGH`.
///
/// None where no name stands in front, a bound is no whole number within ±10,000, or anything else stands there.
pub fn read_variable(text: &[u8]) -> Option<Declared>
    ensures { declared_seen result ≡ variable_read text.now }
{
    let name = read_name(text)?;
    let bounds = space(name.rest)?;
    bounded(name.value, bounds)
}
