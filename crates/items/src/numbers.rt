// Numbers in decimal, without leading zeros.
ghost use Rattle.std.specs.Prelude.{◌≡◌, ℕ, ◌+◌, ◌-◌, ◌<◌, ◌≤◌};
ghost use Rattle.items.specs.Numbers.{at_most, digits_read, integer_read, natural_read, NaturalLaw};
ghost use Rattle.items.specs.Reads.{read_seen};

use super::reads::Read;

/// The number that the digits in front write, if it is at most `limit`.
fn digits(text: &[u8], limit: u32) -> Option<Read<u32>>
    ensures read { read_seen result ≡ digits_read limit text.now }
    ensures within { at_most limit result }
{
    let mut value = 0u64;
    let mut rest = text;
    while let [byte @ b'0'..=b'9', after @ ..] = rest {
        value = value * 10 + u64::from(*byte - b'0');
        if value > u64::from(limit) {
            return None;
        }
        rest = after;
    }
    Some(Read {
        value: value as u32,
        rest,
    })
}

/// The number in front, if it is written without leading zeros and is at most `limit`.
pub fn natural(text: &[u8], limit: u32) -> Option<Read<u32>>
    ensures read { read_seen result ≡ natural_read limit text.now }
    ensures within { at_most limit result }
{
    match text {
        [b'0', b'0'..=b'9', ..] => None,
        [b'0', rest @ ..] => Some(Read { value: 0, rest }),
        [b'1'..=b'9', ..] => digits(text, limit),
        _ => None,
    }
}

/// A number is read exactly where one is written.
pub fn natural_law()
    ensures { NaturalLaw }
{}

/// The number in front with a minus if it is below zero, if it is at most `limit` away from zero.
pub fn whole_number(text: &[u8], limit: u32) -> Option<Read<i64>>
    ensures { read_seen result ≡ integer_read limit text.now }
{
    match text {
        [b'-', rest @ ..] => {
            let number = natural(rest, limit).filter(|number| number.value != 0)?;
            Some(Read {
                value: -i64::from(number.value),
                rest: number.rest,
            })
        }
        _ => {
            let number = natural(text, limit)?;
            Some(Read {
                value: i64::from(number.value),
                rest: number.rest,
            })
        }
    }
}
