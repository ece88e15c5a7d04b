// Whole numbers with their sign, small enough for 32 bits.
ghost use Rattle.std.specs.Prelude.{◌≡◌, ℕ, ◌≤◌};
ghost use Rattle.items.specs.Numbers.{integer_read};
ghost use Rattle.items.specs.Reads.{read_seen};

use items::{Read, whole_number};

/// The number in front with a minus if it is below zero, if it is at most `limit` away from zero.
pub(crate) fn read_small(text: &[u8], limit: u32) -> Option<Read<i32>>
    requires { limit ≤ 40000000 }
    ensures { read_seen result ≡ integer_read limit text.now }
{
    let number = whole_number(text, limit)?;
    Some(Read {
        value: number.value as i32,
        rest: number.rest,
    })
}
