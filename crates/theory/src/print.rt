// Printing the values of a code, by pieces into lent bytes: memory is fixed, and a `write!` is not ensured to succeed.
ghost use Rattle.std.specs.Prelude.{◌≡◌, ℕ, List, length, ℤ};
ghost use Rattle.std.specs.Fmt.{signed_decimal};
ghost use Rattle.theory.specs.Print.{item, spaced, print_answer, print_leaves, values_answer, values_leave};
ghost use Rattle.writer.specs.Puts.{put_answer, put_leaves};

use super::Theory;
use refusal::Refusal;
use writer::{put_number, put_text};

// A print buffer has room for the values of every code.
const PRINT_ROOM: usize = 64;

/// A theory that can write the values of a code.
pub trait Printable: Theory {
    // The values of a code, in variable order.
    ghost values: { Self → ℕ → List ℤ };

    /// Writes the values of a code in variable order, separated by one space, and returns their length.
    ///
    /// Errors: 4 for a code that does not exist, else 9 for a buffer under 64 bytes; nothing is written.
    fn print(&self, code: u16, out: &mut [u8]) -> Result<usize, Refusal>
        ensures answer { result ≡ print_answer (Self.Theory.meaning self.now).codes code (length out.old) (spaced (values self.now code)) }
        ensures after { out.new ≡ print_leaves (Self.Theory.meaning self.now).codes code out.old (spaced (values self.now code)) };
}

// A value in decimal: one of two digits without formatting.
fn put_value(out: &mut [u8], at: usize, value: i32) -> Option<usize>
    ensures answer { result ≡ put_answer (length out.old) at (signed_decimal value) }
    ensures after { out.new ≡ put_leaves out.old at (signed_decimal value) }
{
    let magnitude = value.unsigned_abs();
    if !(10..100).contains(&magnitude) {
        return put_number(out, at, value);
    }
    let tens = b'0' + (magnitude / 10) as u8;
    let ones = b'0' + (magnitude % 10) as u8;
    if value < 0 {
        put_text(out, at, &[b'-', tens, ones])
    } else {
        put_text(out, at, &[tens, ones])
    }
}

// `put_item` of any value, out of line: one of one digit needs less.
#[inline(never)]
fn format_item(out: &mut [u8], at: usize, value: i32) -> Option<usize>
    ensures answer { result ≡ put_answer (length out.old) at (item at value) }
    ensures after { out.new ≡ put_leaves out.old at (item at value) }
{
    if at == 0 {
        return put_value(out, at, value);
    }
    if at >= out.len() {
        return None;
    }
    let end = put_value(out, at + 1, value)?;
    out[at] = b' ';
    Some(end)
}

/// Writes a value in decimal from `at` on, after a space unless at the start, and returns the place after it;
/// none where it does not fit, and then nothing is written.
pub fn put_item(out: &mut [u8], at: usize, value: i32) -> Option<usize>
    ensures answer { result ≡ put_answer (length out.old) at (item at value) }
    ensures after { out.new ≡ put_leaves out.old at (item at value) }
{
    if (0..10).contains(&value) {
        let digit = b'0' + value as u8;
        return if at == 0 {
            put_text(out, at, &[digit])
        } else {
            put_text(out, at, &[b' ', digit])
        };
    }
    if (-9..0).contains(&value) {
        let digit = b'0' + value.unsigned_abs() as u8;
        return if at == 0 {
            put_text(out, at, &[b'-', digit])
        } else {
            put_text(out, at, &[b' ', b'-', digit])
        };
    }
    format_item(out, at, value)
}

/// Writes the values of a code, separated by one space, and returns their length: what a `print` does.
///
/// Errors: 4 for a code that does not exist, else 9 for a buffer under 64 bytes or values that take over 64; nothing is written.
#[inline]
pub fn print_values(codes: u16, code: u16, values: &[i32], out: &mut [u8]) -> Result<usize, Refusal>
    ensures answer { result ≡ values_answer codes code (length out.old) (spaced values.now) }
    ensures after { out.new ≡ values_leave codes code out.old (spaced values.now) }
{
    if code >= codes {
        return Err(Refusal::NoSuchCode);
    }
    if out.len() < PRINT_ROOM {
        return Err(Refusal::BadBuffer);
    }
    // What stands stays where the values take over 64 bytes.
    let mut text = [0; PRINT_ROOM];
    text.copy_from_slice(&out[..PRINT_ROOM]);
    let mut at = 0;
    for value in values {
        at = put_item(&mut text, at, *value).ok_or(Refusal::BadBuffer)?;
    }
    out[..PRINT_ROOM].copy_from_slice(&text);
    Ok(at)
}
