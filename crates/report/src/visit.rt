ghost use Rattle.std.specs.Prelude.{◌≡◌, length};
ghost use Rattle.report.specs.Visits.{visit_answer, visit_leaves, visit_text};

use refusal::Refusal;
use theory::Printable;

/// The most bytes that the line of a visit takes.
const VISIT_ROOM: usize = 67;

/// Writes `n VALUES`, the values of a visit's code.
///
/// Errors: 4 for a code that does not exist, else 9 for fewer than 67 bytes; the bytes stay as they were.
pub fn visit_line<T: Printable>(out: &mut [u8], theory: &T, code: u16) -> Result<usize, Refusal>
    ensures answer { result ≡ visit_answer (T.Theory.meaning theory.now).codes code (length out.old) (visit_text (T.Printable.values theory.now code)) }
    ensures after { out.new ≡ visit_leaves (T.Theory.meaning theory.now).codes code out.old (visit_text (T.Printable.values theory.now code)) }
{
    let mut values = [0u8; 64];
    let length = theory.print(code, &mut values)?;
    if out.len() < VISIT_ROOM {
        return Err(Refusal::BadBuffer);
    }
    out[..2].copy_from_slice(b"n ");
    out[2..2 + length].copy_from_slice(&values[..length]);
    out[2 + length] = b'\n';
    Ok(length + 3)
}
