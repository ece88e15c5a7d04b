// Texts and numbers written into the caller's bytes. Rests on `itoa`, which formats a number on the stack.
// Promises: what fits is written whole and nothing else is touched; what does not fit writes nothing.
// The bytes are lent, with the place where writing goes on: memory is fixed.
#![tactic(auto)]

ghost use Rattle.std.specs.Prelude.{◌≡◌, length};
ghost use Rattle.writer.specs.Puts.{put_answer, put_leaves};

use itoa::{Buffer, Integer};

/// Writes a text from `at` on, and returns the place after it; none where it does not fit, and then nothing is written.
pub fn put_text(out: &mut [u8], at: usize, text: &[u8]) -> Option<usize>
    ensures answer { result ≡ put_answer (length out.old) at text.now }
    ensures after { out.new ≡ put_leaves out.old at text.now }
{
    if at > out.len() || text.len() > out.len() - at {
        return None;
    }
    let end = at + text.len();
    out[at..end].copy_from_slice(text);
    Some(end)
}

/// Writes a number in decimal from `at` on, with a minus before a negative one, and returns the place after it;
/// none where it does not fit, and then nothing is written.
pub fn put_number<I: Integer>(out: &mut [u8], at: usize, number: I) -> Option<usize>
    ensures answer { result ≡ put_answer (length out.old) at (I.text number) }
    ensures after { out.new ≡ put_leaves out.old at (I.text number) }
{
    let mut buffer = Buffer::new();
    put_text(out, at, buffer.format(number).as_bytes())
}
