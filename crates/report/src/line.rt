// A line made of a word and numbers.
// Pieces and no `write!`: its text is ensured where it succeeds, and nothing ensures that it does.
ghost use Rattle.std.specs.Prelude.{◌≡◌, ◌+◌, ◌*◌, ◌<◌, ◌≤◌, ◌++◌, length, drop};
ghost use Rattle.report.specs.Lines.{line_text, line_answer, line_leaves};

use arrayvec::ArrayString;
use itoa::Buffer;
use refusal::Refusal;

/// The most bytes that a line takes.
const LINE_ROOM: usize = 64;

/// The text of a line: a word, each number after a space, and a line end.
fn line_of(word: &str, numbers: &[u64]) -> ArrayString<LINE_ROOM>
    requires { length word.now + 21 * length numbers.now < 64 }
    ensures { result.bytes ≡ line_text word.now numbers.now }
{
    let mut line = ArrayString::new();
    line.push_str(word);
    for number in numbers {
        line.push(' ');
        line.push_str(Buffer::new().format(*number));
    }
    line.push('\n');
    line
}

/// Writes a line at the front: a word, each number after a space, and a line end.
///
/// Errors: 9 for fewer than 64 bytes, which stay as they were.
pub(crate) fn write_line(out: &mut [u8], word: &str, numbers: &[u64]) -> Result<usize, Refusal>
    requires { length word.now + 21 * length numbers.now < 64 }
    ensures answer { result ≡ line_answer (length out.old) (line_text word.now numbers.now) }
    ensures after { out.new ≡ line_leaves out.old (line_text word.now numbers.now) }
{
    if out.len() < LINE_ROOM {
        return Err(Refusal::BadBuffer);
    }
    let line = line_of(word, numbers);
    let text = line.as_str().as_bytes();
    out[..text.len()].copy_from_slice(text);
    Ok(text.len())
}
