// The input and the output of the programs: a sheet's bytes from one, lines to the other. Rests on `refusal`, `judge` and `report`.
// Promises: what is read stands at the front of the buffer, and no byte of it is lost; a line is passed on as it was made.
#![tactic(auto)]

ghost use Rattle.std.specs.Prelude.{◌<◌, ◌≤◌, length, take, IfOk, OnOk};
ghost use Rattle.std.specs.Io.KnownBytes.{Appends, Consumes, IsAtEnd};
ghost use Rattle.report.specs.Lines.{refused_text, stands_text};
ghost use Rattle.console.specs.Passed.{passed};

use judge::Judgement;
use refusal::{Refusal, SheetRefusal};
use report::{refused_line, stands_line};
use std::io;
use std::io::{Read, Write};

/// Fills the buffer from the input, and returns how many bytes came; a longer input is cut.
pub fn fill<R: Read>(input: &mut R, buffer: &mut [u8]) -> io::Result<usize>
    ensures within { IfOk result (λ n. n ≤ length buffer.old) }
    ensures bytes { IfOk result (λ n. Consumes (R.remaining input.old) (R.remaining input.new) (take n buffer.new)) }
    ensures end { IfOk result (λ n. n < length buffer.old → IsAtEnd (R.remaining input.new)) }
{
    let mut filled = 0;
    // A `while`: a read brings as many bytes as it likes.
    while filled < buffer.len() {
        let n = input.read(&mut buffer[filled..])?;
        if n == 0 {
            return Ok(filled);
        }
        filled += n;
    }
    Ok(filled)
}

/// Passes on the first bytes of a line, as many as the call that made it says, and none where it was refused.
pub fn pass_on<W: Write>(out: &mut W, line: &[u8], made: Result<usize, Refusal>) -> io::Result<()>
    ensures { OnOk result (Appends (W.contents out.old) (W.contents out.new) (passed line.now made)) }
{
    match made {
        Ok(length) => out.write_all(&line[..length.min(line.len())]),
        Err(_) => Ok(()),
    }
}

// The two calls below differ in the line that is made; one function for both would take its maker as a closure.

/// Writes the line of a refused sheet.
pub fn refuse<W: Write>(out: &mut W, refusal: SheetRefusal) -> io::Result<()>
    ensures { OnOk result (Appends (W.contents out.old) (W.contents out.new) (refused_text refusal)) }
{
    let mut line = [0u8; 64];
    let made = refused_line(&mut line, refusal);
    pass_on(out, &line, made)
}

/// Writes the line of the judge's answer on the kept visits.
pub fn stand<W: Write>(out: &mut W, judged: Result<Judgement, Refusal>) -> io::Result<()>
    ensures { OnOk result (Appends (W.contents out.old) (W.contents out.new) (stands_text judged)) }
{
    let mut line = [0u8; 64];
    let made = stands_line(&mut line, judged);
    pass_on(out, &line, made)
}
