// A whole sheet: its bytes, its trailer, and the three sections that the trailer points to.
ghost use Rattle.std.specs.Prelude.{◌≡◌, ℕ, ◌-◌, ◌<◌, ◌≤◌, length};
ghost use Rattle.ltlf.specs.Contents.{draft_contents};
ghost use Rattle.flags.specs.Model.{flags_of};
ghost use Rattle.numbers.specs.Model.{numbers_of};
ghost use Rattle.sheet_text.specs.Sheets.{sheet_byte, sheet_bytes, passes_as_text, after, settled, sheet_read};

use super::heading::{Heading, Sheet};
use super::sections::read_sections;
use flags::Flags;
use items::{last_line, split_line, trailer_of};
use ltlf::Draft;
use numbers::Numbers;
use refusal::SheetRefusal;

/// Whether a byte may stand in a sheet.
fn is_sheet_byte(byte: u8) -> bool
    ensures { result ≡ sheet_byte byte }
{
    matches!(byte, b'\n' | b' '..=b'~')
}

/// Whether all bytes may stand in a sheet.
fn are_sheet_bytes(bytes: &[u8]) -> bool
    ensures { result ≡ sheet_bytes bytes.now }
{
    bytes.iter().all(|byte| is_sheet_byte(*byte))
}

/// Whether a text has the size, the bytes and the last byte of a sheet.
fn is_sheet_text(bytes: &[u8]) -> bool
    ensures { result ≡ passes_as_text bytes.now }
{
    1 <= bytes.len()
        && bytes.len() <= 65536
        && are_sheet_bytes(bytes)
        && bytes[bytes.len() - 1] == b'\n'
}

/// Reads a sheet, and leaves anything in the draft, the flags and the numbers where it is refused.
// What is lent stays apart: the draft is sealed, the theory kept and the visit list written on by other calls.
fn read_text(
    bytes: &[u8],
    draft: &mut Draft,
    flags: &mut Flags,
    numbers: &mut Numbers,
    visits: &mut [u16],
) -> Result<Sheet, SheetRefusal>
    ensures { settled result (draft_contents draft.new) (flags_of flags.new) (numbers_of numbers.new) visits.new ≡ sheet_read bytes.now visits.old }
{
    if !is_sheet_text(bytes) {
        return Err(SheetRefusal::Bytes);
    }
    let own = last_line(bytes);
    let trailer = trailer_of(bytes).ok_or(SheetRefusal::Trailer(own))?;
    let heading = Heading::of(split_line(bytes).value).ok_or(SheetRefusal::Opening(0))?;
    *flags = Flags::fresh();
    *numbers = Numbers::fresh();
    // The one choice by heading: below it the theory's own calls differ.
    match heading {
        Heading::Flags => read_sections(bytes, own, trailer, draft, flags, visits),
        Heading::Numbers => read_sections(bytes, own, trailer, draft, numbers, visits),
    }
}

/// Reads a sheet: fills the draft, the theory of its heading and the first entries of the visit list, and returns the
/// heading and the number of notes; the other theory is fresh, and the other entries stay.
///
/// Errors: 10 for wrong bytes, 11 for a wrong trailer, and 12, 13 or 14 for the first wrong line, before the rules, of the
/// rules or of the notes; the draft is then empty with both counts 0, both theories are fresh, and the visit list is
/// unchanged.
pub fn read_sheet(
    bytes: &[u8],
    draft: &mut Draft,
    flags: &mut Flags,
    numbers: &mut Numbers,
    visits: &mut [u16],
) -> Result<Sheet, SheetRefusal>
    ensures { after result (draft_contents draft.new) (flags_of flags.new) (numbers_of numbers.new) visits.new ≡ sheet_read bytes.now visits.old }
{
    let answer = read_text(bytes, draft, flags, numbers, visits);
    if answer.is_err() {
        *draft = Draft::new();
        *flags = Flags::fresh();
        *numbers = Numbers::fresh();
    }
    answer
}
