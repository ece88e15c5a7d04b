// The lines of notes.
ghost use Rattle.std.specs.Prelude.{◌≡◌, ℕ, ◌+◌, ◌<◌, ◌≤◌, min, length, drop};
ghost use Rattle.items.specs.Lines.{lines_of};
ghost use Rattle.sheet_text.specs.Held.{note_by};
ghost use Rattle.sheet_text.specs.Lines.{lines_left, placed_read};
ghost use Rattle.sheet_text.specs.Notes.{note_counted, codes_of, over, noted, notes_read};

use super::filled::Filled;
use super::lines::Lines;

/// The number of notes after one more line, if it is a note and there is room.
fn next_count<T: Filled>(theory: &T, line: &[u8], room: usize, count: usize) -> Option<usize>
    ensures { result ≡ note_counted (note_by (T.held theory.now)) room count line.now }
{
    theory.note(line)?;
    // An `if`: `then_some` would count before it tests.
    if count < room { Some(count + 1) } else { None }
}

/// The number of notes.
///
/// Errors: the place of the first line that is no note, or is past the room.
fn check_notes<T: Filled>(theory: &T, lines: Lines, room: usize) -> Result<usize, usize>
    ensures { result ≡ placed_read (note_counted (note_by (T.held theory.now)) room) (lines_left lines.entry) 0 }
{
    let mut count = 0;
    for (place, line) in lines {
        count = next_count(theory, line, room, count).ok_or(place)?;
    }
    Ok(count)
}

/// Writes the codes of lines into the first entries of the visit list.
fn write_notes<T: Filled>(theory: &T, lines: Lines, visits: &mut [u16])
    ensures { visits.new ≡ over (codes_of (note_by (T.held theory.now)) (lines_of (drop lines.entry.next lines.entry.text.now))) visits.old }
{
    let mut lines = lines;
    // No `zip`: of what is written through a zipped `iter_mut` a proof knows nothing.
    for entry in visits.iter_mut() {
        let Some((_, line)) = lines.next() else {
            return;
        };
        *entry = theory.note(line).unwrap_or(0);
    }
}

/// Reads the notes into the first entries of the visit list, and returns their number.
///
/// Errors: the place of the first wrong line; the list is unchanged.
pub(crate) fn read_notes<T: Filled>(
    theory: &T,
    lines: Lines,
    visits: &mut [u16],
) -> Result<usize, usize>
    ensures { noted result visits.new ≡ notes_read (note_by (T.held theory.now)) lines.entry.next (drop lines.entry.next lines.entry.text.now) visits.old }
{
    let count = check_notes(theory, lines, visits.len().min(1024))?;
    write_notes(theory, lines, visits);
    Ok(count)
}
