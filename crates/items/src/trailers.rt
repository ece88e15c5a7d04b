// The trailer, the last line of a sheet: `end`, and where the rules and the notes begin.
ghost use Rattle.std.specs.Prelude.{◌≡◌, ℕ, ◌+◌, ◌-◌, ◌<◌, ◌≤◌, [], ◌∷◌, length};
ghost use Rattle.items.specs.Lines.{text_seen, behind};
ghost use Rattle.items.specs.Trailers.{trailer_seen, trailer_read, trailer_at, trailer_in, points_back};

use super::lines::{after, last_line, space};
use super::numbers::natural;

/// Where the rules and the notes begin.
#[derive(Clone, Copy, Drop)]
pub struct Trailer {
    pub rules: usize,
    pub notes: usize,
}

/// The trailer that a line writes.
fn read_trailer(line: &[u8]) -> Option<Trailer>
    ensures { trailer_seen result ≡ trailer_read line.now }
{
    let first = after(line, b"end ")?;
    let rules = natural(first, 65536)?;
    let second = space(rules.rest)?;
    let notes = natural(second, 65536)?.alone()?;
    Some(Trailer {
        rules: rules.value as usize,
        notes: notes as usize,
    })
}

impl Trailer {
    /// Whether rules and notes begin at starts of lines, in order and not past `own`.
    fn points_back(self, sheet: &[u8], own: usize) -> bool
        requires { own < length sheet.now }
        ensures { result ≡ points_back sheet.now own self.rules self.notes }
    {
        1 <= self.rules
            && self.rules <= self.notes
            && self.notes <= own
            && sheet[self.rules - 1] == b'\n'
            && sheet[self.notes - 1] == b'\n'
    }
}

/// The trailer that stands at `own`, if it points back to starts of lines.
fn trailer_from(sheet: &[u8], own: usize) -> Option<Trailer>
    requires { own < length sheet.now }
    ensures { trailer_seen result ≡ trailer_at sheet.now own }
{
    read_trailer(&sheet[own..sheet.len() - 1]).filter(|trailer| trailer.points_back(sheet, own))
}

/// The trailer of a sheet, if it points back to starts of lines.
pub fn trailer_of(sheet: &[u8]) -> Option<Trailer>
    ensures { trailer_seen result ≡ trailer_in sheet.now }
{
    if sheet.is_empty() {
        return None;
    }
    trailer_from(sheet, last_line(sheet))
}
