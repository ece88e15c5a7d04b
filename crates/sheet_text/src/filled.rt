// A theory that the lines of a sheet fill.
ghost use Rattle.std.specs.Prelude.{◌≡◌};
ghost use Rattle.sheet_text.specs.Lines.{left_by};
ghost use Rattle.sheet_text.specs.Held.{Held, heading_in, meaning_in, begun, variable_added, atom_added, note_by};

use super::heading::Heading;
use theory::Theory;

/// A theory that the lines of a sheet fill.
pub(crate) trait Filled: Theory {
    // What the theory holds.
    ghost held: { Self → Held };

    /// The heading of the sheets that fill such a theory.
    fn heading(&self) -> Heading
        ensures { result ≡ heading_in (held self.now) };

    /// Makes the theory anew with the variable that a text declares; none where it is refused.
    fn begin(&mut self, text: &[u8]) -> Option<()>
        ensures { left_by result (held self.new) ≡ begun (held self.old) text.now };

    /// Adds the variable that a text declares; none where it is refused.
    fn put_variable(&mut self, text: &[u8]) -> Option<()>
        ensures { left_by result (held self.new) ≡ variable_added (held self.old) text.now };

    /// Adds the atom that a text declares; none where it is refused.
    fn put_atom(&mut self, text: &[u8]) -> Option<()>
        ensures { left_by result (held self.new) ≡ atom_added (held self.old) text.now };

    /// The code of a line that is a note.
    fn note(&self, line: &[u8]) -> Option<u16>
        ensures { result ≡ note_by (held self.now) line.now };

    // It means what its contents mean.
    ghost meant: { (t : Self) → Self.meaning t ≡ meaning_in (held t) };
}
