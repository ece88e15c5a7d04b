// What the lines of a flags sheet fill.
ghost use Rattle.std.specs.Prelude.{◌≡◌, ℕ, ◌+◌, ◌*◌, ◌^◌, ◌<◌, ◌≤◌, refl};
ghost use Rattle.items.specs.Lines.{text_seen};
ghost use Rattle.items.specs.Names.{name_read};
ghost use Rattle.flags.specs.Model.{flags_of};
ghost use Rattle.sheet_text.specs.Held.{flags, only};
ghost use Rattle.sheet_text.specs.Notes.{code_below, value_alone, values_read};

use super::filled::Filled;
use super::heading::Heading;
use flags::Flags;
use items::{natural, read_name, space};

/// The name that is all of a text.
fn only_name(text: &[u8]) -> Option<&[u8]>
    ensures { text_seen result ≡ only (name_read text.now) }
{
    read_name(text)?.alone()
}

/// The code that a single value writes.
fn value(text: &[u8]) -> Option<u16>
    ensures read { result ≡ value_alone text.now }
    ensures below { code_below 1 result }
{
    let bit = natural(text, 1)?.alone()?;
    Some(bit as u16)
}

/// The code that the values of `flags` flags write, the first the lowest bit.
// A recursion that falls by a flag: the first value is the lowest bit, so the others come first.
fn values(text: &[u8], flags: u8) -> Option<u16>
    requires { flags ≤ 12 }
    ensures read { result ≡ values_read flags text.now }
    ensures below { code_below flags result }
{
    if flags == 0 {
        return None;
    }
    if flags == 1 {
        return value(text);
    }
    let bit = natural(text, 1)?;
    let others = space(bit.rest)?;
    let code = values(others, flags - 1)?;
    Some(bit.value as u16 + 2 * code)
}

impl Filled for Flags {
    ghost held = { λ t. flags (flags_of t) };

    fn heading(&self) -> Heading {
        Heading::Flags
    }

    fn begin(&mut self, text: &[u8]) -> Option<()> {
        *self = Flags::with_flag(only_name(text)?).ok()?;
        Some(())
    }

    // The two below differ in the theory's own call.
    fn put_variable(&mut self, text: &[u8]) -> Option<()> {
        self.add_flag(only_name(text)?).ok()
    }

    fn put_atom(&mut self, text: &[u8]) -> Option<()> {
        self.add_atom(only_name(text)?).ok()
    }

    fn note(&self, line: &[u8]) -> Option<u16> {
        match line {
            [b'n', b' ', rest @ ..] => values(rest, self.flag_count()),
            _ => None,
        }
    }

    ghost meant = { λ t. refl };
}
