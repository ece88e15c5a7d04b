// Names of 1 to 8 small letters.
ghost use Rattle.std.specs.Prelude.{◌≡◌, ℕ, ◌+◌, ◌-◌, ◌<◌, ◌≤◌, length, take, drop};
ghost use Rattle.items.specs.Names.{letters_in, name_read, name_seen, NameLaw};

use super::reads::Read;

/// How many small letters stand in front.
fn lower_letters(text: &[u8]) -> usize
    ensures count { result ≡ letters_in text.now }
    ensures within { result ≤ length text.now }
{
    text.iter()
        .position(|byte| !byte.is_ascii_lowercase())
        .unwrap_or(text.len())
}

/// The name in front, of 1 to 8 small letters.
pub fn read_name(text: &[u8]) -> Option<Read<&[u8]>>
    ensures { name_seen result ≡ name_read text.now }
{
    let n = lower_letters(text);
    // An `if`: both parts come from one cut, which needs the length tested first.
    if 1 <= n && n <= 8 {
        let (value, rest) = text.split_at(n);
        Some(Read { value, rest })
    } else {
        None
    }
}

/// A name is read exactly where one is written.
pub fn name_law()
    ensures { NameLaw }
{}
