// Lines, each up to a line end, and what follows a word.
ghost use Rattle.std.specs.Prelude.{◌≡◌, ℕ, ◌+◌, ◌-◌, ◌<◌, ◌≤◌, [], ◌∷◌, length};
ghost use Rattle.items.specs.Lines.{Cut, last_start, text_seen, behind};

use super::reads::Read;

/// The first line of a text without its end, and what follows its end.
pub fn split_line(text: &[u8]) -> Read<&[u8]>
    ensures { Cut text.now result }
{
    match text.iter().position(|byte| *byte == b'\n') {
        Some(end) => Read {
            value: &text[..end],
            rest: &text[end + 1..],
        },
        None => Read {
            value: text,
            rest: &[],
        },
    }
}

/// The place of the last line of a text, whose last byte ends that line.
pub fn last_line(text: &[u8]) -> usize
    ensures place { result ≡ last_start text.now }
    ensures within { 0 < length text.now → result < length text.now }
{
    match text {
        [] => 0,
        [front @ .., _] => match front.iter().rposition(|byte| *byte == b'\n') {
            Some(end) => end + 1,
            None => 0,
        },
    }
}

/// What follows a word.
pub fn after<'a>(text: &'a [u8], word: &[u8]) -> Option<&'a [u8]>
    ensures { text_seen result ≡ behind word.now text.now }
{
    text.strip_prefix(word)
}

/// What follows a space.
pub fn space(text: &[u8]) -> Option<&[u8]>
    ensures { text_seen result ≡ behind (32 ∷ []) text.now }
{
    after(text, b" ")
}
