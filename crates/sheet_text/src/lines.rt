// The lines of a section, each with the place where it stands.
ghost use Rattle.std.specs.Prelude.{◌≡◌, ℕ, ◌+◌, ◌-◌, ◌<◌, ◌≤◌, length, take};

use items::split_line;

/// The lines of a text from the place `next` on.
#[derive(Clone, Copy, Drop)]
pub(crate) struct Lines<'a> {
    pub(crate) text: &'a [u8],
    pub(crate) next: usize,
}

impl<'a> Lines<'a> {
    /// The lines of a text from one place up to another.
    pub(crate) fn between(text: &'a [u8], from: usize, to: usize) -> Lines<'a>
        ensures text { result.text.now ≡ take to text.now }
        ensures next { result.next ≡ from }
    {
        Lines {
            text: &text[..to.min(text.len())],
            next: from,
        }
    }
}

impl<'a> Iterator for Lines<'a> {
    ghost use Rattle.std.specs.Iterator.{YieldsFirstBy, item_count};
    ghost use Rattle.sheet_text.specs.Lines.{placed_line, lines_left};

    type Item = (usize, &'a [u8]);

    ghost next_gives = { YieldsFirstBy placed_line lines_left };

    ghost remaining = { item_count lines_left };

    fn next(&mut self) -> Option<(usize, &'a [u8])> {
        let place = self.next;
        if place >= self.text.len() {
            return None;
        }
        let line = split_line(&self.text[place..]).value;
        self.next = place + line.len() + 1;
        Some((place, line))
    }
}
