// Names that are kept, each found by its text.
ghost use Rattle.std.specs.Prelude.{◌≡◌, ◌≤◌, length};
ghost use Rattle.intern.specs.Index.{Indexed};
ghost use Rattle.names.specs.Texts.{same_text, name_turn};

use crate::Name;
use intern::{Cell, Slot, find, find_or_add};

/// At most `N` names, all different, indexed so that a name is found at once.
// An array with a count: find-or-add takes a lent slice and how much of it is filled, and an `ArrayVec` lends its filled part alone.
#[derive(Drop)]
pub struct Roster<const N: usize> {
    cells: [Cell<Name>; N],
    count: usize,
    ghost whole: { length cells ≡ N },
    ghost few: { count ≤ N },
    ghost indexed: { Indexed same_text name_turn cells count },
}

impl<const N: usize> Roster<N> {
    ghost use Rattle.std.specs.Prelude.{[], ◌∷◌, take};
    ghost use Rattle.std.specs.Str.{bytes_eq};
    ghost use Rattle.intern.specs.Index.{place};
    ghost use Rattle.names.specs.Texts.{text_of};
    ghost use Rattle.names.specs.Rosters.{texts, number_added, texts_added};

    /// One name, or none where there is no room.
    pub fn of(name: Name) -> Roster<N>
        ensures { texts result ≡ take N (text_of name ∷ []) }
    {
        Roster {
            cells: [Cell::new(name); N],
            count: N.min(1),
        }
    }

    /// How many names stand.
    pub fn count(&self) -> usize
        ensures { result ≡ length (texts self.now) }
    {
        self.count
    }

    /// The number of the name with this text.
    pub fn find(&self, text: &[u8]) -> Option<usize>
        ensures { result ≡ place bytes_eq text.now (texts self.now) }
    {
        find(&self.cells, self.count, Name::new(text)?)
    }

    /// Adds a name after the others, and answers its number; `None` where it stands already, or no room is left.
    pub fn add(&mut self, name: Name) -> Option<usize>
        ensures answer { result ≡ number_added N (texts self.old) (text_of name) }
        ensures after { texts self.new ≡ texts_added N (texts self.old) (text_of name) }
    {
        match find_or_add(&mut self.cells, self.count, name).ok()? {
            Slot::Found(_) => None,
            Slot::Added(number) => {
                self.count += 1;
                Some(number)
            }
        }
    }
}
