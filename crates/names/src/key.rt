ghost use Rattle.std.specs.Prelude.{◌≡◌, slice_index};
ghost use Rattle.names.specs.Texts.{text_of, same_text, name_turn};
ghost use Rattle.names.specs.Same.{derived_is_same, same_itself, same_back, same_through, same_turns};
ghost use Rattle.std.proofs.Common.{◌∙◌};

use crate::Name;
use intern::Keyed;

impl Name {
    // The letter at a place, and 0 past the text.
    fn letter_at(&self, place: usize) -> u8
        ensures { result ≡ slice_index (text_of self.now) place }
    {
        self.text().get(place).copied().unwrap_or(0)
    }
}

impl Keyed for Name {
    ghost alike = { same_text };

    ghost turns = { name_turn };

    ghost decides = { λ x y b e. e ∙ derived_is_same x y };

    ghost reflexive = { same_itself };

    ghost symmetric = { same_back };

    ghost transitive = { same_through };

    ghost agree = { same_turns };

    fn turn(&self, depth: usize) -> bool {
        (self.letter_at(depth / 5 % 8) >> (depth % 5)) % 2 == 1
    }
}
