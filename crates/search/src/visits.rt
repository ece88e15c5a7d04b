// What may stand at a place of a history: the kept visit there, or any code.
ghost use Rattle.std.specs.Prelude.{◌≡◌, ℕ, pred, ◌<◌, ◌≤◌, length, slice_index};
ghost use Rattle.search.specs.Questions.{Allowed};

use std::ops::Range;

/// The codes that may stand at a place.
pub(crate) fn visits_at(codes: u16, kept: &[u16], place: usize) -> Range<u16>
    requires { (i : ℕ) → i < length kept.now → slice_index kept.now i < codes }
    ensures { Allowed codes kept.now place result }
{
    match kept.get(place) {
        Some(code) => *code..*code + 1,
        None => 0..codes,
    }
}

/// The last place: the number of kept visits less one, or 0 where nothing is kept.
pub(crate) fn last_place(kept: &[u16]) -> usize
    ensures { result ≡ pred (length kept.now) }
{
    kept.len().saturating_sub(1)
}
