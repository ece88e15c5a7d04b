ghost use Rattle.std.specs.Prelude.{◌≡◌, ◌-◌, ◌≤◌, true, length, take, drop, replicate};
ghost use Rattle.names.specs.Letters.{all_letters};

/// A name: its first `len` letters; those past them are 0, so that names are equal where these fields are.
// An array with a length: a name is `Copy`, to stand in a `Cell`, and an `ArrayVec` is not.
#[derive(Clone, Copy, PartialEq, Eq, Drop)]
pub struct Name {
    pub(crate) letters: [u8; 8],
    pub(crate) len: u8,
    ghost whole: { length letters ≡ 8 },
    ghost some: { 1 ≤ len },
    ghost few: { len ≤ 8 },
    ghost lettered: { all_letters (take len letters) ≡ true },
    ghost blank: { drop len letters ≡ replicate (8 - len) 0 },
}
