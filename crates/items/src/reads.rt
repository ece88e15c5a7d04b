// What every reader gives: a value, and the text that is left.
ghost use Rattle.std.specs.Prelude.{◌≡◌};
ghost use Rattle.items.specs.Reads.{whole};

/// A value that was read, and what follows it.
// No `map`: where a value becomes another, a `?` stands between, which a closure could not hand on.
#[derive(Clone, Copy, Drop)]
pub struct Read<'a, T> {
    pub value: T,
    pub rest: &'a [u8],
}

impl<T: Drop> Read<'_, T> {
    /// The value, where nothing follows it.
    pub fn alone(self) -> Option<T>
        ensures { result ≡ whole self.entry.value self.entry.rest.now }
    {
        match self.rest {
            [] => Some(self.value),
            _ => None,
        }
    }
}
