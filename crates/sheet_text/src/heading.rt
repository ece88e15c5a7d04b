/// What a sheet is about.
#[derive(Clone, Copy, PartialEq, Eq, Debug, Drop)]
pub enum Heading {
    Flags,
    Numbers,
}

impl Heading {
    ghost use Rattle.std.specs.Prelude.{◌≡◌, [], ◌∷◌};
    ghost use Rattle.sheet_text.specs.Opening.{heading_of};

    /// The heading that a line is.
    // No `TryFrom`: a line that is no heading is an error only where one is wanted.
    pub(crate) fn of(line: &[u8]) -> Option<Heading>
        ensures { result ≡ heading_of line.now }
    {
        match line {
            [b'f', b'l', b'a', b'g', b's'] => Some(Heading::Flags),
            [b'n', b'u', b'm', b'b', b'e', b'r', b's'] => Some(Heading::Numbers),
            _ => None,
        }
    }
}

/// An accepted sheet: its heading, and how many notes it has.
#[derive(Clone, Copy, PartialEq, Eq, Debug, Drop)]
pub struct Sheet {
    pub heading: Heading,
    pub notes: usize,
}
