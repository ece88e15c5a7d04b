// Filling a flags theory.
ghost use Rattle.std.specs.Prelude.{◌≡◌};
ghost use Rattle.names.specs.Texts.{text_of};
ghost use Rattle.flags.specs.Filling.{flag_number, one_flag, fresh_flags, seen_flags, started, flag_answer, flag_leaves, atom_answer, atom_leaves};
ghost use Rattle.flags.specs.Model.{flags_of};

use super::flags::Flags;
use arrayvec::ArrayVec;
use names::{Name, Roster};
use refusal::FillRefusal;

impl Flags {
    // One flag, and no atom.
    fn of(name: Name) -> Flags
        ensures { flags_of result ≡ one_flag (text_of name) }
    {
        Flags {
            names: Roster::of(name),
            atoms: ArrayVec::new(),
        }
    }

    /// One flag, named `a`, and no atom.
    pub fn fresh() -> Flags
        ensures { flags_of result ≡ fresh_flags }
    {
        Flags::of(Name::new(b"a").unwrap())
    }

    /// One flag with this name, and no atom.
    ///
    /// Errors: `Variable` where the text is no name.
    pub fn with_flag(text: &[u8]) -> Result<Flags, FillRefusal>
        ensures { seen_flags result ≡ started text.now }
    {
        Name::new(text).map(Flags::of).ok_or(FillRefusal::Variable)
    }

    /// Adds a flag with this name, as the next bit of a code.
    ///
    /// Errors: `Variable` where the text is no name, the name is taken, or 12 flags stand; nothing is changed.
    pub fn add_flag(&mut self, text: &[u8]) -> Result<(), FillRefusal>
        ensures answer { result ≡ flag_answer (flags_of self.old) text.now }
        ensures after { flags_of self.new ≡ flag_leaves (flags_of self.old) text.now }
    {
        let name = Name::new(text).ok_or(FillRefusal::Variable)?;
        self.names.add(name).ok_or(FillRefusal::Variable)?;
        Ok(())
    }

    // The number of the flag with a name; here and in `numbers` the roster's number takes the width that the theory keeps.
    fn flag_number(&self, text: &[u8]) -> Option<u8>
        ensures { result ≡ flag_number text.now (flags_of self.now).names }
    {
        let number = self.names.find(text)?;
        Some(number as u8)
    }

    /// Adds an atom that holds where the flag with this name is set.
    ///
    /// Errors: `Atom` where no flag has this name, or 32 atoms stand; nothing is changed.
    pub fn add_atom(&mut self, text: &[u8]) -> Result<(), FillRefusal>
        ensures answer { result ≡ atom_answer (flags_of self.old) text.now }
        ensures after { flags_of self.new ≡ atom_leaves (flags_of self.old) text.now }
    {
        let flag = self.flag_number(text).ok_or(FillRefusal::Atom)?;
        self.atoms.try_push(flag).map_err(|_| FillRefusal::Atom)
    }
}
