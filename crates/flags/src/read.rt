// Reading a flags theory.
ghost use Rattle.std.specs.Prelude.{◌≡◌, length};
ghost use Rattle.flags.specs.Model.{flags_of, Within};

use super::flags::Flags;

impl Flags {
    /// The number of flags; every flags theory is within the limits.
    pub fn flag_count(&self) -> u8
        ensures answer { result ≡ length (flags_of self.now).names }
        ensures within { Within (flags_of self.now) }
    {
        self.names.count() as u8
    }
}
