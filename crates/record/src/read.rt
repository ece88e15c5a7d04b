// What can be read of a record.
ghost use Rattle.std.specs.Prelude.{◌≡◌, ◌≤◌};
ghost use Rattle.record.specs.Calls.{record_model};

use super::record::Record;

impl Record {
    /// The number of codes of the book that the record was opened on.
    pub fn code_count(&self) -> u16
        ensures { result ≡ (record_model self.now).codes }
    {
        self.codes
    }

    /// The number of atoms of the book that the record was opened on.
    pub fn atom_count(&self) -> u8
        ensures { result ≡ (record_model self.now).atoms }
    {
        self.atoms
    }

    /// The number of kept visits, at most 1,024.
    pub fn kept(&self) -> usize
        ensures value { result ≡ (record_model self.now).kept }
        ensures few { result ≤ 1024 }
    {
        self.kept
    }
}
