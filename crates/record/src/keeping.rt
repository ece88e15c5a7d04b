// Opening a record, opening a sync, and striking.
ghost use Rattle.std.specs.Prelude.{◌≡◌};
ghost use Rattle.ltlf.specs.Contents.{book_contents};
ghost use Rattle.record.specs.Calls.{record_model, sync_model, opened, sync_opened, strike_answer, strike_leaves};

use super::record::Record;
use super::sync::Sync;
use ltlf::Book;
use refusal::Refusal;

impl Record {
    /// Opens a record on a book: it has the book's counts and keeps no visit.
    pub fn open(book: &Book) -> Record
        ensures { record_model result ≡ opened (book_contents book.now) }
    {
        Record {
            codes: book.code_count(),
            atoms: book.atom_count(),
            kept: 0,
        }
    }

    /// Opens a sync, which takes the record until it is confirmed or has failed.
    pub fn sync(self) -> Sync
        ensures { sync_model result ≡ sync_opened (record_model self) }
    {
        let held = self.kept;
        Sync { taken: self, held }
    }

    /// Takes the last kept visit off; no entry of the visit list is written.
    ///
    /// Errors: 6 with nothing kept; the record is unchanged.
    pub fn strike(&mut self) -> Result<(), Refusal>
        ensures answer { result ≡ strike_answer (record_model self.old) }
        ensures after { record_model self.new ≡ strike_leaves (record_model self.old) }
    {
        if self.kept == 0 {
            return Err(Refusal::NothingKept);
        }
        self.kept -= 1;
        Ok(())
    }
}
