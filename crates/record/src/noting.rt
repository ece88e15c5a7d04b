// The calls of a sync.
ghost use Rattle.std.specs.Prelude.{◌≡◌};
ghost use Rattle.record.specs.Calls.{record_model, sync_model, confirmed, failed, note_answer, note_leaves, note_writes};

use super::record::Record;
use super::sync::Sync;
use refusal::Refusal;

/// The most visits that a record keeps.
const MOST_VISITS: usize = 1024;

impl Sync {
    /// Notes one visit: writes its code behind the visits that are held, and no other entry.
    ///
    /// Errors: 4 for a code that does not exist, else 5 past the list's end or past 1,024 visits; the sync stays open and is
    /// unchanged, and so is the list.
    pub fn note(&mut self, visits: &mut [u16], code: u16) -> Result<(), Refusal>
        ensures answer { result ≡ note_answer (sync_model self.old) visits.old code }
        ensures after { sync_model self.new ≡ note_leaves (sync_model self.old) visits.old code }
        ensures visits { visits.new ≡ note_writes (sync_model self.old) visits.old code }
    {
        if code >= self.taken.codes {
            return Err(Refusal::NoSuchCode);
        }
        let at = self.held;
        if at >= visits.len() || at >= MOST_VISITS {
            return Err(Refusal::ListFull);
        }
        visits[at] = code;
        self.held = at + 1;
        Ok(())
    }

    /// Ends the sync: gives the record back with the accepted notes kept.
    pub fn confirm(self) -> Record
        ensures { record_model result ≡ confirmed (sync_model self) }
    {
        let Sync { mut taken, held } = self;
        taken.kept = held;
        taken
    }

    /// Ends the sync: gives the record back as it was, with the old kept count.
    pub fn fail(self) -> Record
        ensures { record_model result ≡ failed (sync_model self) }
    {
        let Sync { taken, held: _ } = self;
        taken
    }
}
