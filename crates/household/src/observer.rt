// Who is told what came of each call of a run.
ghost use Rattle.household.specs.Law.{Event, noted, struck, answered};

use intern::Cell;
use refusal::Refusal;
use search::{Outcome, Row};

/// Is told what came of each call, in the order of the calls.
pub trait Observer {
    // What is so of it before and after it has heard an event.
    ghost hears: { Self → Event → Self → Type 0 };

    /// What came of a note.
    fn noted(&mut self, res: Result<(), Refusal>)
        ensures { hears self.old (noted res) self.new };

    /// What came of a strike.
    fn struck(&mut self, res: Result<(), Refusal>)
        ensures { hears self.old (struck res) self.new };

    /// What came of a question, with the rows and the history list that it was offered.
    fn answered(&mut self, res: Result<Outcome, Refusal>, rows: &[Cell<Row>], history: &[u16])
        ensures { hears self.old (answered res rows.now history.now) self.new };
}
