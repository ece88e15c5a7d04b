// A drawn run of calls on one record and its visit list.
ghost use Rattle.std.specs.Prelude.{◌≡◌, ◌≤◌, true, [], ◌∷◌, map, length, take};
ghost use Rattle.ltlf.specs.Contents.{book_contents};
ghost use Rattle.judge.specs.Judging.{all_codes};
ghost use Rattle.record.specs.Calls.{record_model};
ghost use Rattle.household.specs.Law.{drawn, Told, HouseholdLaw};
ghost use Rattle.household.specs.Plain.{sync, asked};
ghost use Rattle.household.specs.Runs.{Stepped};

use crate::asking::question;
use crate::call::Call;
use crate::observer::Observer;
use intern::Cell;
use ltlf::Book;
use record::Record;
use search::Row;
use theory::Theory;

/// One sync: its notes and its ending.
fn play_sync<O: Observer>(
    record: Record,
    visits: &mut [u16],
    notes: &[u16],
    confirmed: bool,
    observer: &mut O,
) -> Record
    requires { (record_model «record»).kept ≤ length visits.old }
    ensures { Stepped O.Observer.hears (record_model «record»).codes (record_model «record»).atoms (take (record_model «record»).kept visits.old) (sync notes.now confirmed) (length visits.old) (record_model result) visits.new observer.old observer.new }
{
    let mut sync = record.sync();
    for code in notes {
        let result = sync.note(visits, *code);
        observer.noted(result);
    }
    if confirmed {
        sync.confirm()
    } else {
        sync.fail()
    }
}

/// One question, with what it leaves in the rows and the history list.
fn ask<T: Theory, O: Observer>(
    record: &Record,
    book: &Book,
    theory: &T,
    visits: &[u16],
    rows: &mut [Cell<Row>],
    history: &mut [u16],
    observer: &mut O,
)
    requires within { (record_model «record».now).kept ≤ length visits.now }
    requires codes { all_codes (record_model «record».now).codes (take (record_model «record».now).kept visits.now) ≡ true }
    ensures { Told O.Observer.hears (record_model «record».now).codes (record_model «record».now).atoms (asked (record { book = book_contents book.entry.now; theory = T.Theory.meaning theory.now; rows = length rows.old; entries = length history.old }) (take (record_model «record».now).kept visits.now) ∷ []) observer.old observer.new }
{
    let result = question(record, book, theory, visits, rows, history);
    observer.answered(result, rows, history);
}

/// One call of the draw.
// What is lent stays a parameter each, with its facts: a struct of `&mut` would be taken apart again for every call.
fn step<T: Theory, O: Observer>(
    record: Record,
    call: &Call<T>,
    visits: &mut [u16],
    rows: &mut [Cell<Row>],
    history: &mut [u16],
    observer: &mut O,
) -> Record
    requires within { (record_model «record»).kept ≤ length visits.old }
    requires codes { all_codes (record_model «record»).codes (take (record_model «record»).kept visits.old) ≡ true }
    ensures { Stepped O.Observer.hears (record_model «record»).codes (record_model «record»).atoms (take (record_model «record»).kept visits.old) (drawn T.Theory.meaning (length rows.old) (length history.old) call.now) (length visits.old) (record_model result) visits.new observer.old observer.new }
{
    let mut record = record;
    // A call is data of a draw, taken apart here alone.
    match call {
        Call::Sync { notes, confirmed } => play_sync(record, visits, *notes, *confirmed, observer),
        Call::Strike => {
            let result = record.strike();
            observer.struck(result);
            record
        }
        Call::Question {
            book,
            theory,
            rows: offered,
            entries,
        } => {
            let row_end = (*offered).min(rows.len());
            let entry_end = (*entries).min(history.len());
            ask(
                &record,
                *book,
                *theory,
                visits,
                &mut rows[..row_end],
                &mut history[..entry_end],
                observer,
            );
            record
        }
    }
}

/// Opens a record on a book, applies a draw of calls to it and to its visit list, and gives the record back.
///
/// The observer is told what came of each call. A question is offered as many rows and history entries as were drawn, and at
/// most as many as `rows` and `history` have.
pub fn replay<T: Theory, O: Observer>(
    book: &Book,
    calls: &[Call<T>],
    visits: &mut [u16],
    rows: &mut [Cell<Row>],
    history: &mut [u16],
    observer: &mut O,
) -> Record
    ensures { HouseholdLaw O.Observer.hears (book_contents book.now) (length visits.old) (map (drawn T.Theory.meaning (length rows.old) (length history.old)) calls.now) observer.old observer.new (record_model result) visits.new }
{
    let mut record = Record::open(book);
    for call in calls {
        record = step(record, call, visits, rows, history, observer);
    }
    record
}
