// Whether the kept visits can be finished.
ghost use Rattle.std.specs.Prelude.{◌≡◌, length};
ghost use Rattle.ltlf.specs.Contents.{book_contents};
ghost use Rattle.search.specs.Calls.{RowsAfter, HistoryAfter};
ghost use Rattle.record.specs.Calls.{record_model};
ghost use Rattle.household.specs.Calls.{question_answer, question_of};
ghost use Rattle.household.specs.Questions.{Means};

use crate::check::counts_agree;
use intern::Cell;
use ltlf::Book;
use record::Record;
use refusal::Refusal;
use search::{Outcome, Row, search};
use theory::Theory;

/// Whether some history begins with the kept visits and meets the book; under `can` it shows a shortest one.
///
/// The first rows take the counted positions, each once, or as many as there are rows; under `can` the history fills the
/// first entries. Later rows and all other entries stay.
///
/// Errors: 7 where the counts of record, book and theory are not all the same, else 8 for a visit list shorter than the kept
/// count or a kept entry that is no code, else 9 for over 65,536 rows or a history list shorter than the rows; rows and
/// history are unchanged.
pub fn question<T: Theory>(
    record: &Record,
    book: &Book,
    theory: &T,
    visits: &[u16],
    rows: &mut [Cell<Row>],
    history: &mut [u16],
) -> Result<Outcome, Refusal>
    ensures answer { result ≡ question_answer (record_model «record».now) (book_contents book.now) (T.Theory.meaning theory.now) visits.now (length rows.old) (length history.old) }
    ensures rows { RowsAfter (question_of (record_model «record».now) (book_contents book.now) (T.Theory.meaning theory.now) visits.now) rows.old rows.new result }
    ensures history { HistoryAfter (question_of (record_model «record».now) (book_contents book.now) (T.Theory.meaning theory.now) visits.now) history.old history.new result }
    ensures means { Means (question_of (record_model «record».now) (book_contents book.now) (T.Theory.meaning theory.now) visits.now) (length rows.old) result rows.new history.new }
{
    if !counts_agree(record, book, theory) {
        return Err(Refusal::CountsDiffer);
    }
    let kept = record.kept();
    let visits = visits.get(..kept).ok_or(Refusal::BadVisitList)?;
    search(theory, book, visits, rows, history)
}
