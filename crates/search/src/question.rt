// The public call.
ghost use Rattle.std.specs.Prelude.{◌≡◌, length};
ghost use Rattle.ltlf.specs.Contents.{book_contents};
ghost use Rattle.search.specs.Calls.{search_check, search_answer, RowsAfter, HistoryAfter};
ghost use Rattle.search.specs.Questions.{asked};

use crate::asked::Asked;
use crate::explore::explore;
use crate::{Outcome, Row};
use intern::Cell;
use judge::{all_codes, same_counts};
use ltlf::Book;
use refusal::Refusal;
use successors::NextLabel;
use theory::Theory;

/// Checks that a question can be searched.
///
/// Errors: those of `search`.
fn check<T: Theory>(
    theory: &T,
    book: &Book,
    kept: &[u16],
    rows: usize,
    entries: usize,
) -> Result<(), Refusal>
    ensures { result ≡ search_check (T.Theory.meaning theory.now) (book_contents book.now) kept.now rows entries }
{
    if book.atom_count() > 32 {
        return Err(Refusal::CountsOutOfRange);
    }
    if !same_counts(theory, book) {
        return Err(Refusal::CountsDiffer);
    }
    if kept.len() > 65_536 {
        return Err(Refusal::BadVisitList);
    }
    if !all_codes(theory.code_count(), kept) {
        return Err(Refusal::BadVisitList);
    }
    if rows > 65_536 {
        return Err(Refusal::BadBuffer);
    }
    if entries < rows {
        return Err(Refusal::BadBuffer);
    }
    Ok(())
}

/// Answers whether some history begins with the kept visits and meets the book, and shows a shortest one.
///
/// The first rows take the counted positions, each once, or as many as there are rows; under `can` the history fills the
/// first entries. Later rows and all other entries stay.
///
/// Errors: 1 for a book of over 32 atoms, which no draft takes, else 7 where the counts of codes or atoms of book and theory
/// differ, else 8 for over 65,536 kept visits or one that is no code, else 9 for over 65,536 rows or a history list shorter
/// than the rows; rows and history are unchanged.
pub fn search<T: Theory>(
    theory: &T,
    book: &Book,
    kept: &[u16],
    rows: &mut [Cell<Row>],
    history: &mut [u16],
) -> Result<Outcome, Refusal>
    ensures answer { result ≡ search_answer (T.Theory.meaning theory.now) (book_contents book.now) kept.now (length rows.old) (length history.old) }
    ensures rows { RowsAfter (asked (T.Theory.meaning theory.now) (book_contents book.now) kept.now) rows.old rows.new result }
    ensures history { HistoryAfter (asked (T.Theory.meaning theory.now) (book_contents book.now) kept.now) history.old history.new result }
{
    check(theory, book, kept, rows.len(), history.len())?;
    let mut labels = [Cell::new(NextLabel { formulas: 0 }); 65_536];
    let question = Asked { theory, book, kept };
    Ok(explore(&question, rows, history, &mut labels))
}
