// Whether the kept visits meet a book.
ghost use Rattle.ltlf.specs.Contents.{book_contents};
ghost use Rattle.record.specs.Calls.{record_model};
ghost use Rattle.household.specs.Calls.{Stood};

use crate::check::counts_agree;
use judge::{Judgement, judge};
use ltlf::Book;
use record::Record;
use refusal::Refusal;
use theory::Theory;

// Record, book, theory and visits are four arguments, as in `question`: a struct would keep the visit list lent between calls.

/// Whether the kept visits, as a whole history, meet the book.
///
/// Errors: 6 with nothing kept, else 7 where the counts of record, book and theory are not all the same, else 8 for a visit
/// list shorter than the kept count or a kept entry that is no code.
pub fn stands<T: Theory>(
    record: &Record,
    book: &Book,
    theory: &T,
    visits: &[u16],
) -> Result<Judgement, Refusal>
    ensures { Stood (record_model «record».now) (book_contents book.now) (T.Theory.meaning theory.now) visits.now result }
{
    let kept = record.kept();
    if kept == 0 {
        return Err(Refusal::NothingKept);
    }
    if !counts_agree(record, book, theory) {
        return Err(Refusal::CountsDiffer);
    }
    let visits = visits.get(..kept).ok_or(Refusal::BadVisitList)?;
    judge(theory, book, visits)
}
