// The judge: one pass for each visit, from the last to the first.
ghost use Rattle.std.specs.Prelude.{◌≡◌, Ok};
ghost use Rattle.ltlf.specs.Contents.{book_contents};
ghost use Rattle.judge.specs.Holding.{MeetsOrFails};
ghost use Rattle.judge.specs.Judging.{all_pass, all_codes, same_counts, judge_check, Judged};
ghost use Rattle.judge.specs.Marks.{marked, Marks};

use super::judgement::Judgement;
use super::pass::pass;
use ltlf::Book;
use masks::contains;
use refusal::Refusal;
use theory::Theory;

/// Whether every visit is one of `codes` codes.
pub fn all_codes(codes: u16, visits: &[u16]) -> bool
    ensures { result ≡ all_codes codes visits.now }
{
    visits.iter().all(|code| *code < codes)
}

// Theory, book and visits are three arguments here and in the crates above: each belongs to another owner, and a call borrows it once.

/// Whether theory and book have the same counts of codes and atoms.
pub fn same_counts<T: Theory>(theory: &T, book: &Book) -> bool
    ensures { result ≡ same_counts (T.Theory.meaning theory.now) (book_contents book.now) }
{
    book.code_count() == theory.code_count() && book.atom_count() == theory.atom_count()
}

/// Checks that there is a history to judge.
///
/// Errors: those of `judge`.
fn check<T: Theory>(theory: &T, book: &Book, visits: &[u16]) -> Result<(), Refusal>
    ensures { result ≡ judge_check (T.Theory.meaning theory.now) (book_contents book.now) visits.now }
{
    if visits.is_empty() {
        return Err(Refusal::NothingKept);
    }
    if !same_counts(theory, book) {
        return Err(Refusal::CountsDiffer);
    }
    if !all_codes(theory.code_count(), visits) {
        return Err(Refusal::BadVisitList);
    }
    Ok(())
}

/// The marks of the formulas that hold at the first visit.
fn first_marks<T: Theory>(theory: &T, book: &Book, visits: &[u16]) -> u64
    requires { judge_check (T.Theory.meaning theory.now) (book_contents book.now) visits.now ≡ Ok tt }
    ensures { Marks (T.Theory.meaning theory.now) (book_contents book.now) visits.now 0 result }
{
    let mut marks = 0;
    let mut next = None;
    for code in visits.iter().rev() {
        marks = pass(theory, book, *code, next, marks);
        next = Some(*code);
    }
    marks
}

/// Whether every rule is marked.
fn rules_marked(book: &Book, marks: u64) -> bool
    ensures { result ≡ all_pass (marked marks) (book_contents book.now).rules }
{
    book.rules().iter().all(|rule| contains(marks, *rule))
}

/// Decides whether `visits`, as a whole history, meets the book: whether every rule holds at the first visit.
///
/// Errors: 6 for no visit, else 7 where the counts of codes or atoms of book and theory differ, else 8 for a visit
/// that is no code.
pub fn judge<T: Theory>(theory: &T, book: &Book, visits: &[u16]) -> Result<Judgement, Refusal>
    ensures { Judged (T.Theory.meaning theory.now) (book_contents book.now) visits.now result }
{
    check(theory, book, visits)?;
    let marks = first_marks(theory, book, visits);
    if rules_marked(book, marks) {
        Ok(Judgement::Met)
    } else {
        Ok(Judgement::Unmet)
    }
}

/// Every history meets a book or fails it, and none does both.
pub fn histories_meet_or_fail()
    ensures { MeetsOrFails }
{}
