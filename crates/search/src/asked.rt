// The question of a theory, a book and kept visits.
ghost use Rattle.std.specs.Prelude.{◌≡◌, suc, pred, ◌<◌, ◌≤◌, min, length};
ghost use Rattle.ltlf.specs.Contents.{book_contents};
ghost use Rattle.search.specs.Questions.{asked, Ready};

use crate::Row;
use crate::expand::expand_codes;
use crate::facts::truth_at;
use crate::rules::rules_label;
use crate::space::Space;
use crate::starts::enter_starts;
use crate::visits::{last_place, visits_at};
use intern::Cell;
use ltlf::Book;
use successors::NextLabel;
use theory::Theory;
use viability::Visit;

/// What is asked: which histories begin with the kept visits and meet the book.
#[derive(Drop)]
pub(crate) struct Asked<'t, 'b, 'k, T: Theory> {
    pub(crate) theory: &'t T,
    pub(crate) book: &'b Book,
    pub(crate) kept: &'k [u16],
    ghost ready: { Ready (asked (T.Theory.meaning theory.now) (book_contents book.now) kept.now) },
}

/// The place of the next visit: one further, up to the last place.
fn next_place(kept: &[u16], place: u16) -> u16
    requires { length kept.now ≤ 65536 }
    ensures { result ≡ min (suc place) (pred (length kept.now)) }
{
    (usize::from(place) + 1).min(last_place(kept)) as u16
}

impl<T: Theory> Space for Asked<'_, '_, '_, T> {
    ghost question = { λ s. asked (T.Theory.meaning s.theory.now) (book_contents s.book.now) s.kept.now };

    ghost ready = { λ s. s.ready };

    fn finish(&self, row: Row) -> bool {
        if usize::from(row.place) != last_place(self.kept) {
            return false;
        }
        let truth = truth_at(self.theory, self.book.atom_count(), row.code, None);
        let visit = Visit {
            book: self.book,
            truth,
            last: true,
        };
        visit.some_sound(row.label)
    }

    fn begin(&self, rows: &mut [Cell<Row>]) -> Option<usize> {
        let visits = visits_at(self.theory.code_count(), self.kept, 0);
        enter_starts(rows, rules_label(self.book), visits)
    }

    fn expand(
        &self,
        row: Row,
        from: u32,
        rows: &mut [Cell<Row>],
        filled: usize,
        labels: &mut [Cell<NextLabel>],
    ) -> Option<usize> {
        let visits = visits_at(self.theory.code_count(), self.kept, row.place as usize + 1);
        let visit = Row {
            place: next_place(self.kept, row.place),
            code: 0,
            label: 0,
            from,
        };
        expand_codes(self, row, visit, visits, rows, filled, labels)
    }
}
