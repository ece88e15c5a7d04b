// What `stands` and `question` check alike.
ghost use Rattle.std.specs.Prelude.{◌≡◌};
ghost use Rattle.ltlf.specs.Contents.{book_contents};
ghost use Rattle.record.specs.Calls.{record_model};
ghost use Rattle.household.specs.Calls.{counts_agree};

use judge::same_counts;
use ltlf::Book;
use record::Record;
use theory::Theory;

/// Whether record, book and theory have the same counts of codes and atoms.
pub(crate) fn counts_agree<T: Theory>(record: &Record, book: &Book, theory: &T) -> bool
    ensures { result ≡ counts_agree (record_model «record».now) (book_contents book.now) (T.Theory.meaning theory.now) }
{
    let on_book = record.code_count() == book.code_count()
        && record.atom_count() == book.atom_count();
    on_book && same_counts(theory, book)
}
