// The label of the rules, with which a search starts.
ghost use Rattle.ltlf.specs.Contents.{book_contents};
ghost use Rattle.search.specs.Questions.{HasRules};

use ltlf::Book;
use masks::with;

/// The label of the rules.
pub(crate) fn rules_label(book: &Book) -> u64
    ensures { HasRules (book_contents book.now) result }
{
    let mut label = 0;
    for rule in book.rules() {
        label = with(label, *rule);
    }
    label
}
