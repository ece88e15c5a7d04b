// Labels: sets of formula numbers below 64, as masks; what the tests of masks say of a label's formulas.
ghost use Rattle.std.specs.Prelude.{◌≡◌, ◌%◌, ◌^◌, ◌<◌, ◌≤◌, length, Decides};
ghost use Rattle.ltlf.specs.Contents.{book_contents};
ghost use Rattle.masks.specs.Masks.{including};
ghost use Rattle.tableau.specs.Labels.{◌∈◌};
ghost use Rattle.viability.specs.Offers.{Inside, Without};
ghost use Rattle.viability.specs.Viable.{known_part};

use ltlf::Book;

/// Whether a label has a formula.
pub fn contains(label: u64, number: u8) -> bool
    ensures { Decides result (number ∈ label) }
{
    masks::contains(label, number)
}

/// The label with one more formula.
// Not `masks::with`, which tests the number: a book's formulas are below 64, and this is done for each at every visit.
pub(crate) fn with(label: u64, number: u8) -> u64
    requires { number < 64 }
    ensures { result ≡ including label number }
{
    label | (1 << number)
}

/// The label without one formula.
pub fn without(label: u64, number: u8) -> u64
    ensures { Without label number result }
{
    masks::without(label, number)
}

/// Whether every formula of `label` is one of `others`.
pub fn inside(label: u64, others: u64) -> bool
    ensures { Decides result (Inside label others) }
{
    masks::inside(label, others)
}

/// The formulas of a label that the book has.
pub fn known_part(book: &Book, label: u64) -> u64
    ensures { result ≡ known_part (book_contents book.now) label }
{
    let count = book.formula_count();
    if count >= 64 {
        label
    } else {
        label % (1 << count)
    }
}
