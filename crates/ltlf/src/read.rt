// The calls of a book.
ghost use Rattle.std.specs.Prelude.{◌≡◌, ◌≤◌, length};
ghost use Rattle.ltlf.specs.Contents.{book_contents, node_answer, rule_at, BooksAreProper, BooksAreSmall};

use super::book::Book;
use super::node::Node;
use refusal::Refusal;

impl Book {
    /// The number of codes.
    pub fn code_count(&self) -> u16
        ensures { result ≡ (book_contents self.now).codes }
    {
        self.sealed.codes
    }

    /// The number of atoms.
    pub fn atom_count(&self) -> u8
        ensures { result ≡ (book_contents self.now).atoms }
    {
        self.sealed.atoms
    }

    /// The number of formulas.
    pub fn formula_count(&self) -> u8
        ensures { result ≡ length (book_contents self.now).nodes }
    {
        self.sealed.len
    }

    /// The formula of a number.
    ///
    /// Errors: 2 where no formula has the number.
    pub fn node(&self, number: u8) -> Result<Node, Refusal>
        ensures { result ≡ node_answer (book_contents self.now) number }
    {
        // A test and an index: a `get` would first have to slice the filled cells.
        if number < self.sealed.len {
            Ok(self.sealed.cells[number as usize].item)
        } else {
            Err(Refusal::Unknown)
        }
    }

    /// The rules in the order in which they were first named.
    pub fn rules(&self) -> &[u8]
        ensures value { result.now ≡ (book_contents self.now).rules }
        ensures fits { length result.now ≤ 64 }
    {
        self.sealed.rules.as_slice()
    }

    /// The number of rules.
    pub fn rule_count(&self) -> u8
        ensures { result ≡ length (book_contents self.now).rules }
    {
        self.rules().len() as u8
    }

    /// The rule at a place of the order in which rules were first named.
    ///
    /// Errors: 2 where there is none.
    pub fn rule(&self, place: u8) -> Result<u8, Refusal>
        ensures { result ≡ rule_at (book_contents self.now) place }
    {
        self.rules()
            .get(place as usize)
            .copied()
            .ok_or(Refusal::Unknown)
    }
}

/// Every book is proper.
pub fn books_are_proper()
    ensures { BooksAreProper }
{}

/// Every book has at most 4,096 codes and 32 atoms.
pub fn books_are_small()
    ensures { BooksAreSmall }
{}
