// The calls of a draft.
ghost use Rattle.std.specs.Prelude.{◌≡◌};
ghost use Rattle.ltlf.specs.Contents.{draft_contents, book_contents, empty, counts_answer, counts_leave, rule_answer, rule_leaves, put_answer, put_leaves, among};
ghost use Rattle.ltlf.specs.Nodes.{known};

use super::book::Book;
use super::draft::Draft;
use super::node::Node;
use arrayvec::ArrayVec;
use intern::{Cell, Slot, find_or_add};
use refusal::Refusal;

impl Draft {
    /// An empty draft, with both counts 0.
    pub fn new() -> Draft
        ensures { draft_contents result ≡ empty 0 0 }
    {
        Draft {
            codes: 0,
            atoms: 0,
            cells: [Cell::new(Node::True); 64],
            len: 0,
            rules: ArrayVec::new(),
        }
    }

    /// Sets the counts of codes and atoms, and empties the draft.
    ///
    /// Errors: 1 for codes outside 1 to 4,096 or atoms over 32; the draft is unchanged.
    pub fn set_counts(&mut self, codes: u16, atoms: u8) -> Result<(), Refusal>
        ensures answer { result ≡ counts_answer codes atoms }
        ensures after { draft_contents self.new ≡ counts_leave (draft_contents self.old) codes atoms }
    {
        if 1 <= codes && codes <= 4096 && atoms <= 32 {
            self.codes = codes;
            self.atoms = atoms;
            self.len = 0;
            self.rules.clear();
            Ok(())
        } else {
            Err(Refusal::CountsOutOfRange)
        }
    }

    /// Whether the atom or the operands that a node names are there.
    fn knows(&self, node: Node) -> bool
        ensures { result ≡ known self.now.atoms self.now.len node }
    {
        match node {
            Node::True | Node::False => true,
            Node::Atom(a) | Node::NotAtom(a) => a < self.atoms,
            Node::Tomorrow(f) | Node::WeakTomorrow(f) => f < self.len,
            Node::And(f, g) | Node::Or(f, g) | Node::Until(f, g) | Node::Release(f, g) => {
                f < self.len && g < self.len
            }
        }
    }

    /// Puts a formula, and returns its number; an equal formula put before has its old number.
    ///
    /// Errors: 2 where its atom or an operand is not there, 3 for a 65th formula; the draft is unchanged.
    pub fn put(&mut self, node: Node) -> Result<u8, Refusal>
        ensures answer { result ≡ put_answer (draft_contents self.old) node }
        ensures after { draft_contents self.new ≡ put_leaves (draft_contents self.old) node }
    {
        if !self.knows(node) {
            return Err(Refusal::Unknown);
        }
        // One match: what is found, what is added and the draft's own word for full cells.
        match find_or_add(&mut self.cells, self.len as usize, node) {
            Ok(Slot::Found(place)) => Ok(place as u8),
            Ok(Slot::Added(place)) => {
                self.len += 1;
                Ok(place as u8)
            }
            Err(_) => Err(Refusal::TooManyFormulas),
        }
    }

    /// Whether a formula was named a rule.
    fn is_rule(&self, formula: u8) -> bool
        ensures { result ≡ among formula (draft_contents self.now).rules }
    {
        self.rules.contains(&formula)
    }

    /// Names a formula a rule; naming it again changes nothing.
    ///
    /// Errors: 2 where the formula was not put; the draft is unchanged.
    pub fn name_rule(&mut self, formula: u8) -> Result<(), Refusal>
        ensures answer { result ≡ rule_answer (draft_contents self.old) formula }
        ensures after { draft_contents self.new ≡ rule_leaves (draft_contents self.old) formula }
    {
        if formula >= self.len {
            return Err(Refusal::Unknown);
        }
        if self.is_rule(formula) {
            return Ok(());
        }
        self.rules.push(formula);
        Ok(())
    }

    /// Seals the draft into a book of the same contents.
    pub fn seal(self) -> Book
        ensures { book_contents result ≡ draft_contents self }
    {
        Book { sealed: self }
    }
}
