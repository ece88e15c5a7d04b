// One visit of the judge: which formulas of a book hold there, from which of them hold at the visit after.
ghost use Rattle.std.specs.Prelude.{◌≡◌, ◌<◌, true};
ghost use Rattle.theory.specs.Meaning.{next_exists};
ghost use Rattle.ltlf.specs.Nodes.{known};
ghost use Rattle.ltlf.specs.Contents.{book_contents};
ghost use Rattle.judge.specs.Judging.{same_counts};
ghost use Rattle.judge.specs.Marks.{marked, node_held, Passed};

use ltlf::{Book, Node};
use masks::{contains, with};
use theory::Theory;

/// Whether a formula of a book is marked.
// Its number is its own remainder, which spares the test in `contains`: this is asked for each operand at every visit.
fn marked(marks: u64, number: u8) -> bool
    requires { number < 64 }
    ensures { result ≡ marked marks number }
{
    contains(marks, number % 64)
}

// Code and next are two arguments, as a theory takes them.

/// Whether the node of a number holds, from the marks of the formulas that hold here and at the visit after.
fn node_holds<T: Theory>(
    theory: &T,
    code: u16,
    next: Option<u16>,
    here: u64,
    later: u64,
    number: u8,
    node: Node,
) -> bool
    requires { (number < 64) × ((known (T.Theory.meaning theory.now).atoms number node ≡ true) × ((code < (T.Theory.meaning theory.now).codes) × (next_exists (T.Theory.meaning theory.now).codes next ≡ true))) }
    ensures { result ≡ node_held (T.Theory.meaning theory.now) code next here later number node }
{
    let last = next.is_none();
    match node {
        Node::True => true,
        Node::False => false,
        Node::Atom(a) => theory.holds(a, code, next).unwrap_or(false),
        Node::NotAtom(a) => !theory.holds(a, code, next).unwrap_or(false),
        Node::And(f, g) => marked(here, f) && marked(here, g),
        Node::Or(f, g) => marked(here, f) || marked(here, g),
        Node::Tomorrow(f) => !last && marked(later, f),
        Node::WeakTomorrow(f) => last || marked(later, f),
        Node::Until(f, g) => marked(here, g) || marked(here, f) && !last && marked(later, number),
        Node::Release(f, g) => marked(here, g)
            && (marked(here, f) || last || marked(later, number)),
    }
}

/// The marks of the formulas that hold at a visit, from its code, what comes next, and the marks of those that hold at the visit after.
pub(crate) fn pass<T: Theory>(
    theory: &T,
    book: &Book,
    code: u16,
    next: Option<u16>,
    later: u64,
) -> u64
    requires counts { same_counts (T.Theory.meaning theory.now) (book_contents book.now) ≡ true }
    requires exist { (code < (T.Theory.meaning theory.now).codes) × (next_exists (T.Theory.meaning theory.now).codes next ≡ true) }
    ensures { Passed (T.Theory.meaning theory.now) (book_contents book.now) code next later result }
{
    let mut here = 0;
    // The number is a formula, not an index, and each formula needs the marks of those before it.
    // Its bound spares the test in `with`.
    for number in 0..book.formula_count().min(64) {
        let node = book.node(number).unwrap_or(Node::True);
        if !node_holds(theory, code, next, here, later, number, node) {
            continue;
        }
        here = with(here, number);
    }
    here
}
