// The operators of a formula's text, and the nodes that they make, with negation pushed inside.
ghost use Rattle.std.specs.Prelude.{◌≡◌};
ghost use Rattle.formula_text.specs.Operators.{operator_of, constant_node, atom_node, one_node, two_node};

use ltlf::Node;

/// An operator with one operand that stays in a draft.
#[derive(Clone, Copy, Drop)]
pub enum One {
    Tomorrow,
    WeakTomorrow,
}

/// An operator with two operands.
#[derive(Clone, Copy, Drop)]
pub enum Two {
    And,
    Or,
    Until,
    Release,
}

/// What a byte says at the front of a formula.
#[derive(Clone, Copy, Drop)]
pub(crate) enum Operator {
    /// A constant.
    Constant(bool),
    /// Negation, which is pushed inside.
    Not,
    /// One operand follows.
    Single(One),
    /// The left operand is a constant, and the right one follows.
    Fixed(bool, Two),
    /// Two operands follow.
    Pair(Two),
    /// No operator; a case and no option, as `From` takes every byte.
    Other,
}

impl From<u8> for Operator {
    ghost from_gives = { λ byte operator. operator ≡ operator_of byte };

    fn from(byte: u8) -> Operator {
        match byte as char {
            'T' => Operator::Constant(true),
            'L' => Operator::Constant(false),
            '!' => Operator::Not,
            'X' => Operator::Single(One::Tomorrow),
            'W' => Operator::Single(One::WeakTomorrow),
            'F' => Operator::Fixed(true, Two::Until),
            'G' => Operator::Fixed(false, Two::Release),
            '&' => Operator::Pair(Two::And),
            '|' => Operator::Pair(Two::Or),
            'U' => Operator::Pair(Two::Until),
            'R' => Operator::Pair(Two::Release),
            _ => Operator::Other,
        }
    }
}

/// A constant, or its negation.
pub(crate) fn constant(value: bool, negated: bool) -> Node
    ensures { result ≡ constant_node value negated }
{
    if value == negated {
        Node::False
    } else {
        Node::True
    }
}

/// An atom, or its negation.
pub(crate) fn atom_node(atom: u8, negated: bool) -> Node
    ensures { result ≡ atom_node negated atom }
{
    if negated {
        Node::NotAtom(atom)
    } else {
        Node::Atom(atom)
    }
}

/// The node of an operator, or of its dual.
pub(crate) fn one_node(op: One, negated: bool, operand: u8) -> Node
    ensures { result ≡ one_node op negated operand }
{
    match (op, negated) {
        (One::Tomorrow, false) => Node::Tomorrow(operand),
        (One::Tomorrow, true) => Node::WeakTomorrow(operand),
        (One::WeakTomorrow, false) => Node::WeakTomorrow(operand),
        (One::WeakTomorrow, true) => Node::Tomorrow(operand),
    }
}

/// The node of an operator, or of its dual.
pub(crate) fn two_node(op: Two, negated: bool, left: u8, right: u8) -> Node
    ensures { result ≡ two_node op negated left right }
{
    match (op, negated) {
        (Two::And, false) => Node::And(left, right),
        (Two::And, true) => Node::Or(left, right),
        (Two::Or, false) => Node::Or(left, right),
        (Two::Or, true) => Node::And(left, right),
        (Two::Until, false) => Node::Until(left, right),
        (Two::Until, true) => Node::Release(left, right),
        (Two::Release, false) => Node::Release(left, right),
        (Two::Release, true) => Node::Until(left, right),
    }
}
