// A recursive reader: an operator in front says what follows, and negation is pushed down to the atoms on the way.
ghost use Rattle.std.specs.Prelude.{◌≡◌, false};
ghost use Rattle.ltlf.specs.Contents.{draft_contents};
ghost use Rattle.formula_text.specs.Grammar.{ReadsWritten, ReadIsWritten, WrittenOnce};
ghost use Rattle.formula_text.specs.Trees.{BuiltStands};
ghost use Rattle.formula_text.specs.Formulas.{outcome, put_read, atom_read, formula_read};

use super::operator::{Operator, atom_node, constant, one_node, two_node};
use items::{Read, natural, space};
use ltlf::{Draft, Node};

/// The number of a node that is put into the draft, with the text that follows it.
fn put_node<'a>(draft: &mut Draft, node: Node, rest: &'a [u8]) -> Option<Read<'a, u8>>
    ensures { outcome result (draft_contents draft.new) ≡ put_read node rest.now (draft_contents draft.old) }
{
    let value = draft.put(node).ok()?;
    Some(Read { value, rest })
}

/// An atom by its number, put into the draft.
fn atom<'a>(draft: &mut Draft, text: &'a [u8], negated: bool) -> Option<Read<'a, u8>>
    ensures { outcome result (draft_contents draft.new) ≡ atom_read negated text.now (draft_contents draft.old) }
{
    let number = natural(text, 255)?;
    put_node(draft, atom_node(number.value as u8, negated), number.rest)
}

/// A formula of at most `depth`, with negation pushed inside, its operands put left operand first.
fn formula<'a>(draft: &mut Draft, text: &'a [u8], negated: bool, depth: u8) -> Option<Read<'a, u8>>
    ensures { outcome result (draft_contents draft.new) ≡ formula_read depth negated text.now (draft_contents draft.old) }
{
    // The depth falls with each operator, and a pattern takes the operator off the text.
    if depth == 0 {
        return None;
    }
    let [first, after @ ..] = text else {
        return None;
    };
    match Operator::from(*first) {
        Operator::Constant(value) => put_node(draft, constant(value, negated), after),
        Operator::Not => {
            let inner = space(after)?;
            formula(draft, inner, !negated, depth - 1)
        }
        Operator::Single(op) => {
            let inner = space(after)?;
            let operand = formula(draft, inner, negated, depth - 1)?;
            put_node(draft, one_node(op, negated, operand.value), operand.rest)
        }
        Operator::Fixed(value, op) => {
            let left = put_node(draft, constant(value, negated), after)?;
            let inner = space(left.rest)?;
            let right = formula(draft, inner, negated, depth - 1)?;
            let node = two_node(op, negated, left.value, right.value);
            put_node(draft, node, right.rest)
        }
        Operator::Pair(op) => {
            let first_inner = space(after)?;
            let left = formula(draft, first_inner, negated, depth - 1)?;
            let second_inner = space(left.rest)?;
            let right = formula(draft, second_inner, negated, depth - 1)?;
            let node = two_node(op, negated, left.value, right.value);
            put_node(draft, node, right.rest)
        }
        Operator::Other => atom(draft, text, negated),
    }
}

/// Reads the formula in front of a text into a draft, negation pushed down to the atoms and left operands put first, and gives
/// its number there.
///
/// Nothing is read where no formula of depth at most 32 stands in front, where an atom does not exist and where the draft
/// is full; what was put before reading stopped stays in the draft.
pub fn read_formula<'a>(draft: &mut Draft, text: &'a [u8]) -> Option<Read<'a, u8>>
    ensures { outcome result (draft_contents draft.new) ≡ formula_read 32 false text.now (draft_contents draft.old) }
{
    formula(draft, text, false, 32)
}

/// Reading inverts writing, what is read was written, and what was read stands in the draft with its negations pushed down.
pub fn formula_law()
    ensures reads { ReadsWritten }
    ensures written { ReadIsWritten }
    ensures stands { BuiltStands }
{}

/// A text writes one formula only.
pub fn text_writes_one_formula()
    ensures { WrittenOnce }
{}
