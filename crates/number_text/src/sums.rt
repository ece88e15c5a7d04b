// The sum of an atom.
ghost use Rattle.std.specs.Prelude.{◌≡◌, ℕ, ◌≤◌, [], ◌∷◌, length};
ghost use Rattle.items.specs.Reads.{value_and_rest, read_seen};
ghost use Rattle.numbers.specs.Model.{numbers_of};
ghost use Rattle.number_text.specs.Sums.{mark_read, term_read, terms_seen, terms_read, comparison_read, sum_seen, sum_read};

use super::integers::read_small;
use super::sum::Sum;
use arrayvec::ArrayVec;
use items::{Read, after, read_name};
use numbers::{Comparison, Moment, Numbers, Term};

/// The moment that the mark in front says.
fn read_mark(text: &[u8]) -> Read<Moment>
    ensures { value_and_rest result ≡ mark_read text.now }
{
    let (value, rest) = match text {
        [b'\'', rest @ ..] => (Moment::Next, rest),
        [b'~', rest @ ..] => (Moment::WeakNext, rest),
        _ => (Moment::Now, text),
    };
    Read { value, rest }
}

/// The term in front, over the variables of a theory.
fn read_term<'a>(numbers: &Numbers, text: &'a [u8]) -> Option<Read<'a, Term>>
    ensures { read_seen result ≡ term_read (numbers_of numbers.now).variables text.now }
{
    let coefficient = read_small(text, 1_000)?;
    let named = after(coefficient.rest, b"*")?;
    let name = read_name(named)?;
    let variable = numbers.variable_number(name.value)?;
    let mark = read_mark(name.rest);
    Some(Read {
        value: Term {
            coefficient: coefficient.value,
            variable,
            moment: mark.value,
        },
        rest: mark.rest,
    })
}

/// The terms in front, which are joined by pluses, at least one and at most four.
fn read_terms<'a>(numbers: &Numbers, text: &'a [u8]) -> Option<Read<'a, ArrayVec<Term, 4>>>
    ensures { terms_seen result ≡ terms_read (numbers_of numbers.now).variables 4 text.now }
{
    let mut terms = ArrayVec::new();
    let mut rest = text;
    while !terms.is_full() {
        let term = read_term(numbers, rest)?;
        terms.push(term.value);
        let Some(more) = after(term.rest, b"+") else {
            return Some(Read {
                value: terms,
                rest: term.rest,
            });
        };
        rest = more;
    }
    None
}

/// The comparison in front.
fn read_comparison(text: &[u8]) -> Option<Read<Comparison>>
    ensures { read_seen result ≡ comparison_read text.now }
{
    let (value, rest) = match text {
        [b'<', b'=', rest @ ..] => (Comparison::AtMost, rest),
        [b'<', rest @ ..] => (Comparison::Less, rest),
        [b'=', rest @ ..] => (Comparison::Equal, rest),
        _ => return None,
    };
    Some(Read { value, rest })
}

/// The sum that is all of a text, over the variables of a theory.
///
/// None where there are not 1 to 4 terms, a term names no variable, a coefficient or the constant is out of range,
/// or anything else stands there.
pub fn read_sum(numbers: &Numbers, text: &[u8]) -> Option<Sum>
    ensures { sum_seen result ≡ sum_read (numbers_of numbers.now).variables text.now }
{
    let read = read_terms(numbers, text)?;
    let compared = read_comparison(read.rest)?;
    let constant = read_small(compared.rest, 40_000_000)?.alone()?;
    let count = read.value.len();
    let mut terms = [Term::default(); 4];
    terms[..count].copy_from_slice(read.value.as_slice());
    Some(Sum {
        terms,
        count,
        comparison: compared.value,
        constant,
    })
}
