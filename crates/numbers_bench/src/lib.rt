// What the benchmark of `holds` calls: the facts of a numbers theory, counted. Rests on `refusal`, `theory` and `numbers`.
// Promises: a count is the number of pairs of codes at which the theory's `holds` answers yes.
#![tactic(auto)]

ghost use Rattle.std.specs.Prelude.{◌≡◌, ◌*◌, ◌≤◌};
ghost use Rattle.numbers.specs.Model.{numbers_of, numbers_meaning};
ghost use Rattle.numbers.specs.declared.numbers.Numbers.{Numbers};
ghost use Rattle.numbers_bench.specs.Counts.{as_one, facts_from, facts_in};

use numbers::{Comparison, Moment, Numbers, Term};
use refusal::Refusal;
use theory::Theory;

/// 1 for the answer yes.
fn as_one(answer: Result<bool, Refusal>) -> u32
    ensures count { result ≡ as_one answer }
    ensures few { result ≤ 1 }
{
    u32::from(answer.unwrap_or(false))
}

/// Before how many codes the atom holds at the code.
// A `for` here and in `table`: of `map(..).sum()` over a theory's calls it was not proved that the sum fits.
fn row<T: Theory>(theory: &T, atom: u8, code: u16) -> u32
    ensures count { result ≡ facts_from (T.Theory.meaning theory.now) atom code (T.Theory.meaning theory.now).codes }
    ensures few { result ≤ (T.Theory.meaning theory.now).codes }
{
    let mut count = 0;
    for n in 0..theory.code_count() {
        count += as_one(theory.holds(atom, code, Some(n)));
    }
    count
}

/// At how many pairs of codes the atom holds.
fn table<T: Theory>(theory: &T, atom: u8) -> u64
    ensures { result ≡ facts_in (T.Theory.meaning theory.now) atom (T.Theory.meaning theory.now).codes }
{
    let mut count = 0;
    for code in 0..theory.code_count() {
        count += u64::from(row(theory, atom, code));
    }
    count
}

/// Three variables of sixteen values, and three atoms: plain, strong and weak.
fn subject() -> Numbers {
    let mut theory = Numbers::with_variable(b"tries", 0, 15).unwrap_or(Numbers::fresh());
    let _ = theory.add_variable(b"cards", 0, 15);
    let _ = theory.add_variable(b"hour", -8, 7);
    let now = Term {
        coefficient: 1,
        variable: 0,
        moment: Moment::Now,
    };
    let cards = Term {
        coefficient: -2,
        variable: 1,
        moment: Moment::Now,
    };
    let next = Term {
        coefficient: 1,
        variable: 0,
        moment: Moment::Next,
    };
    let weak = Term {
        coefficient: 3,
        variable: 2,
        moment: Moment::WeakNext,
    };
    let minus = Term {
        coefficient: -1,
        variable: 0,
        moment: Moment::Now,
    };
    let _ = theory.add_atom(&[now, cards], Comparison::AtMost, 4);
    let _ = theory.add_atom(&[next, minus], Comparison::Equal, 1);
    let _ = theory.add_atom(&[weak, cards, now], Comparison::Less, 0);
    theory
}

/// At how many pairs of codes an atom of the benchmark's theory holds.
pub fn numbers_bench_count(atom: u8) -> u64
    ensures { (t : Numbers) × (result ≡ facts_in (numbers_meaning (numbers_of t)) atom (numbers_meaning (numbers_of t)).codes) }
{
    let theory = subject();
    table(&theory, atom)
}
