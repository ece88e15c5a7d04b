// What a theory is: codes, atoms, and the facts, which say where an atom holds. Rests on `refusal` and `writer`.
// Promises: each call of every theory answers by its meaning, refusals included.
#![tactic(auto)]

mod print;

ghost use Rattle.std.specs.Prelude.{◌≡◌};
ghost use Rattle.theory.specs.Meaning.{within, Meaning, InRange, answer};

pub use print::{Printable, print_values, put_item};
use refusal::Refusal;

/// Codes 0 to M - 1, atoms 0 to A - 1, and the facts: which atom holds at which code before what comes next.
pub trait Theory {
    // What the theory means: everything above a theory speaks of its meaning alone.
    ghost meaning: { Self → Meaning };

    // M lies within 1 to 65,535 and A within 0 to 255.
    ghost ranges: { (t : Self) → InRange (meaning t) };

    /// The number of codes.
    fn code_count(&self) -> u16
        ensures { result ≡ (meaning self.now).codes };

    /// The number of atoms.
    fn atom_count(&self) -> u8
        ensures { result ≡ (meaning self.now).atoms };

    /// Whether `atom` holds at `code` when `next` comes next: a code, or nothing after the last visit.
    ///
    /// Errors: 2 for an atom that does not exist, else 4 for a code that does not exist.
    fn holds(&self, atom: u8, code: u16, next: Option<u16>) -> Result<bool, Refusal>
        ensures { result ≡ answer (meaning self.now) atom code next };
}

// Counts of codes and atoms are two numbers throughout, as a theory gives them by two calls.

/// Checks that an atom, a code and what comes next exist among `codes` codes and `atoms` atoms.
///
/// Errors: 2 for an atom that does not exist, else 4 for a code that does not exist.
pub fn check_within(
    codes: u16,
    atoms: u8,
    atom: u8,
    code: u16,
    next: Option<u16>,
) -> Result<(), Refusal>
    ensures { result ≡ within codes atoms atom code next }
{
    if atom >= atoms {
        return Err(Refusal::Unknown);
    }
    let next_exists = next.is_none_or(|n| n < codes);
    // An `if`: a truth value becomes a result by two calls, no plainer.
    if code < codes && next_exists {
        Ok(())
    } else {
        Err(Refusal::NoSuchCode)
    }
}
