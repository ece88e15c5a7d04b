// What a theory says of a visit, as the bits of a mask.
ghost use Rattle.std.specs.Prelude.{◌≡◌, ◌<◌, ◌≤◌, true, cond};
ghost use Rattle.masks.specs.Masks.{including};
ghost use Rattle.search.specs.Questions.{Shown};
ghost use Rattle.theory.specs.Meaning.{next_exists};

use theory::Theory;

/// The mask with one more atom, where it holds.
// Neither `masks::with`, which tests the number, nor a branch: this is done for each atom at every visit.
fn with_where(held: bool, mask: u64, atom: u8) -> u64
    requires { atom < 64 }
    ensures { result ≡ cond held (including mask atom) mask }
{
    mask | (u64::from(held) << atom)
}

/// The atoms that hold at `code` when `next` comes next, of the first `atoms`.
// Inlined: where it is called it is known whether something comes next, which spares tests for each atom.
#[inline(always)]
pub(crate) fn truth_at<T: Theory>(theory: &T, atoms: u8, code: u16, next: Option<u16>) -> u64
    requires { (atoms ≤ 32) × ((atoms ≡ (T.Theory.meaning theory.now).atoms) × ((code < (T.Theory.meaning theory.now).codes) × (next_exists (T.Theory.meaning theory.now).codes next ≡ true))) }
    ensures { Shown (T.Theory.meaning theory.now) code next result atoms }
{
    let mut truth = 0;
    // The number is an atom, not an index: a theory answers by it.
    for atom in 0..atoms {
        let held = theory.holds(atom, code, next).unwrap_or(false);
        truth = with_where(held, truth, atom);
    }
    truth
}
