ghost use Rattle.std.specs.Prelude.{◌≡◌};
ghost use Rattle.sheet_theory.specs.Cases.{theory_of, case_meaning, case_ranges, case_values};

use super::case::SheetTheory;
use flags::Flags;
use numbers::Numbers;
use refusal::Refusal;
use sheet_text::Heading;
use theory::{Printable, Theory};

impl SheetTheory {
    /// The theory that a heading names; the other one is let go.
    // No `From`: two theories go in, and the heading says which comes out.
    pub fn of(heading: Heading, flags: Flags, numbers: Numbers) -> SheetTheory
        ensures { result ≡ theory_of heading flags numbers }
    {
        match heading {
            Heading::Flags => SheetTheory::Flags(flags),
            Heading::Numbers => SheetTheory::Numbers(numbers),
        }
    }
}

// Each call goes on to the theory that the case holds.
impl Theory for SheetTheory {
    ghost meaning = { case_meaning };

    ghost ranges = { case_ranges };

    fn code_count(&self) -> u16 {
        match self {
            SheetTheory::Flags(flags) => flags.code_count(),
            SheetTheory::Numbers(numbers) => numbers.code_count(),
        }
    }

    fn atom_count(&self) -> u8 {
        match self {
            SheetTheory::Flags(flags) => flags.atom_count(),
            SheetTheory::Numbers(numbers) => numbers.atom_count(),
        }
    }

    fn holds(&self, atom: u8, code: u16, next: Option<u16>) -> Result<bool, Refusal> {
        match self {
            SheetTheory::Flags(flags) => flags.holds(atom, code, next),
            SheetTheory::Numbers(numbers) => numbers.holds(atom, code, next),
        }
    }
}

impl Printable for SheetTheory {
    ghost values = { case_values };

    fn print(&self, code: u16, out: &mut [u8]) -> Result<usize, Refusal> {
        match self {
            SheetTheory::Flags(flags) => flags.print(code, out),
            SheetTheory::Numbers(numbers) => numbers.print(code, out),
        }
    }
}
