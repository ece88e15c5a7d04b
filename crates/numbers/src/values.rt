// The values of variables, terms and sums at a code.
ghost use Rattle.std.specs.Prelude.{◌≡◌, ◌<◌, ◌≤◌, true, length, pos, negsuc, ◌≤ℤ◌};
ghost use Rattle.numbers.specs.Kept.{grid_value, read_at, amount_of, kept_sum, kept_holds};
ghost use Rattle.numbers.specs.Limits.{within, term_fits, terms_fit};
ghost use Rattle.numbers.specs.Values.{compared};

use super::atom::Atom;
use super::grid::Grid;
use super::term::{Comparison, Moment, Term};

impl Grid {
    /// The value of a variable in a code.
    pub(crate) fn value(&self, variable: u8, code: u16) -> i32
        requires { variable < length self.now.variables.items }
        ensures is { result ≡ grid_value self.now variable code }
        ensures bounds { within 10000 result ≡ true }
    {
        let read = &self.variables[variable as usize];
        read.variable.low + (code / read.span % read.variable.width) as i32
    }
}

impl Moment {
    /// The code that a term reads at this moment, where `next` comes next.
    fn pick(self, code: u16, next: u16) -> u16
        ensures { result ≡ read_at self code next }
    {
        match self {
            Moment::Now => code,
            Moment::Next | Moment::WeakNext => next,
        }
    }
}

// Grid, code and what comes next are three arguments below: the grid is the theory's, code and next are the question's.
impl Term {
    /// The coefficient times the variable's value, where `next` comes next.
    fn amount(self, grid: &Grid, code: u16, next: u16) -> i32
        requires { term_fits (length grid.now.variables.items) self ≡ true }
        ensures is { result ≡ amount_of grid.now code next self }
        ensures bounds { (negsuc 9999999 ≤ℤ result) × (result ≤ℤ pos 10000000) }
    {
        self.coefficient * grid.value(self.variable, self.moment.pick(code, next))
    }
}

impl Comparison {
    /// Whether `sum` compares so with `constant`.
    fn holds(self, sum: i32, constant: i32) -> bool
        ensures { result ≡ compared self sum constant }
    {
        match self {
            Comparison::Equal => sum == constant,
            Comparison::Less => sum < constant,
            Comparison::AtMost => sum <= constant,
        }
    }
}

impl Atom {
    /// The sum of the terms, where `next` comes next.
    // A `for`: of a chain's signed `sum` nothing says that it fits.
    fn sum(&self, grid: &Grid, code: u16, next: u16) -> i32
        requires few { length self.now.terms.items ≤ 4 }
        requires fit { terms_fit (length grid.now.variables.items) self.now.terms.items ≡ true }
        ensures { result ≡ kept_sum grid.now code next self.now.terms.items }
    {
        let mut sum = 0;
        for term in self.terms.as_slice() {
            sum += term.amount(grid, code, next);
        }
        sum
    }

    /// Whether the atom holds at `code` when `next` comes next.
    pub(crate) fn holds(&self, grid: &Grid, code: u16, next: Option<u16>) -> bool
        requires few { length self.now.terms.items ≤ 4 }
        requires fit { terms_fit (length grid.now.variables.items) self.now.terms.items ≡ true }
        ensures { result ≡ kept_holds grid.now code next self.now }
    {
        let read = match next {
            Some(n) => n,
            None => match self.strength {
                Moment::Now => code,
                Moment::Next => return false,
                Moment::WeakNext => return true,
            },
        };
        self.comparison
            .holds(self.sum(grid, code, read), self.constant)
    }
}
