// Making grids and atoms.
ghost use Rattle.std.specs.Prelude.{◌≡◌, ◌*◌, ◌<◌, ◌≤◌, true, [], ◌∷◌, ◌++◌, length, map};
ghost use Rattle.numbers.specs.Kept.{bounds_of, grid_bounds, variable_seen, variable_made, variable_fits, leaves_room, grid_seen, grid_single, atom_seen, atom_made};
ghost use Rattle.numbers.specs.Spans.{product, spans_stand, widened};
ghost use Rattle.numbers.specs.Strength.{strongest};

use super::atom::Atom;
use super::grid::Grid;
use super::limits::{count_values, fit_bounds, fit_sum};
use super::term::{Comparison, Moment, Term};
use super::variable::{Spanned, Variable};
use arrayvec::ArrayVec;

/// Makes each span `by` times as wide.
fn widen(variables: &mut [Spanned], by: u16)
    requires stand { spans_stand variables.old ≡ true }
    requires fit { product variables.old * by ≤ 4096 }
    ensures { variables.new ≡ map (λ v. widened v by) variables.old }
{
    for variable in variables.iter_mut() {
        variable.span *= by;
    }
}

impl Default for Variable {
    // What stands in the places of a grid that it does not use; by hand, as a derived width of 0 would be no width.
    fn default() -> Variable {
        Variable {
            low: 0,
            high: 0,
            width: 1,
        }
    }
}

impl Variable {
    /// The variable with these bounds, where they fit beside `codes` codes.
    fn new(codes: u16, low: i32, high: i32) -> Option<Variable>
        requires { 1 ≤ codes }
        ensures is { variable_seen result ≡ variable_made codes low high }
        ensures few { leaves_room codes result ≡ true }
    {
        if !fit_bounds(codes, low, high) {
            return None;
        }
        let width = count_values(low, high) as u16;
        Some(Variable { low, high, width })
    }
}

impl Grid {
    /// The grid of one variable, where its bounds fit.
    pub(crate) fn single(low: i32, high: i32) -> Option<Grid>
        ensures { grid_seen result ≡ grid_single low high }
    {
        let variable = Variable::new(1, low, high)?;
        let mut variables = ArrayVec::new();
        variables.push(Spanned { variable, span: 1 });
        Some(Grid {
            variables,
            codes: variable.width,
        })
    }

    /// One variable more, where there is room and its bounds fit.
    pub(crate) fn fit(&self, low: i32, high: i32) -> Option<Variable>
        ensures is { variable_seen result ≡ variable_fits self.now low high }
        ensures few { leaves_room self.now.codes result ≡ true }
    {
        if self.variables.is_full() {
            return None;
        }
        Variable::new(self.codes, low, high)
    }

    /// Adds a variable, which moves faster than all before it.
    pub(crate) fn push(&mut self, variable: Variable)
        requires room { length self.old.variables.items < 8 }
        requires few { self.old.codes * variable.width ≤ 4096 }
        ensures { grid_bounds self.new ≡ grid_bounds self.old ++ (variable.low, variable.high) ∷ [] }
    {
        widen(&mut self.variables, variable.width);
        self.variables.push(Spanned { variable, span: 1 });
        self.codes *= variable.width;
    }
}

/// The strongest moment of the terms.
fn strongest_moment(terms: &[Term]) -> Moment
    ensures { result ≡ strongest terms.now }
{
    terms
        .iter()
        .fold(Moment::Now, |strongest, term| strongest.max(term.moment))
}

impl Default for Atom {
    // What stands in the places of a theory that it does not use; by hand, as no derive makes a ghost field.
    fn default() -> Atom {
        Atom {
            terms: ArrayVec::new(),
            comparison: Comparison::Equal,
            constant: 0,
            strength: Moment::Now,
        }
    }
}

impl Atom {
    /// The atom over `variables` variables, where its terms and its constant fit.
    pub(crate) fn new(
        variables: u8,
        terms: &[Term],
        comparison: Comparison,
        constant: i32,
    ) -> Option<Atom>
        ensures { atom_seen result ≡ atom_made variables terms.now comparison constant }
    {
        if !fit_sum(variables, terms, constant) {
            return None;
        }
        Some(Atom {
            terms: ArrayVec::try_from(terms).ok()?,
            comparison,
            constant,
            strength: strongest_moment(terms),
        })
    }
}
