// Filling a numbers theory.
ghost use Rattle.std.specs.Prelude.{◌≡◌, length};
ghost use Rattle.names.specs.Texts.{text_of};
ghost use Rattle.numbers.specs.Filling.{fresh_numbers, seen_numbers, started, variable_answer, variable_leaves, atom_answer, atom_leaves};
ghost use Rattle.numbers.specs.Kept.{grid_bounds};
ghost use Rattle.numbers.specs.Model.{numbers_of, started_with};

use super::atom::Atom;
use super::grid::Grid;
use super::numbers::Numbers;
use super::term::{Comparison, Term};
use arrayvec::ArrayVec;
use names::{Name, Roster};
use refusal::FillRefusal;

impl Numbers {
    // One variable, and no atom.
    fn of(name: Name, grid: Grid) -> Numbers
        requires { length grid.variables.items ≡ 1 }
        ensures { numbers_of result ≡ started_with (text_of name) (grid_bounds grid) }
    {
        Numbers {
            names: Roster::of(name),
            grid,
            atoms: ArrayVec::new(),
        }
    }

    /// One variable, named `a`, from 0 to 0, and no atom.
    pub fn fresh() -> Numbers
        ensures { numbers_of result ≡ fresh_numbers }
    {
        Numbers::with_variable(b"a", 0, 0).unwrap()
    }

    /// One variable with this name and these bounds, and no atom.
    ///
    /// Errors: `Variable` where the text is no name, the bounds are wrong or they make over 4,096 codes.
    pub fn with_variable(text: &[u8], low: i32, high: i32) -> Result<Numbers, FillRefusal>
        ensures { seen_numbers result ≡ started text.now low high }
    {
        let name = Name::new(text).ok_or(FillRefusal::Variable)?;
        let grid = Grid::single(low, high).ok_or(FillRefusal::Variable)?;
        Ok(Numbers::of(name, grid))
    }

    /// Adds a variable with this name and these bounds; it moves faster than all before it.
    ///
    /// Errors: `Variable` where the text is no name, the name is taken, eight variables stand,
    /// the bounds are wrong, or the codes would be over 4,096; nothing is changed.
    pub fn add_variable(&mut self, text: &[u8], low: i32, high: i32) -> Result<(), FillRefusal>
        ensures answer { result ≡ variable_answer (numbers_of self.old) text.now low high }
        ensures after { numbers_of self.new ≡ variable_leaves (numbers_of self.old) text.now low high }
    {
        let name = Name::new(text).ok_or(FillRefusal::Variable)?;
        let variable = self.grid.fit(low, high).ok_or(FillRefusal::Variable)?;
        self.names.add(name).ok_or(FillRefusal::Variable)?;
        self.grid.push(variable);
        Ok(())
    }

    /// Adds an atom that compares the sum of the terms with a constant.
    ///
    /// Errors: `Atom` where there are not 1 to 4 terms, a term names no variable, a coefficient or the constant
    /// is out of range, or 32 atoms stand; nothing is changed.
    pub fn add_atom(
        &mut self,
        terms: &[Term],
        comparison: Comparison,
        constant: i32,
    ) -> Result<(), FillRefusal>
        ensures answer { result ≡ atom_answer (numbers_of self.old) terms.now constant }
        ensures after { numbers_of self.new ≡ atom_leaves (numbers_of self.old) terms.now comparison constant }
    {
        let atom = Atom::new(self.variable_count(), terms, comparison, constant).ok_or(
            FillRefusal::Atom,
        )?;
        self.atoms.try_push(atom).map_err(|_| FillRefusal::Atom)
    }
}
