// Reading a numbers theory.
ghost use Rattle.std.specs.Prelude.{◌≡◌, length};
ghost use Rattle.numbers.specs.Filling.{variable_number, bounds_at};
ghost use Rattle.numbers.specs.Model.{numbers_of, NumbersAreWithin};

use super::numbers::Numbers;

impl Numbers {
    /// The number of variables.
    pub fn variable_count(&self) -> u8
        ensures { result ≡ length (numbers_of self.now).variables }
    {
        self.grid.variables.len() as u8
    }

    /// The number of the variable with this name; none where no variable has it.
    pub fn variable_number(&self, text: &[u8]) -> Option<u8>
        ensures { result ≡ variable_number text.now (numbers_of self.now).variables }
    {
        let number = self.names.find(text)?;
        Some(number as u8)
    }

    /// The least and the greatest value of a variable; none where there is no such variable.
    pub fn variable_bounds(&self, number: u8) -> Option<(i32, i32)>
        ensures { result ≡ bounds_at (numbers_of self.now).variables number }
    {
        let variable = self.grid.variables.get(number as usize)?.variable;
        Some((variable.low, variable.high))
    }
}

/// States that every numbers theory is within the limits.
pub fn numbers_are_within()
    ensures { NumbersAreWithin }
{}
