// The lines of a number sheet: the bounds of a variable, the sum of an atom, the values of a note.
// Rests on `numbers`, `items` and the kit's `arrayvec`.
// Promises: a line is read exactly where the definition in specs/ reads it, and a number of any length is read or refused.
#![tactic(auto)]

mod integers;
mod sum;
mod sums;
mod values;
mod variables;

pub use sum::Sum;
pub use sums::read_sum;
pub use values::read_values;
pub use variables::{Declared, read_variable};
