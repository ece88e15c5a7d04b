// The numbers theory: a code counts the values of bounded variables, and an atom compares a sum with a constant.
// Rests on `refusal`, `writer`, `theory`, `intern`, `names` and the kit's `arrayvec`.
// Promises: the facts are those of the variables and atoms that were filled in, every filling keeps the limits,
// and a code is printed as its values, which tell the code.
#![tactic(auto)]

mod atom;
mod fill;
mod grid;
mod holds;
mod limits;
mod make;
mod numbers;
mod print;
mod read;
mod term;
mod values;
mod variable;

pub use numbers::Numbers;
pub use print::values_tell_codes;
pub use read::numbers_are_within;
pub use term::{Comparison, Moment, Term};
