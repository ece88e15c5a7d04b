// The next labels that the sound choices of a label hand on, each entered once into the caller's cells.
// Rests on `intern`, `ltlf`, `tableau` and `viability`.
// Promises: every next label of a sound choice and no other, each once, or that the cells are full.
#![tactic(auto)]

mod expand;
mod guide;
mod label;
mod sink;
mod table;
mod ways;

pub use expand::next_labels;
pub use label::NextLabel;
