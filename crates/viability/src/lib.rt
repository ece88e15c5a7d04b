// Which formulas of a book have a sound expansion at a visit, from the atoms that hold there and whether it is the last.
// Rests on `masks`, `theory`, `ltlf`, `judge` and `tableau`.
// Promises: a label has a sound choice exactly when it lies inside the viable formulas.
#![tactic(auto)]

mod labels;
mod offer;
mod sound;
mod visit;

pub use labels::{contains, inside, known_part, without};
pub use offer::{Offer, Side};
pub use visit::Visit;
