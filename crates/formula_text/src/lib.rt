// How the text of a formula is read into a draft. Rests on `refusal`, `ltlf` and `items`.
// Promises: a formula is read exactly where one is written, and stands in the draft with its negations pushed down; what is read, what is left of the text, and what the draft holds afterwards are what the definition in specs/ says, also where reading stops half-way.
#![tactic(auto)]

mod operator;
mod reader;

pub use operator::{One, Two};
pub use reader::{formula_law, read_formula, text_writes_one_formula};
