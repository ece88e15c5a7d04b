// What a rule means as it is written, and that the formula put for it says the same.
// Rests on `judge` for what a formula means, and on `formula_text` and `sheet_text` for how rules are read.
// Promises: the draft of an accepted sheet is met by a history exactly when every rule of the sheet, as it is written, holds at its first visit.
// Each function stands for a theorem, which is its contract.
#![tactic(auto)]

mod laws;
mod tried;

pub use laws::{put_says_written, read_says_written, sheet_says_written};
pub use tried::{last_visit_tried, one_visit_said};
