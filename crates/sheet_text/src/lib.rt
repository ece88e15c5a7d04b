// Sheets: the text of flags or numbers, atoms, rules and notes, read into a draft, a theory and a visit list.
// Rests on `refusal`, `theory`, `flags`, `numbers`, `ltlf`, `items`, `formula_text` and `number_text`.
// Promises: what a sheet answers and leaves is what the definition in specs/ says, for every text, refusals included.
#![tactic(auto)]

mod filled;
mod flag_sheets;
mod heading;
mod lines;
mod notes;
mod number_sheets;
mod opening;
mod rules;
mod sections;
mod sheet;

pub use heading::{Heading, Sheet};
pub use sheet::read_sheet;
