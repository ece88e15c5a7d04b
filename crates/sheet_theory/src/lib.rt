// The theory of a sheet: flags or numbers, by its heading, as one type.
// Rests on `refusal`, `theory`, `flags`, `numbers` and `sheet_text`.
// Promises: every call answers by the meaning of the theory that the heading names.
#![tactic(auto)]

mod case;
mod meaning;

pub use case::SheetTheory;
