// The lines that a report is made of, each written into the caller's bytes. Rests on `refusal`, `theory`, `judge` and the kit's `itoa` and `arrayvec`.
// Promises: a line is the text that specs/ gives it; bytes past its length stay; 9 for too few bytes, which stay.
#![tactic(auto)]

mod line;
mod lines;
mod verdict;
mod visit;

pub use lines::{
    kept_line, noted_line, question_refused_line, refused_line, rows_line, stands_line,
    struck_line, verdict_line,
};
pub use verdict::Verdict;
pub use visit::visit_line;
