// Whether a formula holds at a visit of a history, and the call that decides whether a whole history meets a book.
// Rests on `refusal`, `masks`, `theory` and `ltlf`.
// Promises: a history is judged met exactly when every rule of the book holds at its first visit.
#![tactic(auto)]

mod judgement;
mod judging;
mod pass;

pub use judgement::Judgement;
pub use judging::{all_codes, histories_meet_or_fail, judge, same_counts};
