// What a report shows of an answered question. Rests on `search` and `report`.
// Promises: each is what the definition in specs/ says of the answer.
#![tactic(auto)]

ghost use Rattle.std.specs.Prelude.{◌≡◌};
ghost use Rattle.answer.specs.Shown.{verdict_of, rows_of, shown};

use report::Verdict;
use search::Outcome;

// Each conversion stays a function: `From` may stand only in the crate of the outcome or of the verdict.

/// The verdict of an outcome.
pub fn verdict_of(outcome: Outcome) -> Verdict
    ensures { result ≡ verdict_of outcome }
{
    match outcome {
        Outcome::Can { length, rows: _ } => Verdict::Can(length as u64),
        Outcome::Cannot { rows: _ } => Verdict::Cannot,
        Outcome::Short { rows: _ } => Verdict::Short,
    }
}

/// The row count of an outcome.
pub fn rows_of(outcome: Outcome) -> u64
    ensures { result ≡ rows_of outcome }
{
    match outcome {
        Outcome::Can { length: _, rows } | Outcome::Cannot { rows } | Outcome::Short { rows } => {
            rows as u64
        }
    }
}

/// The history that an outcome shows in a history list: its first entries under `can`, and none otherwise.
pub fn history_of(outcome: Outcome, history: &[u16]) -> &[u16]
    ensures { result.now ≡ shown outcome history.now }
{
    match outcome {
        Outcome::Can { length, rows: _ } => &history[..length.min(history.len())],
        Outcome::Cannot { .. } | Outcome::Short { .. } => &[],
    }
}
