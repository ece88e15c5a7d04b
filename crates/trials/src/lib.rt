// The sheets that were tried by hand, from their bytes to what their questions come to.
// Rests on `sheet_text` for reading and on `household` for questions, and on what those rest on.
// Promises: each of the twelve sheets is accepted, and its question comes out as the list in specs/ says.
#![tactic(auto)]

ghost use Rattle.std.specs.Prelude.{◌≡◌};
ghost use Rattle.trials.specs.Trials.{trials, outcome_at, TrialsComeOut};

use search::Outcome;

/// Every sheet of the list is accepted, and its question, with its rows, has the outcome that stands beside it.
pub fn trials_come_out()
    ensures { TrialsComeOut }
{}

// What stands beside the sheets.
const OUTCOMES: [Outcome; 13] = [
    Outcome::Short { rows: 4 },
    Outcome::Can { length: 3, rows: 5 },
    Outcome::Can { length: 3, rows: 3 },
    Outcome::Cannot { rows: 1 },
    Outcome::Cannot { rows: 1 },
    Outcome::Can { length: 3, rows: 3 },
    Outcome::Can { length: 2, rows: 4 },
    Outcome::Can { length: 1, rows: 2 },
    Outcome::Cannot { rows: 4 },
    Outcome::Cannot { rows: 4 },
    Outcome::Can { length: 1, rows: 3 },
    Outcome::Cannot { rows: 3 },
    Outcome::Can { length: 1, rows: 3 },
];

/// What stands beside a sheet, by its number in the list, counted from 0; nothing past the list.
pub fn outcome_of(sheet: usize) -> Option<Outcome>
    ensures { result ≡ outcome_at trials sheet }
{
    OUTCOMES.get(sheet).copied()
}
