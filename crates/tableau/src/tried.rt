// Questions tried by hand.
ghost use Rattle.std.specs.Prelude.{◌≡◌, pred, []};
ghost use Rattle.tableau.specs.Search.{answer, can, cannot, short};
ghost use Rattle.tableau.specs.Examples.{climbing, three_flags, always_and_not, ExamplesAnswered, BoundariesAnswered};

/// The examples have the answers that stand beside them.
pub fn examples_answered()
    ensures { ExamplesAnswered }
{}

/// The questions at the boundaries of the definitions have the answers that stand beside them.
pub fn boundaries_answered()
    ensures { BoundariesAnswered }
{}

/// The number of rows that the climbing tries need: with them the answer is found, and with one fewer it is not.
pub fn rows_of_climbing() -> u16
    ensures enough { answer (climbing []) result ≡ can 3 result }
    ensures needed { answer (climbing []) (pred result) ≡ short (pred result) }
{
    5u16
}

/// The number of visits of a shortest history with a second visit.
pub fn visits_of_tomorrow() -> u16
    ensures { answer three_flags 16 ≡ can result 16 }
{
    2u16
}

/// The number of positions that show that nothing is both always and not always so.
pub fn rows_of_contradiction() -> u16
    ensures { answer always_and_not 4096 ≡ cannot result }
{
    4u16
}
