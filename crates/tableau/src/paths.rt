// Paths of positions and the histories that they show.
ghost use Rattle.tableau.specs.Theorems.{PathsAreHistories, LengthsAreReached, ShortestIsLeast, NoneIsNone, ChainsAreHistories};

/// The paths from a start to an end show exactly the continuations of the kept visits.
pub fn paths_are_histories()
    ensures { PathsAreHistories }
{}

/// A continuation of n + 1 visits exists exactly if an end is reached by n steps.
pub fn lengths_are_reached()
    ensures { LengthsAreReached }
{}

/// A shortest continuation has one visit more than the least distance of an end.
pub fn shortest_is_least()
    ensures { ShortestIsLeast }
{}

/// There is no continuation exactly if no end is reached.
pub fn none_is_none()
    ensures { NoneIsNone }
{}

/// Positions, one step after another from a start to an end, show a continuation by their codes.
pub fn chains_are_histories()
    ensures { ChainsAreHistories }
{}
