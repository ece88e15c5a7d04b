// Distances, layers, and which positions a search has to count.
ghost use Rattle.tableau.specs.Theorems.{ReachedByStep, LayerByLayer, ClosedHoldsAll, CountedIfEnds, CountedIfNone, StepsAreDecided, EndsAreDecided, ReachedIsBounded};

/// What is reached by n + 1 steps is one step from what is reached by n.
pub fn reached_by_step()
    ensures { ReachedByStep }
{}

/// A position at distance n + 1 is one step from one at distance n.
pub fn layer_by_layer()
    ensures { LayerByLayer }
{}

/// A set with the starting positions that steps do not leave holds every reached position.
pub fn closed_holds_all()
    ensures { ClosedHoldsAll }
{}

/// Where some position ends, the counted ones are those up to the least distance of an end.
pub fn counted_if_ends()
    ensures { CountedIfEnds }
{}

/// Where no position ends, the counted ones are all that are reached.
pub fn counted_if_none()
    ensures { CountedIfNone }
{}

/// Whether a step leads from one position to another is decided.
pub fn steps_are_decided()
    ensures { StepsAreDecided }
{}

/// Whether a position ends is decided.
pub fn ends_are_decided()
    ensures { EndsAreDecided }
{}

/// Every reached position lies within the bounds of book and theory.
pub fn reached_is_bounded()
    ensures { ReachedIsBounded }
{}
