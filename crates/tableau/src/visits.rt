// One visit: a label, its expansions, and what holds there.
ghost use Rattle.tableau.specs.Theorems.{StepIsSound, StepIsComplete, ExpansionIsLeast};

/// A label holds at a visit where some choice is sound and what it hands on holds at the next.
pub fn step_is_sound()
    ensures { StepIsSound }
{}

/// Where a label holds, some choice is sound and what it hands on holds at the next visit.
pub fn step_is_complete()
    ensures { StepIsComplete }
{}

/// The expansion lies inside every set that holds the label and the parts of its members.
pub fn expansion_is_least()
    ensures { ExpansionIsLeast }
{}
