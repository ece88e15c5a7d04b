// Labels as numbers, and what is computed on them.
ghost use Rattle.tableau.specs.Theorems.{SameMembers, ExpansionIsComputed, NextIsComputed, NextLabelsAreComputed};

/// Labels with the same members are equal numbers.
pub fn same_members()
    ensures { SameMembers }
{}

/// The computed expansion has exactly the members of the expansion.
pub fn expansion_is_computed()
    ensures { ExpansionIsComputed }
{}

/// The computed next label is the next label.
pub fn next_is_computed()
    ensures { NextIsComputed }
{}

/// The computed next labels are those of the sound choices.
pub fn next_labels_are_computed()
    ensures { NextLabelsAreComputed }
{}
