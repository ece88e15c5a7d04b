// Small rules at the last visit, where the operators differ.
ghost use Rattle.rule_meaning.specs.Examples.{LastVisitTried, OneVisitSaid};

/// What `X`, `W`, `F`, `G`, `U` and `!` say of a history of one visit.
pub fn last_visit_tried()
    ensures { LastVisitTried }
{}

/// `G W L` holds exactly for histories of one visit.
pub fn one_visit_said()
    ensures { OneVisitSaid }
{}
