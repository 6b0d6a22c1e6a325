//! Ends of small searches with their reports, as the contract of a function that does nothing.

ghost use Rattle.sg_gap_laws.specs.Examples.{WorkedEnds};

/// The searches of `specs/Examples.antt` end as they were worked out by hand, and have these reports.
pub fn worked_ends()
    ensures { WorkedEnds }
{}
