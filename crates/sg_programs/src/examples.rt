//! Programs of small games, as the contract of a function that does nothing.

ghost use Rattle.sg_programs.specs.Examples.{WorkedPrograms};
ghost use Rattle.sg_programs.specs.CoverExamples.{WorkedCover, WorkedPoint};
ghost use Rattle.sg_programs.specs.Refusals.{RefusalsAreWorked};

/// The programs of `specs/Examples.antt` have the plays, costs, entries, facts and values that were worked out by hand.
pub fn worked_programs()
    ensures { WorkedPrograms }
{}

/// Each operation under the values of a fact, and under the point of a state, is the first that doesn't fit in a case of `specs/Refusals.antt`.
pub fn worked_refusals()
    ensures { RefusalsAreWorked }
{}

/// The program of `specs/CoverExamples.antt` has the columns, costs, entries and lines, and the end of a run there the fact and the point, that were worked out by hand.
pub fn worked_cover()
    ensures program { WorkedCover }
    ensures point { WorkedPoint }
{}
