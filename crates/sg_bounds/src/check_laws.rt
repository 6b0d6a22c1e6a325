//! Laws about the tests of a report, each as the contract of a function that does nothing.

ghost use Rattle.sg_bounds.specs.CheckLaws.{EachIsAnswered, FirstIsOne, PassingIsAcceptance, RefusalIsOne};

/// Where a test fails first, not all pass, and no other test fails first.
pub fn first_is_one()
    ensures { FirstIsOne }
{}

/// All tests of a report pass exactly where it is accepted.
pub fn passing_is_acceptance()
    ensures { PassingIsAcceptance }
{}

/// An accepted report is refused nowhere, and a report is refused with one reason at one line at most.
pub fn refusal_is_one()
    ensures { RefusalIsOne }
{}

/// A report is accepted, or refused with a reason at a line.
pub fn each_is_answered()
    ensures { EachIsAnswered }
{}
