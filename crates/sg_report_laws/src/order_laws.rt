//! Laws about the order of the tests of a line, each as the contract of a function that does nothing.

ghost use Rattle.sg_report_laws.specs.LineTests.{LinesInOrder};
ghost use Rattle.sg_report_laws.specs.WorkedLines.{WorkedLines};

/// Each kind of line of a report gives the reason of the first of its tests that fails, and else what it says.
pub fn lines_in_order()
    ensures { LinesInOrder }
{}

/// Lines of reports, and what reading says of them, by hand.
pub fn lines_are_worked()
    ensures { WorkedLines }
{}
