//! Laws about the lines that tests name, each as the contract of a function that does nothing.

ghost use Rattle.sg_report_laws.specs.Stops.{CapRowsSpell, RowsAreLines, StopLines};

/// Each test of a report names the line of the report's text on which what it is about stands.
pub fn stop_lines()
    ensures { StopLines }
{}

/// A row whose fields hold no newline is spelled as one line.
pub fn rows_are_lines()
    ensures { RowsAreLines }
{}

/// The row of a cap's bound spells that bound, and how many facts it has.
pub fn cap_rows_spell()
    ensures { CapRowsSpell }
{}
