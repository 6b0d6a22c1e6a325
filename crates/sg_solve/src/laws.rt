//! Laws about solved games, each as the contract of a function that does nothing.

ghost use Rattle.sg_solve.specs.Laws.{RightTicketsAreFew};
ghost use Rattle.sg_solve.specs.Sums.{ValueSumsAgree};
ghost use Rattle.sg_solve.specs.Unique.{RightReportIsOne};

/// The sums that a report states under its value fit exactly where the value of its tickets is formed within 128 bits.
pub fn value_sums_agree()
    ensures { ValueSumsAgree }
{}

/// A game with a scale has one right report, to the last ticket.
pub fn right_report_is_one()
    ensures { RightReportIsOne }
{}

/// A right report has at most one ticket more than the game has targets.
pub fn right_tickets_are_few()
    ensures { RightTicketsAreFew }
{}
