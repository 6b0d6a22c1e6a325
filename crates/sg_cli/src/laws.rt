//! Laws about the commands together, each as the contract of a function that does nothing.

ghost use Rattle.sg_cli.specs.Laws.{OneStatusIsDue, RightReportsAreShort, SolvedIsChecked};
ghost use Rattle.sg_cli.specs.RosterLaws.{SolvedIsRostered};
ghost use Rattle.sg_cli.specs.WorkedRuns.{WorkedChecks, WorkedLimits, WorkedRefusals};

/// Told files decide one status for each command.
pub fn one_status_is_due()
    ensures { OneStatusIsDue }
{}

/// A right report has at most 16 MiB.
pub fn right_reports_are_short()
    ensures { RightReportsAreShort }
{}

/// What `solve` writes for a game is accepted by `check` and shown by `show`.
pub fn solved_is_checked()
    ensures { SolvedIsChecked }
{}

/// What `solve` writes for a game gets its roster by each seed, or 8 where it has more than a million tickets.
pub fn solved_is_rostered()
    ensures { SolvedIsRostered }
{}

/// The status and the line of each refusal.
pub fn refusals_are_worked()
    ensures { WorkedRefusals }
{}

/// Files as long as they may be, and one byte longer.
pub fn limits_are_worked()
    ensures { WorkedLimits }
{}

/// What `check` and `show` answer for three reports on a small game.
pub fn checks_are_worked()
    ensures { WorkedChecks }
{}
