//! What `check` does: reads a game and a report on it, and says yes where the report is accepted.

ghost use Rattle.std.specs.Prelude.{◌≡◌, ◌≢◌, ◌≤◌, IfOk, IfErr, string_bytes};
ghost use Rattle.sg_bounds.specs.Accepted.{is_optimal};
ghost use Rattle.sg_cli.specs.Checking.{checking, gap_text, optimal_text, yes_status, yes_text};
ghost use Rattle.sg_cli.specs.Effects.{Fails, IsDone, surroundings};

use crate::judging::accepted_named;
use crate::refusal::Refusal;
use sg_frac::Frac;
use sg_shelf::{Shelf, Sink};
use sg_tree::{Ending, Report};
use std::alloc::{AllocError, Global};

/// Whether the report says that its bounds meet.
fn is_optimal(report: &Report) -> bool
    ensures { result ≡ is_optimal report.now.ending }
{
    match report.ending {
        Ending::Optimal => true,
        Ending::Gap(_) => false,
    }
}

/// The line that accepts a report of this value, whose bounds meet.
fn optimal_line(alloc: Global, value: Frac) -> Result<String, AllocError>
    ensures { IfOk result (λ text. string_bytes text ≡ optimal_text value) }
{
    format!(in alloc; "yes optimal {} {}\n", value.num(), value.den())
}

/// The line that accepts a report with this value and this upper bound.
fn gap_line(alloc: Global, value: Frac, upper: Frac) -> Result<String, AllocError>
    ensures { IfOk result (λ text. string_bytes text ≡ gap_text value upper) }
{
    format!(in alloc;
        "yes gap {} {} {} {}\n",
        value.num(),
        value.den(),
        upper.num(),
        upper.den()
    )
}

/// The line that accepts the report.
fn yes_line(alloc: Global, report: &Report) -> Result<String, AllocError>
    ensures { IfOk result (λ text. string_bytes text ≡ yes_text report.now) }
{
    if is_optimal(report) {
        optimal_line(alloc, report.value)
    } else {
        gap_line(alloc, report.value, report.upper)
    }
}

/// The status that accepts it.
pub(crate) fn yes_status(report: &Report) -> u8
    ensures { result ≡ yes_status report.now }
{
    if is_optimal(report) { 0 } else { 10 }
}

/// Checks the report in the one file on the game in the other, and says yes.
pub(crate) fn check_named<S: Shelf, O: Sink>(
    alloc: Global,
    name: &str,
    report: &str,
    shelf: &mut S,
    out: &mut O,
) -> Result<u8, Refusal>
    ensures files { (S.state shelf.new).files ≡ (S.state shelf.old).files }
    ensures faults { (S.state shelf.old).faults ≤ (S.state shelf.new).faults }
    ensures out_faults { (O.state out.old).faults ≤ (O.state out.new).faults }
    ensures kept { IfErr result (λ e. e ≢ Refusal.NotWritten → out.new ≡ out.old) }
    ensures ok { IfOk result (IsDone S.hands_over (checking name.now report.now)
        (surroundings (S.state shelf.old) (O.state out.old)) (surroundings (S.state shelf.new) (O.state out.new))) }
    ensures err { IfErr result (Fails S.hands_over (checking name.now report.now)
        (surroundings (S.state shelf.old) (O.state out.old)) (surroundings (S.state shelf.new) (O.state out.new))) }
{
    let pair = match accepted_named(alloc, name, report, shelf) {
        Ok(pair) => pair,
        Err(refusal) => return Err(refusal),
    };
    let line = match yes_line(alloc, &pair.report) {
        Ok(line) => line,
        Err(_) => return Err(Refusal::Memory),
    };
    match out.put(line.as_bytes()) {
        Ok(()) => Ok(yes_status(&pair.report)),
        Err(_) => Err(Refusal::NotWritten),
    }
}
