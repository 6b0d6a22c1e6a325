//! What `show` does: reads a game and a report on it, and writes the report as a table for people where it is accepted.

ghost use Rattle.std.specs.Prelude.{◌≡◌, ◌≢◌, ◌≤◌, IfOk, IfErr};
ghost use Rattle.sg_bounds.specs.Accepted.{IsAccepted};
ghost use Rattle.sg_report.specs.Tables.{IsReportTable};
ghost use Rattle.sg_cli.specs.Effects.{Fails, IsDone, surroundings};
ghost use Rattle.sg_cli.specs.Showing.{showing};

use crate::commitment::commitment_of;
use crate::judging::{Accepted, accepted_named};
use crate::refusal::Refusal;
use sg_report::{ShowFault, show_text};
use sg_shelf::{Shelf, Sink};
use std::alloc::{AllocError, Global};

/// The table of an accepted report.
fn table_of(alloc: Global, pair: Accepted) -> Result<Vec<u8>, AllocError>
    requires { IsAccepted pair.game pair.report }
    ensures { IfOk result (λ text. IsReportTable pair.game pair.report.tickets.tickets pair.report.upper text.items) }
{
    let Accepted { game, report } = pair;
    let upper = report.upper;
    let commitment = commitment_of(&game, report);
    match show_text(alloc, &game, &commitment, upper) {
        Ok(text) => Ok(text),
        Err(ShowFault::Memory) => Err(AllocError),
        Err(ShowFault::Wide(_)) => unreachable!(),
    }
}

/// Shows the report in the one file on the game in the other.
pub(crate) fn show_named<S: Shelf, O: Sink>(
    alloc: Global,
    name: &str,
    report: &str,
    shelf: &mut S,
    out: &mut O,
) -> Result<u8, Refusal>
    ensures files { (S.state shelf.new).files ≡ (S.state shelf.old).files }
    ensures faults { (S.state shelf.old).faults ≤ (S.state shelf.new).faults }
    ensures out_faults { (O.state out.old).faults ≤ (O.state out.new).faults }
    ensures kept { IfErr result (λ e. e ≢ Refusal.NotWritten → out.new ≡ out.old) }
    ensures ok { IfOk result (IsDone S.hands_over (showing name.now report.now)
        (surroundings (S.state shelf.old) (O.state out.old)) (surroundings (S.state shelf.new) (O.state out.new))) }
    ensures err { IfErr result (Fails S.hands_over (showing name.now report.now)
        (surroundings (S.state shelf.old) (O.state out.old)) (surroundings (S.state shelf.new) (O.state out.new))) }
{
    let pair = match accepted_named(alloc, name, report, shelf) {
        Ok(pair) => pair,
        Err(refusal) => return Err(refusal),
    };
    let text = match table_of(alloc, pair) {
        Ok(text) => text,
        Err(_) => return Err(Refusal::Memory),
    };
    match out.put(&text) {
        Ok(()) => Ok(0),
        Err(_) => Err(Refusal::NotWritten),
    }
}
