//! Reads a game and a report on it, and checks the report.

ghost use Rattle.std.specs.Prelude.{◌≡◌, ◌≤◌, IfOk, IfErr, OnOk, [], ◌∷◌};
ghost use Rattle.sg_cli.specs.Inputs as inputs;
ghost use Rattle.sg_cli.specs.Effects.{Stops};
ghost use Rattle.sg_cli.specs.Judging.{IsJudged, judging, refuses_wrong};
ghost use Rattle.sg_cli.specs.Steps.{HasAccepted};

use crate::input::InputKind;
use crate::reading::{game_of, read_input, report_of};
use crate::refusal::{CommandRefusal, Refusal};
use sg_check::{Verdict, check};
use sg_game::Game;
use sg_shelf::Shelf;
use sg_tree::Report;
use std::alloc::Global;

/// A game, and a report that is accepted for it.
#[derive(Drop)]
pub(crate) struct Accepted {
    pub(crate) game: Game,
    pub(crate) report: Report,
}

/// Checks a report.
fn judge(alloc: Global, game: &Game, report: &Report) -> Result<(), CommandRefusal>
    ensures ok { OnOk result (IsJudged game.now report.now) }
    ensures err { IfErr result (refuses_wrong (inputs.game game.now ∷ inputs.report report.now ∷ [])) }
{
    match check(alloc, game, report) {
        Ok(Verdict::YesOptimal(_)) => Ok(()),
        Ok(Verdict::YesGap(_, _)) => Ok(()),
        Ok(Verdict::No { line, reason }) => Err(CommandRefusal::ReportWrong { line, reason }),
        Err(_) => unreachable!(),
    }
}

/// The game and the report in the files of these names, where the report is accepted for the game.
pub(crate) fn accepted_named<S: Shelf>(
    alloc: Global,
    name: &str,
    report: &str,
    shelf: &mut S,
) -> Result<Accepted, Refusal>
    ensures files { (S.state shelf.new).files ≡ (S.state shelf.old).files }
    ensures faults { (S.state shelf.old).faults ≤ (S.state shelf.new).faults }
    ensures ok { IfOk result (λ pair. HasAccepted S.hands_over (judging name.now report.now) (S.state shelf.old) (S.state shelf.new) pair.game pair.report) }
    ensures err { IfErr result (Stops S.hands_over (judging name.now report.now) (S.state shelf.old) (S.state shelf.new)) }
{
    let game_bytes = match read_input(alloc, shelf, InputKind::Game, name) {
        Ok(bytes) => bytes,
        Err(refusal) => return Err(refusal),
    };
    let game = match game_of(alloc, &game_bytes) {
        Ok(game) => game,
        Err(refusal) => return Err(refusal),
    };
    let report_bytes = match read_input(alloc, shelf, InputKind::Report, report) {
        Ok(bytes) => bytes,
        Err(refusal) => return Err(refusal),
    };
    let read = match report_of(alloc, &report_bytes) {
        Ok(read) => read,
        Err(refusal) => return Err(refusal),
    };
    match judge(alloc, &game, &read) {
        Ok(()) => Ok(Accepted { game, report: read }),
        Err(own) => Err(Refusal::Own(own)),
    }
}
