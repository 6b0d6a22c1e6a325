//! Reads games and reports from a shelf.

ghost use Rattle.std.specs.Prelude.{◌≡◌, ◌≤◌, IfOk, IfErr, Ok};
ghost use Rattle.sg_format.specs.GameFiles.{game_of_bytes};
ghost use Rattle.sg_cert.specs.Reading.{report_of};
ghost use Rattle.sg_cli.specs.Steps.{GivesContent, GivesNoGame, GivesNone, GivesNoReport, input};

use crate::input::{InputFault, InputKind};
use crate::refusal::Refusal;
use sg_cert_reader::{ReportError, read_report};
use sg_file::{GameError, read_game};
use sg_game::Game;
use sg_shelf::{Shelf, ShelfError};
use sg_tree::Report;
use std::alloc::Global;

/// The bytes of a file, where it is within the limit of its kind.
pub(crate) fn read_input<S: Shelf>(
    alloc: Global,
    shelf: &mut S,
    kind: InputKind,
    name: &str,
) -> Result<Vec<u8>, Refusal>
    ensures files { (S.state shelf.new).files ≡ (S.state shelf.old).files }
    ensures faults { (S.state shelf.old).faults ≤ (S.state shelf.new).faults }
    ensures ok { IfOk result (λ bytes. GivesContent S.hands_over (S.state shelf.old) (S.state shelf.new) (input kind name.now) bytes.items) }
    ensures err { IfErr result (GivesNone (S.state shelf.old) (S.state shelf.new) (input kind name.now)) }
{
    match shelf.read(alloc, name, kind.limit()) {
        Ok(bytes) => Ok(bytes),
        Err(ShelfError::Failed) => Err(Refusal::NotRead(kind)),
        Err(ShelfError::TooLong { seen: _ }) => Err(Refusal::TooLong(kind)),
        Err(ShelfError::Memory) => Err(Refusal::Memory),
    }
}

/// The game that the bytes give.
pub(crate) fn game_of(alloc: Global, bytes: &[u8]) -> Result<Game, Refusal>
    ensures ok { IfOk result (λ game. game_of_bytes bytes.now ≡ Ok game) }
    ensures err { IfErr result (GivesNoGame (game_of_bytes bytes.now)) }
{
    match read_game(alloc, bytes) {
        Ok(game) => Ok(game),
        Err(GameError::Refused(fault)) => Err(Refusal::Refused(InputFault::Game(fault))),
        Err(GameError::Memory) => Err(Refusal::Memory),
    }
}

/// The report that the bytes spell.
pub(crate) fn report_of(alloc: Global, bytes: &[u8]) -> Result<Report, Refusal>
    ensures ok { IfOk result (λ report. report_of bytes.now ≡ Ok report) }
    ensures err { IfErr result (GivesNoReport (report_of bytes.now)) }
{
    match read_report(alloc, bytes) {
        Ok(report) => Ok(report),
        Err(ReportError::Refused(fault)) => Err(Refusal::Refused(InputFault::Report(fault))),
        Err(ReportError::Memory) => Err(Refusal::Memory),
    }
}
