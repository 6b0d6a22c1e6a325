//! What `roster` does: reads a game and a report on it, and writes a day's patrols for each ticket of the report where it is
//! accepted.

ghost use Rattle.std.specs.Prelude.{◌≡◌, ◌≢◌, ◌≤◌, IfOk, IfErr};
ghost use Rattle.sg_cli.specs.Effects.{Fails, IsDone, Stops, surroundings};
ghost use Rattle.sg_cli.specs.Judging.{IsJudged};
ghost use Rattle.sg_cli.specs.Rostering.{rostering, rostering_plan};
ghost use Rattle.sg_cli.specs.RosterSteps.{HasOrder, HasRoster, OrderFails};

use crate::commitment::commitment_of;
use crate::judging::{Accepted, accepted_named};
use crate::refusal::{CommandRefusal, Refusal};
use sg_commit::Commitment;
use sg_game::Game;
use sg_roster::{RowsFault, put_rows, roster};
use sg_shelf::{Shelf, Sink};
use sg_tickets::LongFault;
use std::alloc::Global;

/// The tickets of an accepted report, in the order of the days.
#[derive(Drop)]
struct Ordered {
    game: Game,
    tickets: Commitment,
    days: Vec<u32>,
}

/// The tickets of an accepted report in the order of a seed, where they are no more than a roster may have days.
fn in_order(alloc: Global, pair: Accepted, seed: u64) -> Result<Ordered, Refusal>
    requires { IsJudged pair.game pair.report }
    ensures ok { IfOk result (λ o. HasOrder pair.game pair.report seed o.game o.tickets o.days.items) }
    ensures err { IfErr result (OrderFails pair.report) }
{
    let Accepted { game, report } = pair;
    let tickets = commitment_of(&game, report);
    match roster(alloc, &tickets, seed) {
        Ok(days) => Ok(Ordered {
            game,
            tickets,
            days,
        }),
        Err(LongFault::TooLong(total)) => {
            Err(Refusal::Own(CommandRefusal::RosterTooLong { total }))
        }
        Err(LongFault::Memory) => Err(Refusal::Memory),
    }
}

/// The tickets of the report in the one file on the game in the other, in the order of a seed.
fn in_order_named<S: Shelf>(
    alloc: Global,
    name: &str,
    report: &str,
    seed: u64,
    shelf: &mut S,
) -> Result<Ordered, Refusal>
    ensures files { (S.state shelf.new).files ≡ (S.state shelf.old).files }
    ensures faults { (S.state shelf.old).faults ≤ (S.state shelf.new).faults }
    ensures ok { IfOk result (λ o. HasRoster S.hands_over name.now report.now seed (S.state shelf.old) (S.state shelf.new) o.game o.tickets o.days.items) }
    ensures err { IfErr result (Stops S.hands_over (rostering_plan name.now report.now) (S.state shelf.old) (S.state shelf.new)) }
{
    let pair = match accepted_named(alloc, name, report, shelf) {
        Ok(pair) => pair,
        Err(refusal) => return Err(refusal),
    };
    match in_order(alloc, pair, seed) {
        Ok(ordered) => Ok(ordered),
        Err(refusal) => Err(refusal),
    }
}

/// Writes the roster of the report in the one file on the game in the other, in the order of a seed.
pub(crate) fn roster_named<S: Shelf, O: Sink>(
    alloc: Global,
    name: &str,
    report: &str,
    seed: u64,
    shelf: &mut S,
    out: &mut O,
) -> Result<u8, Refusal>
    ensures files { (S.state shelf.new).files ≡ (S.state shelf.old).files }
    ensures faults { (S.state shelf.old).faults ≤ (S.state shelf.new).faults }
    ensures out_faults { (O.state out.old).faults ≤ (O.state out.new).faults }
    ensures kept { IfErr result (λ e. e ≢ Refusal.NotWritten → e ≢ Refusal.Memory → out.new ≡ out.old) }
    ensures ok { IfOk result (IsDone S.hands_over (rostering name.now report.now seed)
        (surroundings (S.state shelf.old) (O.state out.old)) (surroundings (S.state shelf.new) (O.state out.new))) }
    ensures err { IfErr result (Fails S.hands_over (rostering name.now report.now seed)
        (surroundings (S.state shelf.old) (O.state out.old)) (surroundings (S.state shelf.new) (O.state out.new))) }
{
    let ordered = match in_order_named(alloc, name, report, seed, shelf) {
        Ok(ordered) => ordered,
        Err(refusal) => return Err(refusal),
    };
    match put_rows(alloc, &ordered.game, &ordered.tickets, &ordered.days, out) {
        Ok(()) => Ok(0),
        Err(RowsFault::Failed) => Err(Refusal::NotWritten),
        Err(RowsFault::Memory) => Err(Refusal::Memory),
    }
}
