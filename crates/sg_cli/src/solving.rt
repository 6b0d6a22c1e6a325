//! What `solve` does: reads a game, solves it, and writes its report.

ghost use Rattle.std.specs.Prelude.{◌≡◌, ◌≢◌, ◌≤◌, ◌↔◌, IfOk, IfErr, IsTrue};
ghost use Rattle.sg_options.specs.Options.{IsBudget, IsOrder};
ghost use Rattle.sg_solve.specs.Answers.{IsServed};
ghost use Rattle.sg_cli.specs.Effects.{Fails, IsDone, Stops, surroundings};
ghost use Rattle.sg_cli.specs.Solving.{IsSolved, solving};
ghost use Rattle.sg_cli.specs.Steps.{HasSolution, IsSolution, SolvingFails};

use crate::checking::yes_status;
use crate::input::InputKind;
use crate::ranges::lies_in_ranges;
use crate::reading::{game_of, read_input};
use crate::refusal::{CommandRefusal, Refusal};
use sg_cert_writer::write_report;
use sg_game::{Game, is_origami, plays_count};
use sg_options::{Budget, Order};
use sg_shelf::{Shelf, Sink};
use sg_solve::solve;
use sg_tree::Report;
use std::alloc::{AllocError, Global};

/// Whether the game is one that is served.
fn is_served(game: &Game) -> bool
    ensures { IsTrue result ↔ IsServed game.now }
{
    if is_origami(game) {
        return true;
    }
    match plays_count(game) {
        Some(count) => count <= 4096,
        None => false,
    }
}

/// An answer for the game, whose text is a report text.
fn report_on(
    alloc: Global,
    game: &Game,
    budget: &Budget,
    order: &Order,
) -> Result<Report, AllocError>
    requires budget { IsBudget budget.now }
    requires order { IsOrder order.now }
    requires served { IsServed game.now }
    ensures { IfOk result (IsSolved game.now budget.now order.now) }
{
    let answer = solve(alloc, game, budget, order)?;
    lies_in_ranges(game, budget, order, &answer);
    Ok(answer.report)
}

/// An answer for the game, where it is one that is served.
fn solved(alloc: Global, game: &Game, budget: &Budget, order: &Order) -> Result<Report, Refusal>
    requires budget { IsBudget budget.now }
    requires order { IsOrder order.now }
    ensures ok { IfOk result (IsSolution game.now budget.now order.now) }
    ensures err { IfErr result (SolvingFails game.now) }
{
    if !is_served(game) {
        return Err(Refusal::Own(CommandRefusal::NotYet));
    }
    match report_on(alloc, game, budget, order) {
        Ok(report) => Ok(report),
        Err(_) => Err(Refusal::Memory),
    }
}

/// An answer for the game in the file of that name.
fn solution_named<S: Shelf>(
    alloc: Global,
    name: &str,
    budget: &Budget,
    order: &Order,
    shelf: &mut S,
) -> Result<Report, Refusal>
    requires budget { IsBudget budget.now }
    requires order { IsOrder order.now }
    ensures files { (S.state shelf.new).files ≡ (S.state shelf.old).files }
    ensures faults { (S.state shelf.old).faults ≤ (S.state shelf.new).faults }
    ensures ok { IfOk result (HasSolution S.hands_over name.now budget.now order.now (S.state shelf.old) (S.state shelf.new)) }
    ensures err { IfErr result (Stops S.hands_over (solving name.now budget.now order.now).plan (S.state shelf.old) (S.state shelf.new)) }
{
    let bytes = match read_input(alloc, shelf, InputKind::Game, name) {
        Ok(bytes) => bytes,
        Err(refusal) => return Err(refusal),
    };
    let game = match game_of(alloc, &bytes) {
        Ok(game) => game,
        Err(refusal) => return Err(refusal),
    };
    match solved(alloc, &game, budget, order) {
        Ok(report) => Ok(report),
        Err(refusal) => Err(refusal),
    }
}

/// Solves the game in the file of that name with this budget in this order, and writes its report.
pub(crate) fn solve_named<S: Shelf, O: Sink>(
    alloc: Global,
    name: &str,
    budget: &Budget,
    order: &Order,
    shelf: &mut S,
    out: &mut O,
) -> Result<u8, Refusal>
    requires budget { IsBudget budget.now }
    requires order { IsOrder order.now }
    ensures files { (S.state shelf.new).files ≡ (S.state shelf.old).files }
    ensures faults { (S.state shelf.old).faults ≤ (S.state shelf.new).faults }
    ensures out_faults { (O.state out.old).faults ≤ (O.state out.new).faults }
    ensures kept { IfErr result (λ e. e ≢ Refusal.NotWritten → out.new ≡ out.old) }
    ensures ok { IfOk result (IsDone S.hands_over (solving name.now budget.now order.now)
        (surroundings (S.state shelf.old) (O.state out.old)) (surroundings (S.state shelf.new) (O.state out.new))) }
    ensures err { IfErr result (Fails S.hands_over (solving name.now budget.now order.now)
        (surroundings (S.state shelf.old) (O.state out.old)) (surroundings (S.state shelf.new) (O.state out.new))) }
{
    let report = match solution_named(alloc, name, budget, order, shelf) {
        Ok(report) => report,
        Err(refusal) => return Err(refusal),
    };
    match write_report(&report, out) {
        Ok(()) => Ok(yes_status(&report)),
        Err(_) => Err(Refusal::NotWritten),
    }
}
