//! The tests in order, and the verdict.

ghost use Rattle.std.specs.Prelude.{◌≡◌, ◌+◌, IfOk, IsOk, Ok, ℕ};
ghost use Rattle.sg_bounds.specs.Checking.{IsReportValue, IsRefused, stops_of, value_line};
ghost use Rattle.sg_check.specs.Answering.{AnswersTests, held_line};
ghost use Rattle.sg_check.specs.Parts.{closing_stops, opening_stops};
ghost use Rattle.sg_check.specs.Verdicts.{IsAcceptedGap, IsAcceptedOptimal, IsYes, Judges, Proves};

use crate::caps::test_caps;
use crate::ending::{is_optimal, test_ending};
use crate::numbers::numbers_of;
use crate::refusal::Refusal;
use crate::root::test_root;
use crate::tickets::{test_plays, test_total};
use crate::value::test_value;
use crate::verdict::Verdict;
use sg_bounds::{accepted_means, passing_is_acceptance, refusal_is_one};
use sg_game::Game;
use sg_tree::Report;
use std::alloc::{AllocError, Global};

/// Tests the tickets, their total and their value.
fn test_opening(game: &Game, report: &Report) -> Result<(), Refusal>
    ensures { AnswersTests game.now report.now (opening_stops report.now) result }
{
    match test_plays(game, report) {
        Ok(()) => match test_total(game, report) {
            Ok(()) => test_value(game, report),
            Err(refusal) => Err(refusal),
        },
        Err(refusal) => Err(refusal),
    }
}

/// The line behind the value.
fn caps_line(report: &Report) -> u64
    ensures { result ≡ held_line (value_line report.now + 1) }
{
    4u64.saturating_add(report.tickets.tickets().len() as u64)
}

/// Tests the caps, the tree, the upper bound and the verdict.
fn test_closing(game: &Game, report: &Report) -> Result<(), Refusal>
    ensures { AnswersTests game.now report.now (closing_stops game.now report.now) result }
{
    let numbers = numbers_of(game);
    match test_caps(game, report, &numbers, caps_line(report)) {
        Ok(line) => match test_root(game, report, &numbers, line) {
            Ok(top) => test_ending(game, report, &top),
            Err(refusal) => Err(refusal),
        },
        Err(refusal) => Err(refusal),
    }
}

/// The first test that fails, of all.
fn tested(game: &Game, report: &Report) -> Result<(), Refusal>
    ensures { AnswersTests game.now report.now (stops_of game.now report.now) result }
{
    match test_opening(game, report) {
        Ok(()) => test_closing(game, report),
        Err(refusal) => Err(refusal),
    }
}

/// Nothing: its contract says what every report keeps.
fn keeps_form(report: &Report)
    ensures { IsReportValue report.now }
{
    let _tickets = report.tickets.tickets();
    let _value = report.value.den();
    let _upper = report.upper.den();
}

/// The verdict on a report whose tests all pass.
fn yes(report: &Report) -> Verdict
    ensures { IsYes report.now result }
{
    if is_optimal(report) {
        Verdict::YesOptimal(report.value)
    } else {
        Verdict::YesGap(report.value, report.upper)
    }
}

/// What the report proves for the game: that its tickets are optimal, or the bounds of their gap; or the first test that
/// fails. It takes every game and every report.
///
/// A yes comes exactly where the report is accepted, and a no exactly where it is refused, with its line and reason. It
/// shares no sum, walk or search with the solver. No call wants memory.
pub fn check(_alloc: Global, game: &Game, report: &Report) -> Result<Verdict, AllocError>
    ensures judged { IfOk result (Judges game.now report.now) }
    ensures optimal { IsAcceptedOptimal game.now report.now → result ≡ Ok (Verdict.YesOptimal report.now.value) }
    ensures gap { IsAcceptedGap game.now report.now → result ≡ Ok (Verdict.YesGap report.now.value report.now.upper) }
    ensures refused { (line reason : ℕ) → IsRefused game.now report.now line reason → result ≡ Ok (Verdict.No line reason) }
    ensures answered { IsOk result }

    // A yes alone, whoever wrote the report, means that the tickets are legal and have exactly this value, and that no
    // commitment has more than the upper bound, or than the tickets.
    ensures means { IfOk result (Proves game.now report.now) }
{
    game.promises();
    accepted_means();
    passing_is_acceptance();
    refusal_is_one();
    keeps_form(report);
    match tested(game, report) {
        Ok(()) => Ok(yes(report)),
        Err(refusal) => Ok(Verdict::No {
            line: refusal.line,
            reason: refusal.reason,
        }),
    }
}
