//! The tests of the upper bound and of the verdict.

ghost use Rattle.std.specs.Prelude.{◌≡◌, ◌∷◌, ◌↔◌, IsTrue};
ghost use Rattle.sg_bounds.specs.Accepted.{IsGreatest, IsSame, is_optimal};
ghost use Rattle.sg_bounds.specs.Checking.{end_stops, upper_line};
ghost use Rattle.sg_bounds.specs.Leaves.{tree_bounds_of};
ghost use Rattle.sg_bounds.specs.Trees.{node_of};
ghost use Rattle.sg_check.specs.Answering.{AnswersTests, IsGreatestBound, held_line};

use crate::quotient::is_same;
use crate::refusal::Refusal;
use crate::top::Top;
use sg_game::Game;
use sg_tree::{Ending, Report};

/// Whether a report says that its bounds meet.
pub(crate) fn is_optimal(report: &Report) -> bool
    ensures { result ≡ is_optimal report.now.ending }
{
    match &report.ending {
        Ending::Optimal => true,
        Ending::Gap(_) => false,
    }
}

/// Whether the value is the upper bound.
fn bounds_meet(report: &Report) -> bool
    ensures { IsTrue result ↔ IsSame report.now.value report.now.upper }
{
    let _value = report.value.den();
    let _upper = report.upper.den();
    is_same(&report.value, &report.upper)
}

/// Whether a report says that its bounds meet just where they do.
fn has_ending(report: &Report) -> bool
    ensures { IsTrue result ↔ (IsTrue (is_optimal report.now.ending) ↔ IsSame report.now.value report.now.upper) }
{
    if bounds_meet(report) {
        is_optimal(report)
    } else {
        !is_optimal(report)
    }
}

/// Tests the upper bound against the greatest of the value and the leaves' bounds, and then the verdict.
pub(crate) fn test_ending(game: &Game, report: &Report, top: &Top) -> Result<(), Refusal>
    requires top { IsGreatestBound top.now.best (report.now.value ∷ tree_bounds_of game.now report.now.caps (node_of report.now.tree)) }
    requires line { top.now.next ≡ held_line (upper_line report.now) }
    ensures { AnswersTests game.now report.now (end_stops report.now) result }
{
    let _upper = report.upper.den();
    if !is_same(&top.best, &report.upper) {
        return Err(Refusal {
            line: top.next,
            reason: 7,
        });
    }
    if !has_ending(report) {
        return Err(Refusal {
            line: top.next.saturating_add(1),
            reason: 8,
        });
    }
    Ok(())
}
