//! The tests of the root: a water level where the game declares a scale, else the tree.

ghost use Rattle.std.specs.Prelude.{◌≡◌, true};
ghost use Rattle.sg_model.specs.Limits.{is_scaled};
ghost use Rattle.sg_bounds.specs.Checking.{root_line};
ghost use Rattle.sg_bounds.specs.Trees.{node_of};
ghost use Rattle.sg_check.specs.Answering.{RootAnswers, held_line};
ghost use Rattle.sg_check.specs.Placing.{IsSetting};

use crate::numbers::Numbers;
use crate::refusal::Refusal;
use crate::top::{Top, raised, stated_value};
use crate::tree::test_split;
use crate::water::test_water;
use sg_game::Game;
use sg_tree::Report;

/// Whether a scale is declared.
fn is_scaled(game: &Game) -> bool
    ensures { result ≡ is_scaled game.now }
{
    0 < game.scale()
}

/// Tests the water level, which takes one line.
fn test_level(game: &Game, report: &Report, line: u64) -> Result<Top, Refusal>
    requires scaled { is_scaled game.now ≡ true }
    requires line { line ≡ held_line (root_line report.now) }
    ensures { RootAnswers game.now report.now (root_line report.now) (node_of report.now.tree) result }
{
    match test_water(game, report, line) {
        Ok(bound) => Ok(Top {
            next: line.saturating_add(1),
            best: raised(&stated_value(report), &Some(bound)),
        }),
        Err(refusal) => Err(refusal),
    }
}

/// Tests the root at its line.
pub(crate) fn test_root(
    game: &Game,
    report: &Report,
    numbers: &Numbers,
    line: u64,
) -> Result<Top, Refusal>
    requires setting { IsSetting game.now report.now numbers.now }
    requires line { line ≡ held_line (root_line report.now) }
    ensures { RootAnswers game.now report.now (root_line report.now) (node_of report.now.tree) result }
{
    if is_scaled(game) {
        test_level(game, report, line)
    } else {
        test_split(game, report, numbers, line)
    }
}
