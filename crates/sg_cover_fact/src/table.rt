//! The inequalities of the table's columns, by kind: of the whole, of the resources' choices, of the targets.

ghost use Rattle.std.specs.Prelude.{◌≡◌, ◌↔◌, ◌≤◌, ◌*ℤ◌, ◌≤ℤ◌, ℕ, IsTrue, length, pos};
ghost use Rattle.sg_model.specs.Games.{resource_schedules};
ghost use Rattle.sg_game.specs.Counts.{IsGoalOf, IsResourceOf};
ghost use Rattle.sg_bounds.specs.Coverage.{always, chooses, column_cost, covering};
ghost use Rattle.sg_cover_fact.specs.Holding.{ColumnHolds};
ghost use Rattle.sg_cover_fact.specs.LineSums.{AreSummable, IsTestable, sum_in_column};

use crate::column::{resources_hold, targets_hold, whole_holds};
use crate::gather::{gather_covered, gather_held, gather_spent, whole_sum};
use sg_fixed::FixedTypes;
use sg_game::Game;
use sg_tree::Line;

/// One more than the greatest number of targets.
const TARGET_ROOM: usize = 10_001;

/// One more than the greatest number of resources.
const RESOURCE_ROOM: usize = 201;

/// Whether the inequality of the whole holds.
pub(crate) fn whole_column_holds(
    game: &Game,
    fix: &FixedTypes,
    rho: i128,
    mu: i128,
    lines: &[Line],
) -> bool
    requires { IsTestable game.now fix.now rho lines.now }
    ensures { IsTrue result ↔ ColumnHolds game.now fix.now rho mu lines.now always }
{
    game.promises();
    let sum = whole_sum(game, fix, lines);
    whole_holds(game, fix, rho, mu, sum)
}

/// Whether the lines' sum in the column of each choice of each resource is at least 0: such a column is worth nothing.
pub(crate) fn choice_columns_hold(game: &Game, fix: &FixedTypes, lines: &[Line]) -> bool
    requires { AreSummable game.now fix.now lines.now }
    ensures { IsTrue result ↔ ((r j : ℕ) → IsResourceOf game.now r → 1 ≤ j → j ≤ length (resource_schedules game.now r) → pos 0 ≤ℤ sum_in_column game.now fix.now lines.now (chooses r j)) }
{
    game.promises();
    let _resources = game.resources();
    let _targets = game.targets();
    let mut spent = [0i128; RESOURCE_ROOM];
    let mut held = [0i128; TARGET_ROOM];
    gather_spent(game, fix, lines, &mut spent);
    gather_held(game, fix, lines, &mut held);
    resources_hold(game, &spent, &held)
}

/// Whether rho times the worth of the column of each target is at most the lines' sum in it.
pub(crate) fn target_columns_hold(game: &Game, fix: &FixedTypes, rho: i128, lines: &[Line]) -> bool
    requires { IsTestable game.now fix.now rho lines.now }
    ensures { IsTrue result ↔ ((t : ℕ) → IsGoalOf game.now t → (rho *ℤ column_cost game.now fix.now (covering t)) ≤ℤ sum_in_column game.now fix.now lines.now (covering t)) }
{
    game.promises();
    let _targets = game.targets();
    let mut covered = [0i128; TARGET_ROOM];
    gather_covered(game, fix, lines, &mut covered);
    targets_hold(game, fix, rho, &covered)
}
