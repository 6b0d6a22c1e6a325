//! The types that a node fixes, and their actions.

ghost use Rattle.std.specs.Prelude.{◌≡◌, ◌<◌, ◌≤◌, ◌+◌, length, slice_index};
ghost use Rattle.sg_model.specs.declared.kind.Kind.TheVariants.{Security};
ghost use Rattle.sg_bounds.specs.Regions.{IsFix, act_of};
ghost use Rattle.sg_game.specs.Counts.{IsGoalOf, IsTypeOf};

use sg_game::Game;
use sg_tree::Fix;

/// The i-th fixed type, from 0.
pub(crate) fn type_at(game: &Game, fix: &Fix, i: usize) -> u8
    requires is_fix { IsFix game.now fix.now }
    requires inside { i < length fix.now.acts }
    ensures number { result ≡ fix.now.first + i }
    ensures known { IsTypeOf game.now result }
{
    game.promises();
    fix.first + i as u8
}

/// The target that it is fixed to.
pub(crate) fn target_at(game: &Game, fix: &Fix, i: usize) -> u16
    requires security { game.now.kind ≡ Security }
    requires is_fix { IsFix game.now fix.now }
    requires inside { i < length fix.now.acts }
    ensures number { result ≡ slice_index fix.now.acts i }
    ensures known { IsGoalOf game.now result }
{
    fix.acts.as_slice()[i]
}

/// The target that type `l` is fixed to.
pub(crate) fn own_target(game: &Game, fix: &Fix, l: u8) -> u16
    requires security { game.now.kind ≡ Security }
    requires is_fix { IsFix game.now fix.now }
    requires from_first { fix.now.first ≤ l }
    requires in_range { l < fix.now.first + length fix.now.acts }
    ensures number { result ≡ act_of fix.now l }
    ensures known { IsGoalOf game.now result }
{
    target_at(game, fix, (l - fix.first) as usize)
}
