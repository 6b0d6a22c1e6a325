//! The types that a node fixes, and their actions.

ghost use Rattle.std.specs.Prelude.{◌≡◌, ◌<◌, ◌≤◌, ◌+◌, length, slice_index};
ghost use Rattle.sg_bounds.specs.Regions.{IsFix, act_of};
ghost use Rattle.sg_game.specs.Counts.{IsActionOf, IsTypeOf};

use sg_fixed::FixedTypes;
use sg_game::Game;

/// The i-th fixed type, from 0.
pub(crate) fn type_at(game: &Game, fix: &FixedTypes, i: usize) -> u8
    requires is_fix { IsFix game.now fix.now }
    requires inside { i < length fix.now.acts }
    ensures number { result ≡ fix.now.first + i }
    ensures known { IsTypeOf game.now result }
{
    game.promises();
    fix.first() + i as u8
}

/// The action that it is fixed to.
pub(crate) fn act_at(game: &Game, fix: &FixedTypes, i: usize) -> u16
    requires is_fix { IsFix game.now fix.now }
    requires inside { i < length fix.now.acts }
    ensures number { result ≡ slice_index fix.now.acts i }
    ensures known { IsActionOf game.now (fix.now.first + i) result }
{
    fix.acts()[i]
}

/// The action that type `l` is fixed to.
pub(crate) fn act_of(game: &Game, fix: &FixedTypes, l: u8) -> u16
    requires is_fix { IsFix game.now fix.now }
    requires from_first { fix.now.first ≤ l }
    requires in_range { l < fix.now.first + length fix.now.acts }
    ensures act { result ≡ act_of fix.now l }
    ensures known { IsActionOf game.now l result }
{
    act_at(game, fix, (l - fix.first()) as usize)
}
