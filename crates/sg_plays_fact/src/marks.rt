//! Whether the marks of a fact may stand at its node.

ghost use Rattle.std.specs.Prelude.{◌↔◌, ◌≤◌, ◌<◌, ◌+◌, All, IsTrue, length};
ghost use Rattle.sg_bounds.specs.Facts.{IsMarkOf};
ghost use Rattle.sg_bounds.specs.Regions.{IsFix};

use crate::fixed::act_of;
use sg_fixed::FixedTypes;
use sg_game::Game;
use sg_tree::Mark;

/// Whether the mark's type is fixed.
fn has_type(fix: &FixedTypes, l: u8) -> bool
    ensures { IsTrue result ↔ ((fix.now.first ≤ l) × (l < fix.now.first + length fix.now.acts)) }
{
    fix.first() <= l && ((l - fix.first()) as usize) < fix.count()
}

/// Whether the mark may stand at the node: it compares another action of a fixed type with the fixed one, and its multiplier is at least 1.
fn is_mark(game: &Game, fix: &FixedTypes, mark: &Mark) -> bool
    requires { IsFix game.now fix.now }
    ensures { IsTrue result ↔ IsMarkOf game.now fix.now mark.now }
{
    let _types = game.types();
    if !has_type(fix, mark.l) {
        return false;
    }
    if mark.a == act_of(game, fix, mark.l) {
        return false;
    }
    1 <= mark.a && mark.a <= game.actions(mark.l) && 1 <= mark.v
}

/// Whether all marks may stand there.
pub(crate) fn are_marks(game: &Game, fix: &FixedTypes, marks: &[Mark]) -> bool
    requires { IsFix game.now fix.now }
    ensures { IsTrue result ↔ All (IsMarkOf game.now fix.now) marks.now }
{
    for mark in marks {
        if !is_mark(game, fix, mark) {
            return false;
        }
    }
    true
}
