//! What the lines of a fact add up to, in one pass over them each: in the column of the whole, at each resource and each
//! target, and in the column of each target.

ghost use Rattle.std.specs.Prelude.{◌≡◌, ◌<◌, ◌≤◌, ◌+ℤ◌, ◌*ℤ◌, ℕ, length, pos, replicate, slice_index_or};
ghost use Rattle.sg_model.specs.Games.{resource_count};
ghost use Rattle.sg_game.specs.Counts.{IsGoalOf};
ghost use Rattle.sg_bounds.specs.Coverage.{always, covering};
ghost use Rattle.sg_cover_fact.specs.LineSums.{AreSummable, sum_in_column, held_sum, spent_sum};

use crate::entry::{add_covered, add_held, add_spent, whole_entry};
use crate::row::row_at;
use crate::step::{plus, times};
use sg_fixed::FixedTypes;
use sg_game::Game;
use sg_tree::Line;

/// The lines' sum in the column of the whole.
pub(crate) fn whole_sum(game: &Game, fix: &FixedTypes, lines: &[Line]) -> i128
    requires { AreSummable game.now fix.now lines.now }
    ensures { result ≡ sum_in_column game.now fix.now lines.now always }
{
    game.promises();
    let mut sum: i128 = 0;
    for line in lines {
        let row = row_at(game, fix, line.row as usize);
        let more = times(line.v, whole_entry(game, fix, row));
        sum = plus(sum, more);
    }
    sum
}

/// The lines' sum at each resource, added to zeros.
pub(crate) fn gather_spent(game: &Game, fix: &FixedTypes, lines: &[Line], spent: &mut [i128])
    requires summable { AreSummable game.now fix.now lines.now }
    requires room { resource_count game.now < length spent.old }
    requires fresh { spent.old ≡ replicate (length spent.old) (pos 0) }
    ensures { (r : ℕ) → slice_index_or spent.new r (pos 0) ≡ spent_sum game.now fix.now lines.now r }
{
    game.promises();
    for line in lines {
        let row = row_at(game, fix, line.row as usize);
        add_spent(row, line.v, spent);
    }
}

/// The lines' sum at each target that is held, added to zeros.
pub(crate) fn gather_held(game: &Game, fix: &FixedTypes, lines: &[Line], held: &mut [i128])
    requires summable { AreSummable game.now fix.now lines.now }
    requires room { length game.now.goals < length held.old }
    requires fresh { held.old ≡ replicate (length held.old) (pos 0) }
    ensures { (t : ℕ) → slice_index_or held.new t (pos 0) ≡ held_sum game.now fix.now lines.now t }
{
    game.promises();
    for line in lines {
        let row = row_at(game, fix, line.row as usize);
        add_held(row, line.v, held);
    }
}

/// The lines' sum in the column of each target, added to zeros.
pub(crate) fn gather_covered(game: &Game, fix: &FixedTypes, lines: &[Line], covered: &mut [i128])
    requires summable { AreSummable game.now fix.now lines.now }
    requires room { length game.now.goals < length covered.old }
    requires fresh { covered.old ≡ replicate (length covered.old) (pos 0) }
    ensures { (t : ℕ) → IsGoalOf game.now t → slice_index_or covered.new t (pos 0) ≡ sum_in_column game.now fix.now lines.now (covering t) }
{
    game.promises();
    for line in lines {
        let row = row_at(game, fix, line.row as usize);
        add_covered(game, fix, row, line.v, covered);
    }
}
