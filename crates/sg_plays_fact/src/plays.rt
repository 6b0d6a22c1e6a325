//! A fact over the legal plays of a game in security form.

ghost use Rattle.std.specs.Prelude.{◌≡◌, ◌↔◌, ◌≤◌, ℕ, IsTrue, false, length, pos, replicate};
ghost use Rattle.sg_model.specs.Games.{is_matrix, resource_count};
ghost use Rattle.sg_model.specs.Limits.{IsCount};
ghost use Rattle.sg_model.specs.Sums.{nth};
ghost use Rattle.sg_plays_fact.specs.Measuring.{AreMeasures};
ghost use Rattle.sg_plays_fact.specs.Testing.{IsSizedFact, NonePlaysAbove, play_sum};

use crate::measures::Measures;
use crate::play::play_sum;
use crate::search::stays_within;
use crate::stated::Stated;
use crate::weights::weigh;
use sg_fixed::FixedTypes;
use sg_game::Game;
use sg_model::limit::{SCALED_PATROL_LIMIT, SCALED_TARGET_LIMIT, TARGET_LIMIT};
use sg_tree::Mark;

/// The fact's sum for the play in which each resource is idle.
fn idle_sum(
    game: &Game,
    measures: &Measures,
    fix: &FixedTypes,
    stated: &Stated,
    marks: &[Mark],
) -> i128
    requires security { is_matrix game.now ≡ false }
    requires measures { AreMeasures game.now measures.now }
    requires sized { IsSizedFact game.now fix.now stated.now marks.now }
    ensures { result ≡ play_sum game.now fix.now stated.now.rho marks.now (replicate (resource_count game.now) 0) }
{
    let idle = [0; SCALED_PATROL_LIMIT];
    play_sum(
        game,
        measures,
        fix,
        stated,
        marks,
        &idle[..game.resources() as usize],
    )
}

/// Whether the fact's sum is at most `mu` for each legal play; the weights of the targets, all 0 before, are formed in the room for them.
fn plays_hold_in(
    game: &Game,
    measures: &Measures,
    fix: &FixedTypes,
    stated: &Stated,
    marks: &[Mark],
    weights: &mut [i128],
) -> bool
    requires security { is_matrix game.now ≡ false }
    requires one_each { length weights.old ≡ length game.now.goals }
    requires zero { (t : ℕ) → IsCount 1 (length weights.old) t → nth weights.old t (pos 0) ≡ pos 0 }
    requires measures { AreMeasures game.now measures.now }
    requires sized { IsSizedFact game.now fix.now stated.now marks.now }
    ensures { IsTrue result ↔ NonePlaysAbove game.now fix.now stated.now marks.now }
{
    game.promises();
    let _targets = game.targets();
    weigh(game, fix, stated, marks, weights);
    let idle = idle_sum(game, measures, fix, stated, marks);
    stays_within(
        game,
        weights,
        stated.mu,
        &[false; SCALED_TARGET_LIMIT],
        0,
        idle,
    )
}

/// Whether the fact's sum is at most `mu` for each legal play of a game without a scale, which has few targets.
fn plays_hold_of_few(
    game: &Game,
    measures: &Measures,
    fix: &FixedTypes,
    stated: &Stated,
    marks: &[Mark],
) -> bool
    requires security { is_matrix game.now ≡ false }
    requires few { length game.now.goals ≤ TARGET_LIMIT }
    requires measures { AreMeasures game.now measures.now }
    requires sized { IsSizedFact game.now fix.now stated.now marks.now }
    ensures { IsTrue result ↔ NonePlaysAbove game.now fix.now stated.now marks.now }
{
    let mut room = [0i128; TARGET_LIMIT];
    let weights = &mut room[..game.targets() as usize];
    plays_hold_in(game, measures, fix, stated, marks, weights)
}

/// Whether the fact's sum is at most `mu` for each legal play, however many targets there are.
fn plays_hold_of_many(
    game: &Game,
    measures: &Measures,
    fix: &FixedTypes,
    stated: &Stated,
    marks: &[Mark],
) -> bool
    requires security { is_matrix game.now ≡ false }
    requires measures { AreMeasures game.now measures.now }
    requires sized { IsSizedFact game.now fix.now stated.now marks.now }
    ensures { IsTrue result ↔ NonePlaysAbove game.now fix.now stated.now marks.now }
{
    let mut room = [0i128; SCALED_TARGET_LIMIT];
    let weights = &mut room[..game.targets() as usize];
    plays_hold_in(game, measures, fix, stated, marks, weights)
}

/// Whether the fact's sum is at most `mu` for each legal play.
pub(crate) fn plays_hold(
    game: &Game,
    measures: &Measures,
    fix: &FixedTypes,
    stated: &Stated,
    marks: &[Mark],
) -> bool
    requires security { is_matrix game.now ≡ false }
    requires measures { AreMeasures game.now measures.now }
    requires sized { IsSizedFact game.now fix.now stated.now marks.now }
    ensures { IsTrue result ↔ NonePlaysAbove game.now fix.now stated.now marks.now }
{
    if game.targets() as usize <= TARGET_LIMIT {
        plays_hold_of_few(game, measures, fix, stated, marks)
    } else {
        plays_hold_of_many(game, measures, fix, stated, marks)
    }
}
