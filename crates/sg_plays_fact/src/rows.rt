//! A fact over the rows of a game in matrix form.

ghost use Rattle.std.specs.Prelude.{◌≡◌, ◌↔◌, IsTrue, true};
ghost use Rattle.sg_model.specs.Games.{is_matrix};
ghost use Rattle.sg_plays_fact.specs.Measuring.{AreMeasures};
ghost use Rattle.sg_plays_fact.specs.Testing.{IsSizedFact, NonePlaysAbove};

use crate::measures::Measures;
use crate::play::play_sum;
use crate::stated::Stated;
use sg_fixed::FixedTypes;
use sg_game::Game;
use sg_tree::Mark;

/// Whether the fact's sum is at most `mu` for each row.
pub(crate) fn rows_hold(
    game: &Game,
    measures: &Measures,
    fix: &FixedTypes,
    stated: &Stated,
    marks: &[Mark],
) -> bool
    requires matrix { is_matrix game.now ≡ true }
    requires measures { AreMeasures game.now measures.now }
    requires sized { IsSizedFact game.now fix.now stated.now marks.now }
    ensures { IsTrue result ↔ NonePlaysAbove game.now fix.now stated.now marks.now }
{
    for i in 0..game.rows() {
        if stated.mu < play_sum(game, measures, fix, stated, marks, &[i + 1]) {
            return false;
        }
    }
    true
}
