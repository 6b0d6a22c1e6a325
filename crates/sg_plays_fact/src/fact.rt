//! Whether a fact over plays holds.

ghost use Rattle.std.specs.Prelude.{◌↔◌, All, IsTrue};
ghost use Rattle.sg_num.specs.Exact.{Fits};
ghost use Rattle.sg_tree.specs.declared.fact.Fact.TheVariants.{Plays};
ghost use Rattle.sg_bounds.specs.Facts.{IsPlaysFact};
ghost use Rattle.sg_bounds.specs.Regions.{IsFix};
ghost use Rattle.sg_bounds.specs.Sizes.{size_sums};
ghost use Rattle.sg_plays_fact.specs.Measuring.{AreMeasures};
ghost use Rattle.sg_plays_fact.specs.Testing.{IsSizedFact, NonePlaysAbove};

use crate::marks::are_marks;
use crate::measures::Measures;
use crate::plays::plays_hold;
use crate::rows::rows_hold;
use crate::stated::Stated;
use sg_fixed::FixedTypes;
use sg_game::{Game, Kind};
use sg_tree::Mark;

/// Whether the fact's sum is at most `mu` for each legal play.
fn none_plays_above(
    game: &Game,
    measures: &Measures,
    fix: &FixedTypes,
    stated: &Stated,
    marks: &[Mark],
) -> bool
    requires measures { AreMeasures game.now measures.now }
    requires sized { IsSizedFact game.now fix.now stated.now marks.now }
    ensures { IsTrue result ↔ NonePlaysAbove game.now fix.now stated.now marks.now }
{
    match game.kind() {
        Kind::Security => plays_hold(game, measures, fix, stated, marks),
        Kind::Matrix => rows_hold(game, measures, fix, stated, marks),
    }
}

/// Whether a fact over plays holds at the node that fixes these types and actions: `rho` is at least 1, `mu` at least 0, each mark may stand
/// there, and for every legal play `rho` times its worth, less its regret, is at most `mu`. Its size sum fits ([`crate::size_fits`]).
pub fn holds(
    game: &Game,
    measures: &Measures,
    fix: &FixedTypes,
    rho: i128,
    mu: i128,
    marks: &[Mark],
) -> bool
    requires is_fix { IsFix game.now fix.now }
    requires measures { AreMeasures game.now measures.now }
    requires size { All Fits (size_sums game.now fix.now (Plays rho mu marks.now)) }
    ensures { IsTrue result ↔ IsPlaysFact game.now fix.now rho mu marks.now }
{
    if rho < 1 || mu < 0 {
        return false;
    }
    if !are_marks(game, fix, marks) {
        return false;
    }
    none_plays_above(game, measures, fix, &Stated { rho, mu }, marks)
}
