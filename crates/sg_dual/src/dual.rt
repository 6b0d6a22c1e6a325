//! The multipliers of a node that is done.

ghost use Rattle.std.specs.Prelude.{◌≡◌, pos};
ghost use Rattle.sg_model.specs.Games.{Game};
ghost use Rattle.sg_model.specs.Limits.{IsGame};
ghost use Rattle.sg_tree.specs.declared.fix.Fix.{Fix};
ghost use Rattle.sg_bounds.specs.Facts.{HoldsFor};
ghost use Rattle.sg_bounds.specs.Regions.{IsFix};
ghost use Rattle.sg_lp.specs.Moves.{IsFinal};
ghost use Rattle.sg_lp.specs.Points.{IsDual};
ghost use Rattle.sg_programs.specs.Marks.{plays_fact};
ghost use Rattle.sg_programs.specs.Plays.{plays_program};

use sg_lp::Family;
use sg_simplex::Node;

/// Multipliers of the rows over a denominator.
#[derive(Clone, Copy)]
pub struct Dual<'a> {
    /// The denominator, at least 1.
    pub rho: i128,
    /// The multipliers by row, none below 0. The first one, of the whole, is what a unit of the whole is worth at most.
    pub y: &'a [i128],
}

/// The multipliers of a node that is done: no column of its program costs more than they allow, though few columns were made. Over plays they are a
/// fact that holds for the node.
pub fn dual_of<F: Family + Drop>(node: &Node<F>) -> Dual<'_>
    requires { IsFinal (F.program node.now.family) node.now.tableau }
    ensures rho { result.rho ≡ node.now.tableau.rho }
    ensures y { result.y.now ≡ node.now.tableau.y }
    ensures dual { IsDual (F.program node.now.family) node.now.tableau }

    // Over plays.
    ensures fact { (g : Game) (fix : Fix) → IsGame g → g.scale ≡ pos 0 → IsFix g fix → F.program node.now.family ≡ plays_program g fix → HoldsFor g fix (plays_fact g fix result.y.now result.rho) }
{
    let state = node.state();
    Dual {
        rho: state.rho(),
        y: state.multipliers(),
    }
}
