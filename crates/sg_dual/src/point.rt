//! The point of a node that is done.

ghost use Rattle.std.specs.Prelude.{◌≡◌, ◌<ℤ◌, pos, IfOk, None};
ghost use Rattle.sg_model.specs.Games.{Game};
ghost use Rattle.sg_model.specs.Limits.{IsGame};
ghost use Rattle.sg_tree.specs.declared.fix.Fix.{Fix};
ghost use Rattle.sg_bounds.specs.Regions.{IsFix};
ghost use Rattle.sg_commit.specs.Parts.{part_fault};
ghost use Rattle.sg_rows.specs.Rows.{place};
ghost use Rattle.sg_lp.specs.Programs.{IsWithinLimits};
ghost use Rattle.sg_lp.specs.Moves.{IsFinal};
ghost use Rattle.sg_lp.specs.States.{IsTableau};
ghost use Rattle.sg_search.specs.Results.{Reaches};
ghost use Rattle.sg_programs.specs.Plays.{plays_program};
ghost use Rattle.sg_programs.specs.Points.{point_steps};
ghost use Rattle.sg_programs.specs.Shown.{fact_at};
ghost use Rattle.sg_dual.specs.Duality.{AreOfOneValue};
ghost use Rattle.sg_dual.specs.Parts.{FormOr, point_parts, tickets_of};

use crate::part::{Part, PointFault};
use crate::share::shares;
use crate::weighing::parts_of;
use sg_lp::{Family, State};
use sg_simplex::Node;
use std::alloc::Global;

/// The parts of a state's point, formed one after another.
fn formed<F: Family>(alloc: Global, family: &F, state: &State) -> Result<Vec<Part>, PointFault>
    requires sized { IsWithinLimits (F.program family.now) }
    requires state { IsTableau (F.program family.now) state.now.tableau }
    ensures { FormOr (point_steps (F.program family.now) state.now.tableau) (λ parts. parts.items ≡ point_parts (F.program family.now) state.now.tableau) result }
{
    match shares(alloc, family, state) {
        Ok(shares) => parts_of(alloc, shares.as_slice()),
        Err(fault) => Err(fault),
    }
}

/// The point of a node that is done and whose multiplier of the whole isn't 0: the columns with a weight above 0, by rising row, each with its
/// weight over the least whole that makes all weights whole numbers.
///
/// In turn are formed the product of each row's list with its column, whose quotient under the list's first place is the column's weight; the
/// least common multiple of the denominators; the weights over it; and their running total.
///
/// # Errors
///
/// `Wide` with the first of these operations that doesn't fit, and exactly there; `Memory` where memory ran out.
pub fn point_of<F: Family + Drop>(alloc: Global, node: &Node<F>) -> Result<Vec<Part>, PointFault>
    requires done { IsFinal (F.program node.now.family) node.now.tableau }
    requires some { pos 0 <ℤ place node.now.tableau.y 0 }
    ensures formed { FormOr (point_steps (F.program node.now.family) node.now.tableau) (λ parts. parts.items ≡ point_parts (F.program node.now.family) node.now.tableau) result }
    ensures optimal { AreOfOneValue (F.program node.now.family) node.now.tableau }

    // Over plays: the parts are a commitment of the node's region that reaches the bound of the multipliers' fact.
    ensures reaches { (g : Game) (fix : Fix) → IsGame g → g.scale ≡ pos 0 → IsFix g fix → F.program node.now.family ≡ plays_program g fix → IfOk result (λ parts. Reaches g fix (fact_at g fix node.now.tableau) (tickets_of parts.items)) }

    // And no fault keeps a commitment from being made of them.
    ensures faultless { (g : Game) (fix : Fix) → IsGame g → g.scale ≡ pos 0 → IsFix g fix → F.program node.now.family ≡ plays_program g fix → IfOk result (λ parts. part_fault (tickets_of parts.items) ≡ None) }
{
    match formed(alloc, node.family(), node.state()) {
        Ok(parts) => Ok(parts),
        Err(fault) => Err(fault),
    }
}
