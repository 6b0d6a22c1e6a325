//! The upper bound of a tree.

ghost use Rattle.std.specs.Prelude.{◌≡◌, ◌≤◌, ◌+◌, List, Option, Some, length, map, pos, ◌≤ℤ◌};
ghost use Rattle.sg_frac.specs.Fractions.{Fraction, IsReduced, IsReducedForm};
ghost use Rattle.sg_model.specs.Games.{Game};
ghost use Rattle.sg_tree.specs.declared.report.Cap.{Cap};
ghost use Rattle.sg_bounds.specs.Facts.{rho_of};
ghost use Rattle.sg_bounds.specs.Leaves.{listed, root_bound};
ghost use Rattle.sg_bounds.specs.Trees.{IsRoot, IsTreeOf, node_of, parts_of};
ghost use Rattle.sg_upper.specs.Rests.{AreRests, HasCaps};
ghost use Rattle.sg_upper.specs.Tops.{AreLowered, AreStatedParts, FormsBase, IsBoundedTree, IsStatedBase, IsStatedNode, Raises, RaisesByNode, RaisesByParts};
ghost use Rattle.sg_upper.specs.TreeSteps.{IsUpper};

use crate::leaf::{Quotient, bound, lowest};
use crate::rest::{Rests, greatest_worth, rests_of};
use sg_frac::Frac;
use sg_game::Game;
use sg_num::Wide;
use sg_tree::{Cap, Fact, Tree};
use std::cmp::Ordering;

/// The greater of a bound and of one more, where there is one.
fn raised(best: Frac, bound: Option<Frac>) -> Frac
    ensures { (more : List Fraction) → AreLowered more bound → Raises best more result }
{
    match bound {
        None => best,
        Some(next) => match best.compare(next) {
            Ordering::Less => next,
            Ordering::Equal => best,
            Ordering::Greater => best,
        },
    }
}

/// The bound of a base: an open one has that of the base above.
fn base_bound(
    rests: &Rests,
    n: u8,
    above: &Option<Frac>,
    base: &Option<Fact>,
) -> Result<Option<Frac>, Wide>
    ensures { (g : Game) (caps : List Cap) (over : Option Fraction) → AreRests g caps rests.now → n ≤ length g.types → IsStatedBase base.now → AreLowered (listed over) above.now → FormsBase g caps n over base.now result }
{
    match base {
        None => Ok(*above),
        Some(fact) => bound(rests, n, fact),
    }
}

/// The greatest of a bound and of those of the leaves of a node that fixes the first `n` types.
#[cycle(tree)]
fn raised_by_node(
    rests: &Rests,
    n: u8,
    above: &Option<Frac>,
    node: &Tree,
    best: Frac,
) -> Result<Frac, Wide>
    ensures { (g : Game) (caps : List Cap) (over : Option Fraction) → AreRests g caps rests.now → IsStatedNode (length g.types) n (node_of node.now) → AreLowered (listed over) above.now → RaisesByNode g caps n over best (node_of node.now) result }
{
    match node {
        Tree::Unproved => Ok(raised(best, *above)),
        Tree::Closed(fact) => match bound(rests, n, fact) {
            Ok(bound) => Ok(raised(best, bound)),
            Err(wide) => Err(wide),
        },
        Tree::Split { base, parts, .. } => match base_bound(rests, n, above, base) {
            Ok(bound) => raised_by_parts(
                rests,
                n.saturating_add(1),
                &bound,
                parts.as_slice(),
                best,
            ),
            Err(wide) => Err(wide),
        },
    }
}

/// The greatest of a bound and of those of the leaves of parts that fix the first `n` types.
#[cycle(tree)]
fn raised_by_parts(
    rests: &Rests,
    n: u8,
    above: &Option<Frac>,
    parts: &[Tree],
    best: Frac,
) -> Result<Frac, Wide>
    ensures { (g : Game) (caps : List Cap) (over : Option Fraction) → AreRests g caps rests.now → AreStatedParts (length g.types) n (parts_of (map node_of parts.now)) → AreLowered (listed over) above.now → RaisesByParts g caps n over best (parts_of (map node_of parts.now)) result }
{
    let mut top = best;
    for part in parts {
        match raised_by_node(rests, n, above, part, top) {
            Ok(next) => top = next,
            Err(wide) => return Err(wide),
        }
    }
    Ok(top)
}

/// The bound of the root's open base, in lowest terms: the greatest payoff of each type.
fn root_bound(game: &Game, rests: &Rests) -> Option<Frac>
    ensures { (caps : List Cap) → AreRests game.now caps rests.now → AreLowered (listed (Some (root_bound game.now))) result }
{
    lowest(&Quotient {
        num: greatest_worth(game),
        den: rests.priors,
    })
}

/// The greatest of a value and of the bounds of a tree's leaves, or the first operation under them that doesn't fit, in the
/// order of the tree's lines. The caps are those of the types from the second on; the tree is a split by the types in their
/// order, whose facts may hold or not. Takes no memory.
pub fn upper(game: &Game, value: Frac, caps: &[Cap], tree: &Tree) -> Result<Frac, Wide>
    requires caps { HasCaps game.now caps.now }
    requires tree { IsBoundedTree game.now (node_of tree.now) }
    ensures { IsUpper game.now value caps.now (node_of tree.now) result }
{
    let _types = game.types();
    let _lowest = value.den();
    let rests = rests_of(game, caps);
    raised_by_node(&rests, 0, &root_bound(game, &rests), tree, value)
}
