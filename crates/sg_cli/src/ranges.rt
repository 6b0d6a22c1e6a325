//! The numbers of a right report.

ghost use Rattle.sg_cert.specs.Ranges.{IsReport};
ghost use Rattle.sg_solve.specs.Answers.{IsAnswer};
ghost use Rattle.sg_cli.specs.Widths.{BothPartsFit, HasParts, IsSized};

use sg_frac::Frac;
use sg_game::Game;
use sg_options::{Budget, Order};
use sg_solve::Answer;
use sg_tree::{Claim, Fact, Tree};

/// How many tickets there are, and their total.
fn sizes_of(claim: &Claim) -> (usize, i128)
    ensures { IsSized claim.now }
{
    (claim.tickets().len(), claim.total())
}

/// Both parts of a fraction.
fn parts_of(fraction: &Frac) -> (i128, i128)
    ensures { BothPartsFit fraction.now }
{
    (fraction.num(), fraction.den())
}

/// The level of a tree that is one water-level fact.
fn level_of(tree: &Tree) -> Option<(i128, i128)>
    ensures { HasParts tree.now }
{
    match tree {
        Tree::Closed(Fact::Water { level, reason: _ }) => Some(parts_of(level)),
        _ => None,
    }
}

/// The numbers of an answer's report lie in the ranges of a report's text. It changes nothing: its contract is what counts.
pub fn lies_in_ranges(game: &Game, budget: &Budget, order: &Order, answer: &Answer)
    requires { IsAnswer game.now budget.now order.now answer.now.report answer.now.worked }
    ensures { IsReport answer.now.report }
{
    game.promises();
    let _sizes = sizes_of(&answer.report.tickets);
    let _value = parts_of(&answer.report.value);
    let _level = level_of(&answer.report.tree);
}
