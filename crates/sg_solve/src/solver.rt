//! The solver.

ghost use Rattle.std.specs.Prelude.{IfOk};
ghost use Rattle.sg_options.specs.Options.{IsBudget, IsOrder};
ghost use Rattle.sg_solve.specs.Answers.{IsAnswer, IsSearchAnswer, IsServed};
ghost use Rattle.std.specs.Prelude.{◌≡◌, ◌≤◌, pos};
ghost use Rattle.sg_model.specs.PlayLists.{play_count};

use crate::answer::Answer;
use crate::ending::answer_of;
use crate::searching::searched;
use crate::solution::level_solution;
use sg_game::{Game, is_origami};
use sg_options::{Budget, Order};
use sg_upper::node_budget;
use sqlite_items::Items;
use std::alloc::{AllocError, Global};

/// What is answered for a game without a scale: branch and bound over the actions of its types.
fn search_answer(
    alloc: Global,
    game: &Game,
    budget: &Budget,
    order: &Order,
) -> Result<Answer, AllocError>
    requires budget { IsBudget budget.now }
    requires order { IsOrder order.now }
    requires unscaled { game.now.scale ≡ pos 0 }
    requires few { play_count game.now ≤ 4096 }
    ensures { IfOk result (λ a. IsSearchAnswer game.now budget.now order.now a.report a.worked) }
{
    let nodes = node_budget(game, budget);
    let end = searched(alloc, game, budget, order, nodes)?;
    Ok(answer_of(game, budget, order, nodes, end))
}

/// What is answered for a game, with these budgets and in this order: a report, and the nodes that were worked for it.
///
/// A game of identical patrols (one that declares a `scale`) is filled up to its least level, and nothing is searched. For any other game with at
/// most 4,096 legal plays the actions of its types are searched by branch and bound (`sg_lanes`), each node by the lexicographic simplex method over
/// the listed plays (`sg_desk`), in the lanes and the order that were chosen.
///
/// # Errors
///
/// Want of memory, and nothing else.
pub fn solve(
    alloc: Global,
    game: &Game,
    budget: &Budget,
    order: &Order,
) -> Result<Answer, AllocError>
    requires budget { IsBudget budget.now }
    requires order { IsOrder order.now }
    requires served { IsServed game.now }
    ensures { IfOk result (λ a. IsAnswer game.now budget.now order.now a.report a.worked) }
{
    game.promises();
    if is_origami(game) {
        let report = level_solution(alloc, game)?;
        return Ok(Answer {
            report,
            worked: Items::new(alloc),
        });
    }
    search_answer(alloc, game, budget, order)
}
