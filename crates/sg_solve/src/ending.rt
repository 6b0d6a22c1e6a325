//! The report of the end of a search.

ghost use Rattle.std.specs.Prelude.{◌≡◌, pos};
ghost use Rattle.sg_options.specs.Options.{IsBudget, IsOrder};
ghost use Rattle.sg_solve.specs.Answers.{IsSearchAnswer};
ghost use Rattle.sg_solve.specs.Ending.{IsEndHanded};
ghost use Rattle.sg_solve.specs.Searching.{task_of};
ghost use Rattle.sg_solve.specs.Ending.{EndsBy};
ghost use Rattle.sg_answer_laws.specs.Answers.{HasOperandsAt};

use crate::answer::Answer;
use sg_frac::Frac;
use sg_game::Game;
use sg_lanes::End;
use sg_options::{Budget, Order};
use sg_tree::{Cause, Claim, Ending, Report};
use sg_upper::upper;

/// How a report ends: optimal where its bounds meet, and else with the cause of the first stuck node, or where there is none with the node budget.
fn ending_of(value: Frac, upper: Frac, stuck: Option<Cause>, nodes: u64) -> Ending
    ensures { EndsBy value upper stuck nodes result }
{
    if value == upper {
        return Ending::Optimal;
    }
    match stuck {
        Some(cause) => Ending::Gap(cause),
        None => Ending::Gap(Cause::Nodes(nodes)),
    }
}

/// The operands of the operation that an ending names.
fn operands_of(ending: &Ending) -> Option<(i128, i128)>
    ensures { HasOperandsAt ending.now }
{
    match ending {
        Ending::Gap(Cause::Wide { wide, .. }) => Some((wide.left, wide.right)),
        _ => None,
    }
}

/// The report of the end of a search, and the nodes that were worked.
pub(crate) fn answer_of(game: &Game, budget: &Budget, order: &Order, nodes: u64, end: End) -> Answer
    requires budget { IsBudget budget.now }
    requires order { IsOrder order.now }
    requires unscaled { game.now.scale ≡ pos 0 }
    requires nodes { nodes ≡ (task_of game.now budget.now order.now).nodes }
    requires end { IsEndHanded game.now budget.now order.now end }
    ensures { IsSearchAnswer game.now budget.now order.now result.report result.worked }
{
    game.promises();
    let End {
        tickets,
        value,
        caps,
        tree,
        worked,
        stuck,
    } = end;
    let top = match upper(game, value, caps.as_slice(), &tree) {
        Ok(top) => top,
        Err(_) => unreachable!(),
    };
    let ending = ending_of(value, top, stuck, nodes);
    let _operands = operands_of(&ending);
    let report = Report {
        tickets: Claim::of(tickets),
        value,
        caps,
        tree,
        upper: top,
        ending,
    };
    Answer { report, worked }
}
