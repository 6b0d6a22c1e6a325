//! A search made event by event, in the order that was chosen.

ghost use Rattle.std.specs.Prelude.{◌≡◌, ◌<◌, ◌≤◌, IfOk, IfNone, IfSome, OnOk, Ok, length, pos, true, false, MatchBool};
ghost use Rattle.sg_model.specs.PlayLists.{play_count};
ghost use Rattle.sg_lanes.specs.Machines.{IsNumber, IsRankOf};
ghost use Rattle.sg_options.specs.Options.{IsBudget, IsOrder};
ghost use Rattle.sg_search.specs.Events.{IsEnd};
ghost use Rattle.sg_search.specs.Searches.{first_search};
ghost use Rattle.sg_solve.specs.Searching.{IsEndOfSearch, task_of};
ghost use Rattle.sg_solve.specs.Ending.{IsEndHanded};
ghost use Rattle.sg_selection.specs.Selections.{Selects, first_selection};
ghost use Rattle.sg_solve.specs.UnderWay.{AreTold, IsUnderWay, events_left};
ghost use Rattle.sg_desk.specs.Desks.{DeskView};
ghost use Rattle.sg_lanes.specs.Machines.{Machine};

use sg_desk::Desk;
use sg_frac::Frac;
use sg_game::Game;
use sg_lanes::{End, Lanes};
use sg_options::{Budget, Order};
use sg_search::{Event, Ready};
use sg_selection::{Ranked, Selection};
use std::alloc::{AllocError, Global};

/// The choices of a machine, ranked by their bounds.
#[derive(Drop)]
struct Choices<'m, 'g> {
    lanes: &'m Lanes<'g>,
}

impl<'m, 'g> Ranked for Choices<'m, 'g> {
    ghost is_choice = { λ c. λ n. IsNumber c.lanes.now.task c.lanes.now.search n };

    ghost is_rank = { λ c. λ n. λ b. IsRankOf c.lanes.now.task c.lanes.now.search n b };

    fn bound(&self, n: u32) -> Frac {
        self.lanes.bound(n)
    }
}

/// What each of so many lanes is told, lane 1 first.
fn told(lanes: &Lanes<'_>, count: u8) -> [Ready; 8]
    requires { count ≤ 8 }
    ensures told { AreTold lanes.now count result }
    ensures eight { length result ≡ 8 }
{
    let mut ready = [Ready::Nothing; 8];
    for place in 0..count {
        ready[place as usize] = lanes.enabled(place + 1);
    }
    ready
}

/// The event that comes next, and none exactly where no event may happen.
fn named(
    game: &Game,
    budget: &Budget,
    order: &Order,
    desk: &Desk<'_>,
    lanes: &Lanes<'_>,
    selection: &mut Selection,
) -> Option<Event>
    requires order { IsOrder order.now }
    requires unscaled { game.now.scale ≡ pos 0 }
    requires under_way { IsUnderWay game.now budget.now order.now selection.old lanes.now desk.now }
    ensures selects { IfSome result (λ e. Selects lanes.now.task lanes.now.search selection.old e selection.new) }
    ensures ends { IfNone result (IsEnd lanes.now.task lanes.now.search) }
    ensures kept { IfNone result (selection.new ≡ selection.old) }
{
    game.promises();
    let ready = told(lanes, order.lanes);
    selection.event(&ready[..order.lanes as usize], &Choices { lanes })
}

/// Makes the event that comes next. Whether there was one: if not, no event may happen.
fn advance(
    alloc: Global,
    game: &Game,
    budget: &Budget,
    order: &Order,
    lanes: &mut Lanes<'_>,
    desk: &mut Desk<'_>,
    selection: &mut Selection,
) -> Result<bool, AllocError>
    requires order { IsOrder order.now }
    requires unscaled { game.now.scale ≡ pos 0 }
    requires under_way { IsUnderWay game.now budget.now order.now selection.old lanes.old desk.old }
    ensures under_way { OnOk result (IsUnderWay game.now budget.now order.now selection.new lanes.new desk.new) }
    ensures fewer { result ≡ Ok true → events_left desk.new.pivots lanes.new desk.new.loads < events_left desk.old.pivots lanes.old desk.old.loads }
    ensures end { result ≡ Ok false → IsEnd lanes.new.task lanes.new.search }
{
    match named(game, budget, order, desk, lanes, selection) {
        None => Ok(false),
        Some(e) => {
            game.promises();
            let _outcome = lanes.event(alloc, desk, e)?;
            Ok(true)
        }
    }
}

/// Makes events until none may happen.
fn run_to_end(
    alloc: Global,
    game: &Game,
    budget: &Budget,
    order: &Order,
    lanes: &mut Lanes<'_>,
    desk: &mut Desk<'_>,
    selection: &mut Selection,
) -> Result<(), AllocError>
    requires order { IsOrder order.now }
    requires unscaled { game.now.scale ≡ pos 0 }
    requires under_way { IsUnderWay game.now budget.now order.now selection.old lanes.old desk.old }
    ensures under_way { OnOk result (IsUnderWay game.now budget.now order.now selection.new lanes.new desk.new) }
    ensures end { OnOk result (IsEnd lanes.new.task lanes.new.search) }
{
    'events: while advance(alloc, game, budget, order, lanes, desk, selection)? {}
    Ok(())
}

/// The end of the search for a game without a scale, of which so many nodes may be worked.
pub(crate) fn searched(
    alloc: Global,
    game: &Game,
    budget: &Budget,
    order: &Order,
    nodes: u64,
) -> Result<End, AllocError>
    requires budget { IsBudget budget.now }
    requires order { IsOrder order.now }
    requires unscaled { game.now.scale ≡ pos 0 }
    requires few { play_count game.now ≤ 4096 }
    requires nodes { nodes ≡ (task_of game.now budget.now order.now).nodes }
    ensures { IfOk result (λ end. IsEndHanded game.now budget.now order.now end) }
{
    game.promises();
    let mut lanes = Lanes::new(alloc, game, order.lanes, nodes)?;
    let mut desk = Desk::new(alloc, game, order.lanes, budget.pivots, budget.looks)?;
    let mut selection = Selection::new(order);
    run_to_end(
        alloc,
        game,
        budget,
        order,
        &mut lanes,
        &mut desk,
        &mut selection,
    )?;
    lanes.end(alloc)
}
