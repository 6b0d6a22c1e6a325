//! Events that are named one after the other, over ranks in a list.

ghost use Rattle.std.specs.Prelude.{◌≡◌, ◌<◌, ◌≤◌, ℕ};
ghost use Rattle.std.specs.Bool.{OnTrue};
ghost use Rattle.sg_search.specs.declared.event.Ready.{Ready};
ghost use Rattle.sg_selection.specs.Handing.{IsAskable};

use sg_frac::Frac;
use sg_options::{Choice, Order, Walk};
use sg_search::{Event, Ready};
use sg_selection::{Ranked, Selection};
use std::alloc::Global;
use std::test::Fail;

/// Ranks by the numbers of the choices.
#[derive(Clone, Copy)]
pub(crate) struct RankList<'a> {
    ranks: &'a [Frac],
}

impl<'a> Ranked for RankList<'a> {
    ghost use Rattle.std.specs.Prelude.{◌<◌, length};

    ghost is_choice = { λ l n. n < length l.ranks.now };

    ghost is_rank = { λ l n b. Unit {0} };

    fn bound(&self, n: u32) -> Frac {
        self.ranks[n as usize]
    }
}

/// What the lanes are told, and the event that is due.
pub(crate) struct Step(pub(crate) &'static [Ready], pub(crate) Option<Event>);

/// An order by this walk.
pub(crate) fn order(walk: Walk, seed: u64) -> Order {
    Order {
        walk,
        lanes: 8,
        seed,
        family: Choice::Auto,
    }
}

/// Whether a lane that may begin a node has a choice, and no more of them than so many.
fn has_choices(ready: Ready, count: usize) -> bool
    ensures { OnTrue result ((n : ℕ) → ready ≡ Ready.Begin n → (1 ≤ n) × (n ≤ count)) }
{
    match ready {
        Ready::Begin(n) => 1 <= n && n as usize <= count,
        Ready::Nothing | Ready::Turn | Ready::Finish => true,
    }
}

/// Whether a selection may be asked, where so many choices have ranks.
fn is_askable(ready: &[Ready], count: usize) -> bool
    ensures { OnTrue result (IsAskable (λ n. n < count) ready.now) }
{
    'lanes: for lane in ready {
        if !has_choices(*lane, count) {
            return false;
        }
    }
    ready.len() <= 8
}

/// The event that is named, or none where the selection may not be asked.
fn named(selection: &mut Selection, ready: &[Ready], ranks: &RankList) -> Option<Event> {
    if is_askable(ready, ranks.ranks.len()) {
        selection.event(ready, ranks)
    } else {
        None
    }
}

/// Whether each step names the event that is due.
fn are_named(selection: &mut Selection, steps: &[Step], ranks: &RankList) -> bool {
    for Step(ready, due) in steps {
        if named(selection, ready, ranks) != *due {
            return false;
        }
    }
    true
}

/// These fractions.
fn ranks_of(alloc: Global, parts: &[(i128, i128)]) -> Result<Vec<Frac>, Fail> {
    let mut ranks = Vec::new(alloc);
    for (num, den) in parts {
        if let Some(rank) = Frac::of(*num, *den) {
            ranks.push(rank)?;
        }
    }
    Ok(ranks)
}

/// Whether an order names the events that are due, where the choices have these ranks.
pub(crate) fn are_due(
    alloc: Global,
    order: &Order,
    parts: &[(i128, i128)],
    steps: &[Step],
) -> Result<bool, Fail> {
    let ranks = ranks_of(alloc, parts)?;
    let list = RankList {
        ranks: ranks.as_slice(),
    };
    let mut selection = Selection::new(order);
    Ok(are_named(&mut selection, steps, &list))
}
