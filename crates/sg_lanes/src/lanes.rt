//! The machine itself.

ghost use Rattle.sg_search.specs.Sound.{IsSound};
ghost use Rattle.sg_lanes.specs.Choices.{AreNodes};

use crate::ripe::Ripe;
use sg_commit::Commitment;
use sg_frac::Frac;
use sg_game::Game;
use sg_search::{Held, Stuck};
use sg_tree::{Cap, Fix, Worked};
use sqlite_items::Items;
use std::marker::Model;

/// A search over the nodes of a game, in lanes, seen as what it is about and its state.
///
/// The state is what each lane holds, the split prefixes, and the worked and stuck nodes. Beside it stands what is
/// read off it at each event, so that no event goes over all nodes: the incumbent with its value, the caps of the
/// moment, the nodes that wait, and the prefixes that may be split, with their bounds.
#[derive(Drop)]
pub struct Lanes<'a> {
    pub(crate) game: &'a Game,
    pub(crate) count: u8,
    pub(crate) nodes: u64,
    pub(crate) root: Frac,
    pub(crate) shift: i64,
    pub(crate) lanes: Vec<Option<Held>>,
    pub(crate) splits: Vec<Items<u16>>,
    pub(crate) worked: Vec<Worked>,
    pub(crate) stuck: Vec<Stuck>,
    pub(crate) best: Commitment,
    pub(crate) value: Frac,
    pub(crate) caps: Vec<Cap>,
    pub(crate) parts: Vec<Fix>,
    pub(crate) group: Option<Frac>,
    pub(crate) lone: Vec<Fix>,
    pub(crate) tops: Vec<Fix>,
    pub(crate) undone: Vec<Fix>,
    pub(crate) ripe: Vec<Ripe>,
}

impl<'a> Model for Lanes<'a> {
    ghost use Rattle.sg_lanes.specs.Machines.{Machine, task_on};
    ghost use Rattle.sg_lanes.specs.Frontiers.{Frontier, IsFrontier};

    ghost Value = { Machine };

    ghost view = { λ m. record { task = task_on m.game.now m.count m.nodes; search = record { lanes = m.lanes.items; splits = m.splits.items; worked = m.worked.items; stuck = m.stuck.items } } };

    ghost invariant = { λ m. IsFrontier (task_on m.game.now m.count m.nodes) (record { lanes = m.lanes.items; splits = m.splits.items; worked = m.worked.items; stuck = m.stuck.items }) (record { root = m.root; shift = m.shift; best = m.best; value = m.value; caps = m.caps.items; parts = m.parts.items; group = m.group; lone = m.lone.items; tops = m.tops.items; undone = m.undone.items; ripe = m.ripe.items }) };
}

impl<'a> Lanes<'a> {
    /// What holds of every machine: its state is sound, and the nodes that may be taken are the game's.
    pub(crate) fn keeps(&self)
        ensures sound { IsSound self.now.task self.now.search }
        ensures nodes { AreNodes self.now.task self.now.search }
    {
        let _ = &self.count;
    }
}
