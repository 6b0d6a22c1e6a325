//! What a lane may be asked to do.

ghost use Rattle.std.specs.Prelude.{◌≡◌, ◌≤◌, ◌<◌, ◌&&◌, ◌+◌, ◌^◌, ◌↔◌, count_by, is_some, length, ℕ, List, Option, IsTrue};
ghost use Rattle.sg_frac.specs.Fractions.{Fraction};
ghost use Rattle.sg_tree.specs.declared.fix.Fix.{Fix};
ghost use Rattle.sg_search.specs.Searches.{busy_count};
ghost use Rattle.sg_search.specs.Bounding.{is_open};
ghost use Rattle.sg_search.specs.Changes.{Holds, IsFree};
ghost use Rattle.sg_search.specs.Events.{AreChoices, MayChoose, Tells};
ghost use Rattle.sg_lanes.specs.Choices.{choice_list, is_open_by, is_over_by, open_parts};

use crate::bound::is_above;
use crate::lanes::Lanes;
use crate::ripe::Ripe;
use sg_frac::Frac;
use sg_search::{Held, Ready};
use sg_tree::Fix;

/// How many lanes hold a node.
pub(crate) fn busy(lanes: &[Option<Held>]) -> usize
    ensures { result ≡ count_by is_some lanes.now }
{
    lanes.iter().filter(|lane| lane.is_some()).count()
}

/// Whether a bound is there and above a value.
pub(crate) fn is_over(bound: Option<Frac>, value: Frac) -> bool
    ensures { result ≡ is_over_by bound value }
{
    match bound {
        None => false,
        Some(bound) => is_above(bound, value),
    }
}

/// How many waiting parts may be taken.
pub(crate) fn open_count(group: Option<Frac>, value: Frac, parts: &[Fix]) -> usize
    ensures { result ≡ length (open_parts group value parts.now) }
{
    if is_over(group, value) {
        parts.len()
    } else {
        0
    }
}

/// How many nodes may be chosen.
pub(crate) fn choice_count(takes: usize, lone: &[Fix], undone: &[Fix], ripe: &[Ripe]) -> usize
    requires { takes + length lone.now < 2 ^ 64 }
    ensures { (group : Option Fraction) (value : Fraction) (parts : List Fix) → takes ≡ length (open_parts group value parts) → result ≡ length (choice_list group value parts lone.now undone.now ripe.now) }
{
    let all = takes + lone.len();
    if all > 0 {
        all
    } else if undone.is_empty() {
        ripe.len()
    } else {
        0
    }
}

/// Whether the upper bound is above the incumbent, where something may be chosen.
fn is_open_by(root: Frac, value: Frac, takes: usize, tops: &[Fix], ripe: &[Ripe]) -> bool
    ensures { (group : Option Fraction) (parts : List Fix) → takes ≡ length (open_parts group value parts) → result ≡ is_open_by root group value parts tops.now ripe.now }
{
    takes > 0 || !ripe.is_empty() || (!tops.is_empty() && is_above(root, value))
}

impl<'a> Lanes<'a> {
    /// Whether a lane holds a node whose program has ended, or goes on.
    pub(crate) fn holds(&self, lane: u8, ended: bool) -> bool
        ensures { IsTrue result ↔ ((node : Fix) × Holds self.now.search lane node ended) }
    {
        let lane = lane as usize;
        if lane == 0 || lane > self.lanes.len() {
            return false;
        }
        match &self.lanes[lane - 1] {
            None => false,
            Some(held) => held.ended == ended,
        }
    }

    /// Whether there is such a lane and it holds nothing.
    fn is_free(&self, lane: u8) -> bool
        ensures { IsTrue result ↔ IsFree self.now.search lane }
    {
        let lane = lane as usize;
        if lane == 0 || lane > self.lanes.len() {
            return false;
        }
        match &self.lanes[lane - 1] {
            None => true,
            Some(_) => false,
        }
    }

    /// Whether fewer nodes are worked and held than the budget.
    fn has_room(&self) -> bool
        ensures { IsTrue result ↔ (length self.now.search.worked + busy_count self.now.search < self.now.task.nodes) }
    {
        let used = self.worked.len() as u64 + busy(self.lanes.as_slice()) as u64;
        used < self.nodes
    }

    /// How many nodes may be chosen.
    fn count(&self) -> u32
        ensures { (nodes : List Fix) × AreChoices (MayChoose self.now.task self.now.search) nodes × (result ≡ length nodes) }
    {
        self.game.promises();
        let takes = open_count(self.group, self.value, self.parts.as_slice());
        choice_count(
            takes,
            self.lone.as_slice(),
            self.undone.as_slice(),
            self.ripe.as_slice(),
        ) as u32
    }

    /// Whether the upper bound is above the incumbent, where something may be chosen.
    fn is_open(&self) -> bool
        requires { (node : Fix) × MayChoose self.now.task self.now.search node }
        ensures { result ≡ is_open self.now.task self.now.search }
    {
        let takes = open_count(self.group, self.value, self.parts.as_slice());
        is_open_by(
            self.root,
            self.value,
            takes,
            self.tops.as_slice(),
            self.ripe.as_slice(),
        )
    }

    /// What a lane may be asked to do, and among how many nodes it may choose. The choices are numbered from 0:
    /// waiting prefixes by their lists, then cap nodes by type and action; or where none of these may be taken, the
    /// prefixes that may be split, by their lists.
    pub fn enabled(&self, lane: u8) -> Ready
        ensures { Tells self.now.task self.now.search lane result }
    {
        if self.holds(lane, true) {
            return Ready::Finish;
        }
        if self.holds(lane, false) {
            return Ready::Turn;
        }
        if !self.is_free(lane) {
            return Ready::Nothing;
        }
        let count = self.count();
        if count == 0 {
            return Ready::Nothing;
        }
        if !self.has_room() {
            return Ready::Nothing;
        }
        if self.is_open() {
            Ready::Begin(count)
        } else {
            Ready::Nothing
        }
    }
}
