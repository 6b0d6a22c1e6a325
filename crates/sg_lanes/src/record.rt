//! A node that was worked.

ghost use Rattle.std.specs.Prelude.{◌≡◌, ◌≢◌, ◌≤◌, Contains, IfOk, None, OnErr, OnOk, Option, Some, length, true};
ghost use Rattle.sg_model.specs.Sums.{nth};
ghost use Rattle.sg_commit.specs.Committed.{Committed};
ghost use Rattle.sg_tree.specs.declared.fix.Fix.{Fix};
ghost use Rattle.sg_search.specs.declared.held.Held.{Held};
ghost use Rattle.sg_search.specs.Changes.{Change, Goes, Holds};
ghost use Rattle.sg_search.specs.Results.{IsResult};
ghost use Rattle.sg_lanes.specs.Ripenings.{IsEntry};
ghost use Rattle.sg_lanes.specs.Rises.{IsRise};

use crate::best::{Best, put_best, value_with};
use crate::bound::{bound_of, is_above};
use crate::lanes::Lanes;
use crate::nodes::{is_same, take_out};
use crate::ripe::{Ripe, put_in, sift};
use crate::take::let_go;
use crate::tops::renew;
use sg_commit::Commitment;
use sg_frac::Frac;
use sg_search::Held;
use sg_tree::{Fact, Fix, Worked};
use std::alloc::{AllocError, Global};

/// The node that a lane holds, copied.
fn node_of(alloc: Global, lanes: &[Option<Held>], lane: u8) -> Result<Fix, AllocError>
    requires from_one { 1 ≤ lane }
    requires in_range { lane ≤ length lanes.now }
    requires held { nth lanes.now lane None ≢ None }
    ensures { IfOk result (λ node. (h : Held) → nth lanes.now lane None ≡ Some h → node ≡ h.node) }
{
    match &lanes[lane as usize - 1] {
        Some(held) => held.node.copy(alloc),
        None => unreachable!(),
    }
}

/// Whether another cap node of a node's type is among these.
fn has_other(undone: &[Fix], node: &Fix) -> bool
    ensures { result ≡ true → (other : Fix) × Contains undone.now other × (other.first ≡ node.now.first) × (other ≢ node.now) }
{
    for other in undone {
        if other.first == node.first && !is_same(other, node) {
            return true;
        }
    }
    false
}

impl<'a> Lanes<'a> {
    /// The entry of a prefix that was worked, with its bound, where it may be split.
    fn entry(
        &self,
        alloc: Global,
        node: &Fix,
        fact: &Fact,
        value: Frac,
    ) -> Result<Option<Ripe>, AllocError>
        requires prefix { node.now.first ≡ 1 }
        requires result { (point : Option Committed) × IsResult self.now.task.game (record { fix = node.now; fact = fact.now; point = point }) }
        ensures { IfOk result (λ o. IsEntry self.now.task self.now.search node.now fact.now value o) }
    {
        let count = node.acts.len();
        if count >= self.game.types() as usize {
            return Ok(None);
        }
        match bound_of(self.game, self.shift, self.caps.as_slice(), count, fact) {
            None => Ok(None),
            Some(bound) => {
                if !is_above(bound, value) {
                    return Ok(None);
                }
                let node = node.copy(alloc)?;
                Ok(Some(Ripe { node, bound }))
            }
        }
    }

    /// A prefix was worked.
    fn record_prefix(
        &mut self,
        alloc: Global,
        lane: u8,
        node: Fix,
        fact: Fact,
        point: Option<Commitment>,
        best: Option<Best>,
    ) -> Result<(), AllocError>
        requires held { Holds self.old.search lane node true }
        requires form { node.first ≡ 1 }
        requires result { IsResult self.old.task.game (record { fix = node; fact = fact; point = point }) }
        requires rise { IsRise self.old.task self.old.search point best }
        ensures goes { OnOk result (Goes self.old.task self.old.search (Change.works lane fact point) self.new.search) }
        ensures task { self.new.task ≡ self.old.task }
        ensures kept { OnErr result (self.new ≡ self.old) }
    {
        let value = value_with(&best, self.value);
        let entry = self.entry(alloc, &node, &fact, value)?;
        self.worked.reserve(1)?;
        self.ripe.reserve(1)?;
        sift(&mut self.ripe, value);
        put_in(&mut self.ripe, entry);
        take_out(&mut self.tops, &node);
        let _held = let_go(&mut self.lanes, lane);
        self.worked.push_reserved(Worked {
            fix: node,
            fact,
            point,
        });
        put_best(&mut self.best, &mut self.value, best);
        Ok(())
    }

    /// A cap node was worked.
    fn record_cap(
        &mut self,
        alloc: Global,
        lane: u8,
        node: Fix,
        fact: Fact,
        point: Option<Commitment>,
        best: Option<Best>,
    ) -> Result<(), AllocError>
        requires held { Holds self.old.search lane node true }
        requires form { 2 ≤ node.first }
        requires result { IsResult self.old.task.game (record { fix = node; fact = fact; point = point }) }
        requires rise { IsRise self.old.task self.old.search point best }
        ensures goes { OnOk result (Goes self.old.task self.old.search (Change.works lane fact point) self.new.search) }
        ensures task { self.new.task ≡ self.old.task }
        ensures kept { OnErr result (self.new ≡ self.old) }
    {
        let value = value_with(&best, self.value);
        let l = node.first;
        let more = has_other(self.undone.as_slice(), &node);
        let out = node.copy(alloc)?;
        self.worked.reserve(1)?;
        self.worked.push_reserved(Worked {
            fix: node,
            fact,
            point,
        });
        match renew(
            alloc,
            self.game,
            self.shift,
            &mut self.caps,
            &mut self.ripe,
            self.worked.as_slice(),
            l,
            more,
            value,
        ) {
            Ok(()) => {}
            Err(error) => {
                let _last = self.worked.pop();
                return Err(error);
            }
        }
        take_out(&mut self.undone, &out);
        let _held = let_go(&mut self.lanes, lane);
        put_best(&mut self.best, &mut self.value, best);
        Ok(())
    }

    /// A lane's node was worked, with this result. After want of memory nothing is changed.
    pub(crate) fn record_result(
        &mut self,
        alloc: Global,
        lane: u8,
        fact: Fact,
        point: Option<Commitment>,
    ) -> Result<(), AllocError>
        requires { (node : Fix) × Holds self.old.search lane node true × IsResult self.old.task.game (record { fix = node; fact = fact; point = point }) }
        ensures goes { OnOk result (Goes self.old.task self.old.search (Change.works lane fact point) self.new.search) }
        ensures task { self.new.task ≡ self.old.task }
        ensures kept { OnErr result (self.new ≡ self.old) }
    {
        let best = self.rise(alloc, &point)?;
        let node = node_of(alloc, self.lanes.as_slice(), lane)?;
        if node.first == 1 {
            self.record_prefix(alloc, lane, node, fact, point, best)
        } else {
            self.record_cap(alloc, lane, node, fact, point, best)
        }
    }
}
