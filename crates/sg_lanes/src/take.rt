//! A lane takes a node that waits, and turns it.

ghost use Rattle.std.specs.Prelude.{◌≡◌, ◌≤◌, ◌-◌, length, set, Some, None, true, false};
ghost use Rattle.sg_tree.specs.declared.fix.Fix.{Fix};
ghost use Rattle.sg_model.specs.Sums.{nth};
ghost use Rattle.sg_search.specs.Changes.{Change, Goes, Holds, MayBegin, MayTake, begun};

use crate::lanes::Lanes;
use crate::nodes::take_out;
use sg_search::Held;
use sg_tree::Fix;
use std::mem;

/// Gives a lane a node that has just begun.
pub(crate) fn give(lanes: &mut Vec<Option<Held>>, lane: u8, node: Fix)
    requires from_one { 1 ≤ lane }
    requires in_range { lane ≤ length lanes.old.items }
    ensures { lanes.new.items ≡ set lanes.old.items (lane - 1) (begun node) }
{
    lanes[lane as usize - 1] = Some(Held { node, ended: false });
}

/// Takes what a lane holds from it.
pub(crate) fn let_go(lanes: &mut Vec<Option<Held>>, lane: u8) -> Option<Held>
    requires from_one { 1 ≤ lane }
    requires in_range { lane ≤ length lanes.old.items }
    ensures held { result ≡ nth lanes.old.items lane None }
    ensures lanes { lanes.new.items ≡ set lanes.old.items (lane - 1) None }
{
    mem::replace(&mut lanes[lane as usize - 1], None)
}

/// Marks what a lane holds as ended.
fn set_ended(lanes: &mut Vec<Option<Held>>, lane: u8)
    requires from_one { 1 ≤ lane }
    requires in_range { lane ≤ length lanes.old.items }
    ensures { (node : Fix) → nth lanes.old.items lane None ≡ Some (record { node = node; ended = false }) → lanes.new.items ≡ set lanes.old.items (lane - 1) (Some (record { node = node; ended = true })) }
{
    match let_go(lanes, lane) {
        Some(held) => {
            let Held { node, ended: _ } = held;
            lanes[lane as usize - 1] = Some(Held { node, ended: true });
        }
        None => {}
    }
}

impl<'a> Lanes<'a> {
    /// A lane takes a node that waits.
    pub(crate) fn take(&mut self, lane: u8, node: Fix)
        requires may { MayBegin self.old.task self.old.search lane }
        requires waits { MayTake self.old.task self.old.search node }
        ensures goes { Goes self.old.task self.old.search (Change.takes lane node) self.new.search }
        ensures task { self.new.task ≡ self.old.task }
    {
        take_out(&mut self.parts, &node);
        take_out(&mut self.lone, &node);
        give(&mut self.lanes, lane, node);
    }

    /// A lane's program has ended.
    pub(crate) fn end_turns(&mut self, lane: u8)
        requires { (node : Fix) × Holds self.old.search lane node false }
        ensures goes { Goes self.old.task self.old.search (Change.ends lane) self.new.search }
        ensures task { self.new.task ≡ self.old.task }
    {
        set_ended(&mut self.lanes, lane);
    }
}
