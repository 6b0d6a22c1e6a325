//! A prefix is split, and a lane takes its first part.

ghost use Rattle.std.specs.Prelude.{◌≡◌, ◌≤◌, ◌+◌, ◌-◌, ◌++◌, ◌∷◌, [], length, not, filter, OnOk, OnErr, IfOk, map, Some};
ghost use Rattle.sg_model.specs.Sums.{numbers_from};
ghost use Rattle.sg_model.specs.Games.{action_count};
ghost use Rattle.sg_game.specs.Counts.{IsTypeOf};
ghost use Rattle.sg_tree.specs.declared.fix.Fix.{Fix};
ghost use Rattle.sg_tree.specs.declared.report.Cause.{Cause};
ghost use Rattle.sg_bounds.specs.Regions.{prefix};
ghost use Rattle.sg_search.specs.Searches.{same};
ghost use Rattle.sg_search.specs.Bounding.{own_bound};
ghost use Rattle.sg_search.specs.Changes.{Change, Goes, MayBegin, first_part};
ghost use Rattle.sg_search.specs.Events.{MayBranch};
ghost use Rattle.sg_lanes.specs.Bounds.{StandsFor};
ghost use Rattle.sg_lanes.specs.Machines.{IsTogether};
ghost use Rattle.sg_work.specs.Works.{AreSameTests, begun_load, with_load};

use crate::lanes::Lanes;
use crate::nodes::{is_same, part_of};
use crate::ripe::Ripe;
use crate::take::give;
use sg_frac::Frac;
use sg_game::Game;
use sg_tree::Fix;
use sg_work::Work;
use sqlite_items::Items;
use std::alloc::{AllocError, Global};

/// The parts of a prefix but the first, by their actions.
fn later_parts(alloc: Global, game: &Game, acts: &[u16]) -> Result<Vec<Fix>, AllocError>
    requires { IsTypeOf game.now (length acts.now + 1) }
    ensures { IfOk result (λ parts. parts.items ≡ map (λ a. prefix (acts.now ++ a ∷ [])) (numbers_from 2 (action_count game.now (length acts.now + 1) - 1))) }
{
    let _types = game.types();
    let count = game.actions(acts.len() as u8 + 1);
    let mut parts = Vec::new(alloc);
    for a in 1..count {
        parts.push(part_of(alloc, acts, a + 1)?)?;
    }
    Ok(parts)
}

/// Takes a prefix out of those that may be split.
fn take_ripe(ripe: &mut Vec<Ripe>, node: &Fix)
    ensures { ripe.new.items ≡ filter (λ (r : Ripe). not (same node.now r.node)) ripe.old.items }
{
    ripe.retain(
        |other| -> bool
            ensures { result ≡ not (same node.entry.now other.now.node) }
        { !is_same(node, &other.node) },
    );
}

impl<'a> Lanes<'a> {
    /// A prefix is split, and a lane begins its first part. After want of memory nothing is changed.
    pub(crate) fn branch<W: Work>(
        &mut self,
        alloc: Global,
        work: &mut W,
        lane: u8,
        acts: Items<u16>,
        bound: Frac,
    ) -> Result<Fix, AllocError>
        requires together { IsTogether (W.game work.old) (W.loads work.old) (W.closes work.old) (W.stops work.old) self.old }
        requires may { MayBegin self.old.task self.old.search lane }
        requires splits { MayBranch self.old.task self.old.search (prefix acts) }
        requires bound { StandsFor (Some bound) (own_bound self.old.task.game self.old.search acts) }
        ensures goes { OnOk result (Goes self.old.task self.old.search (Change.branches lane acts) self.new.search) }
        ensures node { IfOk result (λ node. node ≡ first_part acts) }
        ensures task { self.new.task ≡ self.old.task }
        ensures kept { OnErr result (self.new ≡ self.old) }
        ensures started { OnOk result (W.loads work.new ≡ with_load (W.loads work.old) lane (begun_load (first_part acts))) }
        ensures work_kept { OnErr result (work.new ≡ work.old) }
        ensures same { W.game work.new ≡ W.game work.old }
        ensures tests { AreSameTests (W.ends work.old) (W.closes work.old) (W.stops work.old) (W.ends work.new) (W.closes work.new) (W.stops work.new) }
        ensures most { W.most_moves work.new ≡ W.most_moves work.old }
    {
        let parts = later_parts(alloc, self.game, acts.as_slice())?;
        let node = part_of(alloc, acts.as_slice(), 1)?;
        let held = part_of(alloc, acts.as_slice(), 1)?;
        self.splits.reserve(1)?;
        work.start(alloc, lane, &node)?;
        let split = Fix { first: 1, acts };
        take_ripe(&mut self.ripe, &split);
        let Fix { first: _, acts } = split;
        self.splits.push_reserved(acts);
        self.parts = parts;
        self.group = Some(bound);
        give(&mut self.lanes, lane, held);
        Ok(node)
    }
}
