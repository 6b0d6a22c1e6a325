//! Events, as they are asked of the machine.

ghost use Rattle.std.specs.Prelude.{◌≡◌, ◌↔◌, ◌<◌, IfOk, IsOk, OnErr, OnOk, true, false, Some, ℕ};
ghost use Rattle.sg_search.specs.declared.event.Event.{Event};
ghost use Rattle.sg_search.specs.declared.event.Outcome.{Outcome};
ghost use Rattle.sg_search.specs.Sound.{IsSound};
ghost use Rattle.sg_search.specs.Events.{Allows};
ghost use Rattle.sg_lanes.specs.Machines.{IsAnsweredBy, GivesResult, IsTogether, LeavesLoads, change_of};
ghost use Rattle.sg_tree.specs.declared.fix.Fix.{Fix};
ghost use Rattle.sg_search.specs.Changes.{Goes, Holds};
ghost use Rattle.sg_work.specs.Works.{AreSameTests, Load, load_at};

use crate::choose::Choice;
use crate::lanes::Lanes;
use sg_search::{Event, Outcome, Ready};
use sg_work::{Ended, Step, Work};
use std::alloc::{AllocError, Global};

/// Among how many nodes a lane may choose that is told this: none, where it may not begin.
fn choices(ready: Ready) -> u32
    ensures { (lane n : ℕ) → (n < result) ↔ Allows ready (Event.Begin lane n) }
{
    match ready {
        Ready::Begin(count) => count,
        Ready::Nothing | Ready::Turn | Ready::Finish => 0,
    }
}

impl<'a> Lanes<'a> {
    /// A lane begins the node of a number.
    fn begin<W: Work>(
        &mut self,
        alloc: Global,
        work: &mut W,
        lane: u8,
        n: u32,
    ) -> Result<Outcome, AllocError>
        requires { IsTogether (W.game work.old) (W.loads work.old) (W.closes work.old) (W.stops work.old) self.old }
        ensures together { IsTogether (W.game work.new) (W.loads work.new) (W.closes work.new) (W.stops work.new) self.new }
        ensures answers { IfOk result (λ o. IsAnsweredBy self.old.task self.old.search (Event.Begin lane n) o self.new.search) }
        ensures task { self.new.task ≡ self.old.task }
        ensures idle { IfOk result (λ o. o ≡ Outcome.Idle → work.new ≡ work.old) }
        ensures kept { OnErr result (self.new ≡ self.old) }
        ensures work_kept { OnErr result (work.new ≡ work.old) }
        ensures loads { IfOk result (λ o. LeavesLoads (W.most_moves work.old) (W.loads work.old) (Event.Begin lane n) o (W.loads work.new)) }
        ensures tests { AreSameTests (W.ends work.old) (W.closes work.old) (W.stops work.old) (W.ends work.new) (W.closes work.new) (W.stops work.new) }
        ensures most { W.most_moves work.new ≡ W.most_moves work.old }
    {
        if n >= choices(self.enabled(lane)) {
            return Ok(Outcome::Idle);
        }
        self.keeps();
        match self.choose(alloc, n as usize)? {
            Choice::Take(node) => {
                let held = node.copy(alloc)?;
                work.start(alloc, lane, &node)?;
                self.take(lane, held);
                Ok(Outcome::Took(node))
            }
            Choice::Branch(acts, bound) => {
                let node = self.branch(alloc, work, lane, acts, bound)?;
                Ok(Outcome::Took(node))
            }
        }
    }

    /// A lane's program makes a step.
    fn turn<W: Work>(&mut self, work: &mut W, lane: u8) -> Outcome
        requires { IsTogether (W.game work.old) (W.loads work.old) (W.closes work.old) (W.stops work.old) self.old }
        ensures together { IsTogether (W.game work.new) (W.loads work.new) (W.closes work.new) (W.stops work.new) self.new }
        ensures answers { IsAnsweredBy self.old.task self.old.search (Event.Turn lane) result self.new.search }
        ensures task { self.new.task ≡ self.old.task }
        ensures idle { result ≡ Outcome.Idle → work.new ≡ work.old }
        ensures ends { (l : Load) → load_at (W.loads work.old) lane ≡ Some l → l.ended ≡ false → (result ≡ Outcome.Ended) ↔ W.ends work.old l.node l.moves }
        ensures loads { LeavesLoads (W.most_moves work.old) (W.loads work.old) (Event.Turn lane) result (W.loads work.new) }
        ensures tests { AreSameTests (W.ends work.old) (W.closes work.old) (W.stops work.old) (W.ends work.new) (W.closes work.new) (W.stops work.new) }
        ensures most { W.most_moves work.new ≡ W.most_moves work.old }
    {
        if !self.holds(lane, false) {
            return Outcome::Idle;
        }
        match work.step(lane) {
            Step::Moved => Outcome::Moved,
            Step::Ended => {
                self.end_turns(lane);
                Outcome::Ended
            }
        }
    }

    /// What the work on a lane's node came to goes into the search. After want of memory nothing is changed.
    fn settle(&mut self, alloc: Global, lane: u8, found: Ended) -> Result<(), AllocError>
        requires { (node : Fix) × Holds self.old.search lane node true × GivesResult self.old.task.game node found }
        ensures goes { OnOk result (Goes self.old.task self.old.search (change_of lane found) self.new.search) }
        ensures task { self.new.task ≡ self.old.task }
        ensures kept { OnErr result (self.new ≡ self.old) }
    {
        match found {
            Ended::Worked(fact, point) => self.record_result(alloc, lane, fact, point),
            Ended::Stuck(cause) => self.stick(lane, cause),
        }
    }

    /// A lane's node is finished.
    fn finish<W: Work>(
        &mut self,
        alloc: Global,
        work: &mut W,
        lane: u8,
    ) -> Result<Outcome, AllocError>
        requires { IsTogether (W.game work.old) (W.loads work.old) (W.closes work.old) (W.stops work.old) self.old }
        ensures together { IsTogether (W.game work.new) (W.loads work.new) (W.closes work.new) (W.stops work.new) self.new }
        ensures answers { IfOk result (λ o. IsAnsweredBy self.old.task self.old.search (Event.Finish lane) o self.new.search) }
        ensures task { self.new.task ≡ self.old.task }
        ensures idle { IfOk result (λ o. o ≡ Outcome.Idle → work.new ≡ work.old) }
        ensures kept { OnErr result (self.new ≡ self.old) }
        ensures work_kept { OnErr result (work.new ≡ work.old) }
        ensures loads { IfOk result (λ o. LeavesLoads (W.most_moves work.old) (W.loads work.old) (Event.Finish lane) o (W.loads work.new)) }
        ensures tests { AreSameTests (W.ends work.old) (W.closes work.old) (W.stops work.old) (W.ends work.new) (W.closes work.new) (W.stops work.new) }
        ensures most { W.most_moves work.new ≡ W.most_moves work.old }
    {
        if !self.holds(lane, true) {
            return Ok(Outcome::Idle);
        }
        let found = work.finish(alloc, lane)?;
        self.settle(alloc, lane, found)?;
        work.clear(lane);
        Ok(Outcome::Closed)
    }

    /// One event of one lane, over a work that holds in each lane what the machine holds there.
    ///
    /// An event that is enabled is made, and answered with the node that was taken, with what the step of the node's
    /// program came to, or as closed. One that is not enabled changes nothing and answers `Idle`, exactly there. After
    /// want of memory nothing is changed, and a turn never wants any.
    pub fn event<W: Work>(
        &mut self,
        alloc: Global,
        work: &mut W,
        e: Event,
    ) -> Result<Outcome, AllocError>
        requires { IsTogether (W.game work.old) (W.loads work.old) (W.closes work.old) (W.stops work.old) self.old }
        ensures together { IsTogether (W.game work.new) (W.loads work.new) (W.closes work.new) (W.stops work.new) self.new }

        // The change is one that the event may come to, or the event isn't enabled.
        ensures answers { IfOk result (λ o. IsAnsweredBy self.old.task self.old.search e o self.new.search) }
        ensures task { self.new.task ≡ self.old.task }
        ensures idle { IfOk result (λ o. o ≡ Outcome.Idle → work.new ≡ work.old) }

        // A turn ends a node exactly where the work's test says so.
        ensures ends { (lane : ℕ) (l : Load) → e ≡ Event.Turn lane → load_at (W.loads work.old) lane ≡ Some l → l.ended ≡ false → IfOk result (λ o. (o ≡ Outcome.Ended) ↔ W.ends work.old l.node l.moves) }
        ensures turns { (lane : ℕ) → e ≡ Event.Turn lane → IsOk result }

        // After want of memory nothing is changed.
        ensures kept { OnErr result (self.new ≡ self.old) }
        ensures work_kept { OnErr result (work.new ≡ work.old) }

        // Each known node is in one place, the tree's proved prefixes are the worked ones, and what else every state keeps.
        ensures sound { IsSound self.new.task self.new.search }

        // What the lanes of the work hold then; its tests stay.
        ensures loads { IfOk result (λ o. LeavesLoads (W.most_moves work.old) (W.loads work.old) (e) o (W.loads work.new)) }
        ensures tests { AreSameTests (W.ends work.old) (W.closes work.old) (W.stops work.old) (W.ends work.new) (W.closes work.new) (W.stops work.new) }
        ensures most { W.most_moves work.new ≡ W.most_moves work.old }
    {
        let answer = match e {
            Event::Begin(lane, n) => self.begin(alloc, work, lane, n),
            Event::Turn(lane) => Ok(self.turn(work, lane)),
            Event::Finish(lane) => self.finish(alloc, work, lane),
        };
        self.keeps();
        answer
    }
}
