//! What a lane holds.

ghost use Rattle.std.specs.Prelude.{◌≡◌, ◌+◌, ◌≤◌, length, pos, IfOk, OnErr, OnOk, None};
ghost use Rattle.sg_model.specs.PlayLists.{play_count};
ghost use Rattle.sg_bounds.specs.Regions.{IsFix};
ghost use Rattle.sg_lp.specs.Pooled.{GivesBack, taken_from};
ghost use Rattle.sg_lp.specs.States.{start_of};
ghost use Rattle.sg_simplex.specs.Nodes.{IsProgramNode};
ghost use Rattle.sg_programs.specs.Plays.{plays_program};
ghost use Rattle.sg_desk.specs.Runs.{StepsBy, listed_program};

use sg_dobss::Listed;
use sg_game::Game;
use sg_pool::Pool;
use sg_simplex::{Node, Turn};
use sg_tree::Fix;
use sg_work::Step;
use std::alloc::{AllocError, Global};

/// A node's run: the program over its listed plays, and the answer by which it ended, if it has.
#[derive(Drop)]
pub(crate) struct Run<'a> {
    pub(crate) fix: Fix,
    pub(crate) node: Node<Listed<'a>>,
    pub(crate) answer: Option<Turn>,
}

impl<'a> Run<'a> {
    /// The run of a node at its start, in rows of the pool. After want of memory the pool is as before.
    pub(crate) fn start(
        alloc: Global,
        game: &'a Game,
        fix: &Fix,
        pivots: u64,
        looks: u64,
        pool: &mut Pool,
    ) -> Result<Run<'a>, AllocError>
        requires unscaled { game.now.scale ≡ pos 0 }
        requires is_fix { IsFix game.now fix.now }
        requires few { play_count game.now ≤ 4096 }
        requires wide { (plays_program game.now fix.now).height ≤ pool.old.width }
        requires spare { (plays_program game.now fix.now).height + 1 ≤ length pool.old.free }
        ensures started { IfOk result (λ r. r ≡ record { fix = fix.now; node = record { family = record { game = game.now; fix = fix.now }; tableau = start_of (plays_program game.now fix.now).height; width = pool.old.width; steps = 0; pivots = pivots; looks = looks }; answer = None }) }
        ensures taken { OnOk result (pool.new ≡ taken_from pool.old ((plays_program game.now fix.now).height + 1)) }
        ensures kept { OnErr result (pool.new ≡ pool.old) }
    {
        let own = fix.copy(alloc)?;
        let listed = Listed::new(alloc, game, fix)?;
        let node = Node::start(alloc, listed, pivots, looks, pool)?;
        Ok(Run {
            fix: own,
            node,
            answer: None,
        })
    }

    /// A turn of its program, or the answer by which it ends.
    pub(crate) fn step(&mut self) -> Step
        ensures steps { StepsBy self.old self.new result }
        ensures kept { IsProgramNode (listed_program self.old.node.family) self.old.node.tableau self.old.node.steps }
    {
        let _state = self.node.state();
        match self.node.turn() {
            Turn::Moved => Step::Moved,
            answer => {
                self.answer = Some(answer);
                Step::Ended
            }
        }
    }

    /// Gives its rows back.
    pub(crate) fn close(self, pool: &mut Pool)
        requires width { self.node.width ≡ pool.old.width }
        requires out { length pool.old.free + ((listed_program self.node.family).height + 1) ≤ pool.old.count }
        ensures { GivesBack pool.old pool.new ((listed_program self.entry.node.family).height + 1) }
    {
        self.node.close(pool);
    }
}
