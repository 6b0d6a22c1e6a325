//! A desk whose calls are listed.

ghost use Rattle.std.specs.Prelude.{◌≡◌, ◌≤◌, pos, replicate, IfOk, None};
ghost use Rattle.sg_model.specs.PlayLists.{play_count};

use sg_desk::Desk;
use sg_game::Game;
use sg_tree::Fix;
use sg_work::{Ended, Step, Work};
use std::alloc::{AllocError, Global};

/// How many calls are listed.
const CALLS: usize = 1000;

/// A call on a lane.
#[derive(Clone, Copy, Debug, PartialEq, Eq)]
pub enum Call {
    /// It takes a node.
    Start(u8),
    /// Its program makes a step.
    Step(u8),
    /// It lets its node go.
    Clear(u8),
}

/// Work on the nodes of a game at a desk, which lists the first calls.
#[derive(Drop)]
pub struct Watched<'a> {
    pub(crate) desk: Desk<'a>,
    pub(crate) calls: Vec<Call>,
}

/// Lists a call, where there is room.
fn note(calls: &mut Vec<Call>, call: Call) {
    if calls.len() < calls.capacity() {
        calls.push_reserved(call);
    }
}

impl<'a> Watched<'a> {
    /// A desk whose lanes hold nothing, for programs of so many moves.
    pub fn new(
        alloc: Global,
        game: &'a Game,
        lanes: u8,
        pivots: u64,
    ) -> Result<Watched<'a>, AllocError>
        requires unscaled { game.now.scale ≡ pos 0 }
        requires few { play_count game.now ≤ 4096 }
        requires some { 1 ≤ lanes }
        requires most { lanes ≤ 8 }
        ensures { IfOk result (λ w. w.desk ≡ record { game = game.now; loads = replicate lanes None; pivots = pivots; looks = 100000 }) }
    {
        let calls = Vec::with_capacity(alloc, CALLS)?;
        let desk = Desk::new(alloc, game, lanes, pivots, 100_000)?;
        Ok(Watched { desk, calls })
    }

    /// The calls, in order.
    pub fn calls(&self) -> &[Call] {
        self.calls.as_slice()
    }
}

impl<'a> Work for Watched<'a> {
    ghost use Rattle.sg_programs.specs.NodeTests.{ClosesNode, EndsNode, StopsNode, listed_plays};

    ghost game = { λ w. w.desk.game };

    ghost loads = { λ w. w.desk.loads };

    ghost ends = { λ w. EndsNode w.desk.game (listed_plays w.desk.game w.desk.pivots w.desk.looks) };

    ghost closes = { λ w. ClosesNode w.desk.game (listed_plays w.desk.game w.desk.pivots w.desk.looks) };

    ghost stops = { λ w. StopsNode w.desk.game (listed_plays w.desk.game w.desk.pivots w.desk.looks) };

    ghost most_moves = { λ w. w.desk.pivots };

    fn start(&mut self, alloc: Global, lane: u8, fix: &Fix) -> Result<(), AllocError> {
        self.desk.start(alloc, lane, fix)?;
        note(&mut self.calls, Call::Start(lane));
        Ok(())
    }

    fn step(&mut self, lane: u8) -> Step {
        note(&mut self.calls, Call::Step(lane));
        self.desk.step(lane)
    }

    fn finish(&self, alloc: Global, lane: u8) -> Result<Ended, AllocError> {
        self.desk.finish(alloc, lane)
    }

    fn clear(&mut self, lane: u8) {
        note(&mut self.calls, Call::Clear(lane));
        self.desk.clear(lane);
    }
}
