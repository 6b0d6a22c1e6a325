//! What a desk does as work on nodes.

use crate::desk::Desk;
use crate::run::Run;
use sg_tree::Fix;
use sg_work::{Ended, Step, Work};
use std::alloc::{AllocError, Global};

impl<'a> Work for Desk<'a> {
    ghost use Rattle.sg_programs.specs.NodeTests.{ClosesNode, EndsNode, StopsNode, listed_plays};

    ghost game = { λ d. d.game };

    ghost loads = { λ d. d.loads };

    ghost ends = { λ d. EndsNode d.game (listed_plays d.game d.pivots d.looks) };

    ghost closes = { λ d. ClosesNode d.game (listed_plays d.game d.pivots d.looks) };

    ghost stops = { λ d. StopsNode d.game (listed_plays d.game d.pivots d.looks) };

    ghost most_moves = { λ d. d.pivots };

    fn start(&mut self, alloc: Global, lane: u8, fix: &Fix) -> Result<(), AllocError> {
        self.game.promises();
        let pool = &mut self.pool;
        let run = Run::start(alloc, self.game, fix, self.pivots, self.looks, pool)?;
        self.runs[lane as usize - 1] = Some(run);
        Ok(())
    }

    fn step(&mut self, lane: u8) -> Step {
        self.game.promises();
        match &mut self.runs[lane as usize - 1] {
            Some(run) => run.step(),
            None => unreachable!(),
        }
    }

    fn finish(&self, alloc: Global, lane: u8) -> Result<Ended, AllocError> {
        self.game.promises();
        match &self.runs[lane as usize - 1] {
            Some(run) => run.finish(alloc, self.game, self.pivots, self.looks),
            None => unreachable!(),
        }
    }

    fn clear(&mut self, lane: u8) {
        match self.runs[lane as usize - 1].take() {
            Some(run) => run.close(&mut self.pool),
            None => {}
        }
    }
}
