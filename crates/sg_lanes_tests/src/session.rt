//! A search over a desk.

ghost use Rattle.std.specs.Prelude.{◌≡◌, ◌≤◌, IsTrue, pos};
ghost use Rattle.sg_model.specs.PlayLists.{play_count};

use crate::watched::{Call, Watched};
use sg_frac::Frac;
use sg_game::{Game, plays_count};
use sg_lanes::{End, Lanes};
use sg_search::{Event, Outcome, Ready};
use std::alloc::{AllocError, Global};
use std::marker::Model;

/// A search with the desk that works its nodes. They hold the same.
#[derive(Drop)]
pub struct Session<'a> {
    lanes: Lanes<'a>,
    work: Watched<'a>,
}

impl<'a> Model for Session<'a> {
    ghost use Rattle.sg_lanes.specs.Machines.{Machine, IsTogether};
    ghost use Rattle.sg_programs.specs.NodeTests.{ClosesNode, StopsNode, listed_plays};

    ghost Value = { Machine };

    ghost view = { λ s. s.lanes };

    ghost invariant = { λ s. IsTogether s.work.desk.game s.work.desk.loads (ClosesNode s.work.desk.game (listed_plays s.work.desk.game s.work.desk.pivots s.work.desk.looks)) (StopsNode s.work.desk.game (listed_plays s.work.desk.game s.work.desk.pivots s.work.desk.looks)) s.lanes };
}

/// Whether a search may be made: the game has no scale and at most 4,096 plays, there are 1 to 8 lanes, and at most 1,000,000 nodes may be worked.
fn may_start(game: &Game, lanes: u8, nodes: u64) -> bool
    ensures unscaled { IsTrue result → game.now.scale ≡ pos 0 }
    ensures few { IsTrue result → play_count game.now ≤ 4096 }
    ensures some { IsTrue result → 1 ≤ lanes }
    ensures most { IsTrue result → lanes ≤ 8 }
    ensures nodes { IsTrue result → nodes ≤ 1000000 }
{
    if game.scale() != 0 || lanes == 0 || lanes > 8 || nodes > 1_000_000 {
        return false;
    }
    match plays_count(game) {
        Some(count) => count <= 4096,
        None => false,
    }
}

impl<'a> Session<'a> {
    /// A search at its start with so many lanes and nodes, over programs of so many moves; none where there is no such search.
    pub fn new(
        alloc: Global,
        game: &'a Game,
        lanes: u8,
        nodes: u64,
        pivots: u64,
    ) -> Result<Option<Session<'a>>, AllocError> {
        if !may_start(game, lanes, nodes) {
            return Ok(None);
        }
        let work = Watched::new(alloc, game, lanes, pivots)?;
        let lanes = Lanes::new(alloc, game, lanes, nodes)?;
        Ok(Some(Session { lanes, work }))
    }

    /// An event.
    pub fn event(&mut self, alloc: Global, e: Event) -> Result<Outcome, AllocError> {
        self.lanes.event(alloc, &mut self.work, e)
    }

    /// What a lane may be asked to do.
    pub fn enabled(&self, lane: u8) -> Ready {
        self.lanes.enabled(lane)
    }

    /// The bound by which a choice of a lane is ranked, where the lane has it.
    pub fn bound(&self, lane: u8, n: u32) -> Option<Frac> {
        match self.lanes.enabled(lane) {
            Ready::Begin(count) => {
                if n < count {
                    Some(self.lanes.bound(n))
                } else {
                    None
                }
            }
            _ => None,
        }
    }

    /// The calls on the desk.
    pub fn calls(&self) -> &[Call] {
        self.work.calls()
    }

    /// What the search comes to.
    pub fn end(self, alloc: Global) -> Result<End, AllocError> {
        let Session { lanes, work: _ } = self;
        lanes.end(alloc)
    }
}
