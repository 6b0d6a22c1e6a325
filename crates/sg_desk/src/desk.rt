//! Desks.

ghost use Rattle.std.specs.Prelude.{◌≡◌, ◌≤◌, ◌+◌, ◌*◌, pos, replicate, IfOk, None};
ghost use Rattle.sg_model.specs.Limits.{program_rows};
ghost use Rattle.sg_pool.specs.Pools.{new_pool};
ghost use Rattle.sg_model.specs.PlayLists.{play_count};

use crate::run::Run;
use sg_game::{Game, program_rows};
use sg_pool::Pool;
use std::alloc::{AllocError, Global};
use std::marker::Model;

/// Work on the nodes of a game without a `scale`, over all its legal plays, of which there are at most 4,096.
///
/// It is seen as its game, what each lane holds, and how many moves each node may make, with how many looks each time that it prices.
#[derive(Drop)]
pub struct Desk<'a> {
    pub(crate) game: &'a Game,
    pub(crate) pool: Pool,
    pub(crate) runs: Vec<Option<Run<'a>>>,
    pub(crate) pivots: u64,
    pub(crate) looks: u64,
}

impl<'a> Model for Desk<'a> {
    ghost use Rattle.std.specs.Prelude.{map};
    ghost use Rattle.sg_desk.specs.Desks.{DeskView, IsDesk};
    ghost use Rattle.sg_desk.specs.Runs.{load_of};

    ghost Value = { DeskView };

    ghost view = { λ d. record { game = d.game.now; loads = map load_of d.runs.items; pivots = d.pivots; looks = d.looks } };

    ghost invariant = { λ d. IsDesk d.game.now d.pivots d.looks d.pool d.runs.items };
}

/// So many lanes that hold nothing.
fn free_lanes<'a>(alloc: Global, lanes: u8) -> Result<Vec<Option<Run<'a>>>, AllocError>
    ensures { IfOk result (λ runs. runs.items ≡ replicate lanes None) }
{
    let mut runs = Vec::with_capacity(alloc, lanes as usize)?;
    for _ in 0..lanes {
        runs.push(None)?;
    }
    Ok(runs)
}

/// A pool with rows for the largest program of the game in each lane.
fn pool_of(alloc: Global, game: &Game, lanes: u8) -> Result<Pool, AllocError>
    requires unscaled { game.now.scale ≡ pos 0 }
    requires most { lanes ≤ 8 }
    ensures { IfOk result (λ pool. pool ≡ new_pool (program_rows game.now) (lanes * (program_rows game.now + 1))) }
{
    game.promises();
    let rows = program_rows(game) as usize;
    Pool::new(alloc, rows, lanes as usize * (rows + 1))
}

impl<'a> Desk<'a> {
    /// A desk whose lanes, at most 8, hold nothing.
    ///
    /// # Errors
    ///
    /// An error only where memory ran out.
    pub fn new(
        alloc: Global,
        game: &'a Game,
        lanes: u8,
        pivots: u64,
        looks: u64,
    ) -> Result<Desk<'a>, AllocError>
        requires unscaled { game.now.scale ≡ pos 0 }
        requires few { play_count game.now ≤ 4096 }
        requires some { 1 ≤ lanes }
        requires most { lanes ≤ 8 }
        ensures { IfOk result (λ desk. desk ≡ record { game = game.now; loads = replicate lanes None; pivots = pivots; looks = looks }) }
    {
        let pool = pool_of(alloc, game, lanes)?;
        let runs = free_lanes(alloc, lanes)?;
        Ok(Desk {
            game,
            pool,
            runs,
            pivots,
            looks,
        })
    }
}
