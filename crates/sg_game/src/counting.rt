//! Plays, schedules and program rows, counted.

ghost use Rattle.std.specs.Prelude.{◌≡◌, ◌≤◌, ◌<◌, ◌*◌, ◌↔◌, ◌^◌, ◌∷◌, [], replicate, ℕ, IfOk, IsTrue, MatchOption, length, true, false};
ghost use Rattle.sg_model.specs.Games.{is_matrix, resource_count, resource_schedules};
ghost use Rattle.sg_model.specs.Limits.{program_rows};
ghost use Rattle.sg_model.specs.Plays.{IsLegal};
ghost use Rattle.sg_model.specs.PlayLists.{choices_from, play_count};
ghost use Rattle.sg_game.specs.Counts.{IsResourceOf};
ghost use Rattle.sg_game.specs.Counting.{IsSingle, least_code};

use crate::draft::rows_of;
use crate::game::Game;
use sg_model::{Kind, Play};
use sqlite_items::Items;
use std::alloc::{AllocError, Global};

/// So many idle choices.
fn idle_code(alloc: Global, n: u16) -> Result<Items<u16>, AllocError>
    ensures { IfOk result (λ code. code ≡ replicate n 0) }
{
    let mut code = Items::new(alloc);
    for k in 0..n {
        code.push(0)?;
    }
    Ok(code)
}

/// The choice of row 1.
fn row_code(alloc: Global) -> Result<Items<u16>, AllocError>
    ensures { IfOk result (λ code. code ≡ 1 ∷ []) }
{
    let mut code = Items::new(alloc);
    code.push(1)?;
    Ok(code)
}

/// The choices of the play in which all resources are idle, or in matrix form row 1.
fn least_code(alloc: Global, game: &Game) -> Result<Items<u16>, AllocError>
    ensures { IfOk result (λ code. code ≡ least_code game.now) }
{
    match game.kind() {
        Kind::Security => idle_code(alloc, game.resources()),
        Kind::Matrix => row_code(alloc),
    }
}

/// The play in which all resources are idle, or in matrix form row 1.
pub fn least_play(alloc: Global, game: &Game) -> Result<Play, AllocError>
    ensures code { IfOk result (λ play. play.code ≡ least_code game.now) }
    ensures legal { IfOk result (λ play. IsLegal game.now play.code) }
{
    game.promises();
    Ok(Play {
        code: least_code(alloc, game)?,
    })
}

/// How many choices the resources have together, where they are below 2^64.
fn choices(game: &Game) -> Option<u64>
    ensures { MatchOption result (2 ^ 64 ≤ choices_from game.now 1 (resource_count game.now)) (λ n. n ≡ choices_from game.now 1 (resource_count game.now)) }
{
    let mut count: u64 = 1;
    for r in 0..game.resources() {
        let choices = game.resource_schedules(r + 1).len() as u64 + 1;
        count = count.checked_mul(choices)?;
    }
    Some(count)
}

/// The number of legal plays: `None` exactly where it is above 2^64 - 1.
pub fn plays_count(game: &Game) -> Option<u64>
    ensures { MatchOption result (2 ^ 64 ≤ play_count game.now) (λ n. n ≡ play_count game.now) }
{
    match game.kind() {
        Kind::Security => choices(game),
        Kind::Matrix => Some(game.rows() as u64),
    }
}

/// Whether each schedule has one target, in security form.
pub fn is_single(game: &Game) -> bool
    ensures { IsTrue result ↔ IsSingle game.now }
{
    match game.kind() {
        Kind::Security => has_singles(game),
        Kind::Matrix => false,
    }
}

/// Whether each schedule has one target.
fn has_singles(game: &Game) -> bool
    requires { is_matrix game.now ≡ false }
    ensures { IsTrue result ↔ IsSingle game.now }
{
    for s in 0..game.schedules() {
        if game.schedule_targets(s + 1).len() != 1 {
            return false;
        }
    }
    true
}

impl Game {
    /// The rows of the largest linear program of the game.
    fn rows_counted(&self) -> usize
        ensures rows { result ≡ program_rows self.now }
        ensures small { result ≤ 200000 }
    {
        let resources = self.resources() as usize;
        rows_of(
            self.kind,
            resources,
            self.goals.len(),
            self.types.as_slice(),
        )
    }
}

/// The rows of the largest linear program of the game.
pub fn program_rows(game: &Game) -> u32
    ensures rows { result ≡ program_rows game.now }
    ensures small { result ≤ 200000 }
{
    game.rows_counted() as u32
}
