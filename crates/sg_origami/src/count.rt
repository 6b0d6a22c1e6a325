// How much each target is covered at a level, in lowest terms.
ghost use Rattle.std.specs.Prelude.{◌≡◌, ◌≤◌, ◌^◌, length, map, pos, ◌*ℤ◌, ◌-ℤ◌, ◌≤ℤ◌, int_div, int_le, IfOk};
ghost use Rattle.sg_model.specs.Sums.{numbers};
ghost use Rattle.sg_model.specs.Games.{payoff};
ghost use Rattle.sg_model.specs.Origami.{count_at};
ghost use Rattle.sg_origami.specs.Fillings.{IsCoverage};
ghost use Rattle.sg_origami.specs.Rates.{IsCountDivisor, IsReachable};
ghost use Rattle.sg_model.specs.Fillable.{IsFillable};
ghost use Rattle.sg_model.specs.Limits.{IsWithin};

use crate::height::Height;
use crate::rate::{multiple, product, quotient, targets_of, uncovered};
use sg_game::Game;
use sg_num::gcd;
use sqlite_items::Items;
use std::alloc::{AllocError, Global};

/// Whether the uncovered payoff of target `t` is at least the level.
fn is_high(game: &Game, t: u16, level: &Height) -> bool
    requires fillable { IsFillable game.now }
    requires from_one { 1 ≤ t }
    requires in_range { t ≤ length game.now.goals }
    ensures { result ≡ int_le level.now.num ((payoff game.now 1 t).au *ℤ level.now.den) }
{
    level.is_reached(uncovered(game, t))
}

/// How far the uncovered payoff of target `t` is above the level, times the denominator.
fn excess_of(game: &Game, t: u16, level: &Height) -> i128
    requires fillable { IsFillable game.now }
    requires from_one { 1 ≤ t }
    requires in_range { t ≤ length game.now.goals }
    ensures value { result ≡ (payoff game.now 1 t).au *ℤ level.now.den -ℤ level.now.num }
    ensures range { IsWithin (pos 0 -ℤ pos (2 ^ 78)) (pos (2 ^ 78)) result }
{
    level.excess(uncovered(game, t))
}

/// How much of the scale times the denominator target `t` is covered at a level.
fn count_of(game: &Game, t: u16, level: &Height) -> i128
    requires fillable { IsFillable game.now }
    requires from_one { 1 ≤ t }
    requires in_range { t ≤ length game.now.goals }
    ensures { result ≡ count_at game.now level.now.num level.now.den t }
{
    if is_high(game, t, level) {
        product(multiple(game, t), excess_of(game, t, level))
    } else {
        0
    }
}

/// The greatest common divisor of a number and of the counts of all targets.
fn divisor_of(game: &Game, level: &Height, whole: u128) -> u128
    requires fillable { IsFillable game.now }
    ensures { IsCountDivisor game.now level.now.num level.now.den whole (length game.now.goals) result }
{
    let mut divisor = whole;
    for t in 0..targets_of(game) {
        divisor = gcd(divisor, count_of(game, t + 1, level).unsigned_abs());
    }
    divisor
}

/// The counts of all targets over a number above 0.
fn counts_of(
    alloc: Global,
    game: &Game,
    level: &Height,
    divisor: i128,
) -> Result<Items<i128>, AllocError>
    requires fillable { IsFillable game.now }
    requires positive { pos 1 ≤ℤ divisor }
    ensures { IfOk result (λ counts. counts ≡ map (λ t. int_div (count_at game.now level.now.num level.now.den t) divisor) (numbers (length game.now.goals))) }
{
    let mut counts = Items::new(alloc);
    for t in 0..targets_of(game) {
        counts.push(quotient(count_of(game, t + 1, level), divisor))?;
    }
    Ok(counts)
}

/// How many out of `total` tickets cover each target.
#[derive(Drop)]
pub struct Coverage {
    pub counts: Items<i128>,
    pub total: i128,
}

/// The coverage that brings each target down to the level, in lowest terms.
pub fn coverage_of(alloc: Global, game: &Game, level: &Height) -> Result<Coverage, AllocError>
    requires fillable { IsFillable game.now }
    requires reachable { IsReachable game.now level.now.num level.now.den }
    ensures { IfOk result (λ coverage. IsCoverage game.now level.now.num level.now.den coverage.counts coverage.total) }
{
    let whole = product(i128::from(game.scale()), level.den());
    let divisor = divisor_of(game, level, whole.unsigned_abs()) as i128;
    let counts = counts_of(alloc, game, level, divisor)?;
    let total = quotient(whole, divisor);
    Ok(Coverage { counts, total })
}
