// What a target of a game with a scale is read for.
ghost use Rattle.std.specs.Prelude.{◌≡◌, ◌≤◌, ◌^◌, length, map, pos, ◌*ℤ◌, ◌-ℤ◌, ◌≤ℤ◌, int_div, FitsSigned, IfOk};
ghost use Rattle.std.specs.Int.{w128};
ghost use Rattle.sg_model.specs.Sums.{numbers};
ghost use Rattle.sg_model.specs.Games.{payoff};
ghost use Rattle.sg_model.specs.Fillable.{IsFillable};
ghost use Rattle.sg_model.specs.declared.limit.TheConstants.{SCALE_LIMIT};
ghost use Rattle.sg_model.specs.Limits.{IsPay, IsWithin};
ghost use Rattle.sg_origami.specs.Rates.{IsRate, multiple, rate_at};

use sg_game::Game;
use sqlite_items::Items;
use std::alloc::{AllocError, Global};
use std::marker::Model;

/// The product.
pub fn product(a: i128, b: i128) -> i128
    requires { FitsSigned w128 (a *ℤ b) }
    ensures { result ≡ a *ℤ b }
{
    a * b
}

/// The quotient by a number above 0.
pub fn quotient(a: i128, b: i128) -> i128
    requires { pos 1 ≤ℤ b }
    ensures { result ≡ int_div a b }
{
    a / b
}

/// The number of targets.
pub fn targets_of(game: &Game) -> u16
    requires { IsFillable game.now }
    ensures { result ≡ length game.now.goals }
{
    game.targets()
}

/// What the attacker gets at target `t` where it is uncovered.
pub fn uncovered(game: &Game, t: u16) -> i128
    requires fillable { IsFillable game.now }
    requires from_one { 1 ≤ t }
    requires in_range { t ≤ length game.now.goals }
    ensures value { result ≡ (payoff game.now 1 t).au }
    ensures range { IsPay result }
{
    i128::from(game.payoffs(1, t)[3])
}

/// What the attacker gets at target `t` where it is covered.
pub fn covered(game: &Game, t: u16) -> i128
    requires fillable { IsFillable game.now }
    requires from_one { 1 ≤ t }
    requires in_range { t ≤ length game.now.goals }
    ensures value { result ≡ (payoff game.now 1 t).ac }
    ensures range { IsPay result }
{
    i128::from(game.payoffs(1, t)[2])
}

/// How often the gap of target `t` goes into the scale.
pub fn multiple(game: &Game, t: u16) -> i128
    requires fillable { IsFillable game.now }
    requires from_one { 1 ≤ t }
    requires in_range { t ≤ length game.now.goals }
    ensures value { result ≡ multiple game.now t }
    ensures range { IsWithin (pos 1) SCALE_LIMIT result }
{
    let gap = uncovered(game, t) - covered(game, t);
    quotient(i128::from(game.scale()), gap)
}

/// What a target adds to the sums of a level.
#[derive(Clone, Copy)]
pub struct Rate {
    multiple: i128,
    uncovered: i128,
}

impl Model for Rate {
    ghost use Rattle.sg_origami.specs.Rates.{IsRate, RateView};

    ghost Value = { RateView };

    ghost view = { λ r. record { multiple = r.multiple; uncovered = r.uncovered } };

    ghost invariant = { λ r. IsRate (record { multiple = r.multiple; uncovered = r.uncovered }) };

    ghost inverse = { λ r. record { multiple = r.multiple; uncovered = r.uncovered } };
}

impl Rate {
    /// How often its gap goes into the scale.
    pub fn multiple(&self) -> i128
        ensures value { result ≡ self.now.multiple }
        ensures range { IsRate self.now }
    {
        self.multiple
    }

    /// What the attacker gets where it is uncovered.
    pub fn uncovered(&self) -> i128
        ensures value { result ≡ self.now.uncovered }
        ensures range { IsRate self.now }
    {
        self.uncovered
    }
}

/// The rate of target `t`.
fn rate_of(game: &Game, t: u16) -> Rate
    requires fillable { IsFillable game.now }
    requires from_one { 1 ≤ t }
    requires in_range { t ≤ length game.now.goals }
    ensures { result ≡ rate_at game.now t }
{
    Rate {
        multiple: multiple(game, t),
        uncovered: uncovered(game, t),
    }
}

/// The rates of all targets, read once.
pub fn rates_of(alloc: Global, game: &Game) -> Result<Items<Rate>, AllocError>
    requires { IsFillable game.now }
    ensures { IfOk result (λ rates. rates ≡ map (rate_at game.now) (numbers (length game.now.goals))) }
{
    let mut rates = Items::new(alloc);
    for t in 0..targets_of(game) {
        rates.push(rate_of(game, t + 1))?;
    }
    Ok(rates)
}
