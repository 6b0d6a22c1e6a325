// The level below which the attacker's best payoff can't fall, and why.
ghost use Rattle.std.specs.Prelude.{◌≡◌, ◌≤◌, ◌^◌, length, map, pos, ◌-ℤ◌, ◌≤ℤ◌};
ghost use Rattle.sg_model.specs.Sums.{numbers};
ghost use Rattle.sg_model.specs.Origami.{IsWater, SpendsAll};
ghost use Rattle.sg_model.specs.Limits.{IsPay};
ghost use Rattle.sg_origami.specs.Fillings.{IsReasonOf};
ghost use Rattle.sg_model.specs.Fillable.{IsFillable};
ghost use Rattle.sg_origami.specs.Rates.{IsFirstMost, IsReachable, rate_at};

use crate::height::Height;
use crate::level::spent_level;
use crate::rate::{Rate, covered, product, targets_of};
use sg_game::Game;
use sg_model::Level;

/// The level to which the patrols can bring the targets that are above it.
fn spent_of(game: &Game, rates: &[Rate]) -> Height
    requires fillable { IsFillable game.now }
    requires rates { rates.now ≡ map (rate_at game.now) (numbers (length game.now.goals)) }
    ensures { SpendsAll game.now result.num result.den }
{
    let have = product(i128::from(game.resources()), i128::from(game.scale()));
    spent_level(rates, have)
}

/// A target, and what it pays the attacker where it is covered.
#[derive(Clone, Copy)]
struct Floor {
    target: u16,
    pay: i128,
}

/// The first of the targets that pay the attacker most where they are covered.
fn floor_of(game: &Game) -> Floor
    requires fillable { IsFillable game.now }
    ensures floor { IsFirstMost game.now (length game.now.goals) result.target result.pay }
    ensures range { IsPay result.pay }
{
    let mut target = 1;
    let mut pay = covered(game, 1);
    for t in 1..targets_of(game) {
        let next = covered(game, t + 1);
        if pay < next {
            target = t + 1;
            pay = next;
        }
    }
    Floor { target, pay }
}

/// A level, and why the attacker's best payoff can't fall below it.
#[derive(Drop)]
pub struct Found {
    pub level: Height,
    pub reason: Level,
}

/// The least level that the attacker's best payoff can have, and why.
pub fn level_of(game: &Game, rates: &[Rate]) -> Found
    requires fillable { IsFillable game.now }
    requires rates { rates.now ≡ map (rate_at game.now) (numbers (length game.now.goals)) }
    ensures water { IsWater game.now result.level.num result.level.den result.reason }
    ensures reason { IsReasonOf game.now result.level.num result.level.den result.reason }
    ensures reachable { IsReachable game.now result.level.num result.level.den }
{
    let spent = spent_of(game, rates);
    let floor = floor_of(game);
    if spent.is_reached(floor.pay) {
        Found {
            level: Height::of(floor.pay, 1),
            reason: Level::Target(floor.target),
        }
    } else {
        Found {
            level: spent,
            reason: Level::Resources,
        }
    }
}
