//! The numbers of a game that its facts are measured by.

ghost use Rattle.std.specs.Prelude.{◌≡◌, ◌^◌, ◌≤ℤ◌, length, flat_map, pos};
ghost use Rattle.std.specs.Int.{int_max};
ghost use Rattle.sg_model.specs.Limits.{IsPay};
ghost use Rattle.sg_model.specs.Payoffs.{payoffs_of};
ghost use Rattle.sg_model.specs.Sums.{greatest, numbers};
ghost use Rattle.sg_game.specs.Counts.{IsTypeOf};
ghost use Rattle.sg_bounds.specs.Sizes.{attacker_most, attacker_span};
ghost use Rattle.sg_plays_fact.specs.Measuring.{AreMeasures};

use crate::spread::type_spread;
use sg_game::{Game, greatest, shift};

/// What all facts of a game are measured by; it is found once for all of them, by [`measures_of`].
#[derive(Clone, Copy, Debug, PartialEq, Eq)]
pub struct Measures {
    /// What makes each payoff of the defender at least 1.
    pub shift: i128,
    /// The defender's greatest payoff, with the shift.
    pub defender_most: i128,
    /// The greatest difference between two payoffs of one type, and at least 1.
    pub attacker_most: i128,
}

/// The greater of two numbers.
fn greater(left: i64, right: i64) -> i64
    ensures { result ≡ int_max left right }
{
    if left < right { right } else { left }
}

/// The defender's greatest payoff.
fn defender_greatest(game: &Game) -> i64
    ensures greatest { result ≡ greatest (flat_map (payoffs_of game.now) (numbers (length game.now.types))) }
    ensures within { IsPay result }
{
    game.promises();
    let types = game.types();
    let mut most = greatest(game, 1);
    for l in 1..types {
        most = greater(most, greatest(game, l + 1));
    }
    most
}

/// The greatest difference between two payoffs of a type.
fn span(game: &Game, l: u8) -> i64
    requires { IsTypeOf game.now l }
    ensures span { result ≡ attacker_span game.now l }
    ensures few { result ≤ℤ pos (2 ^ 31) }
{
    let spread = type_spread(game, l);
    spread.greatest - spread.least
}

/// The greatest difference between two payoffs of one type, and at least 1.
fn attacker_most(game: &Game) -> i64
    ensures most { result ≡ attacker_most game.now }
    ensures some { pos 1 ≤ℤ result }
    ensures few { result ≤ℤ pos (2 ^ 31) }
{
    let mut most = 1;
    for l in 0..game.types() {
        most = greater(most, span(game, l + 1));
    }
    most
}

/// The numbers of a game, in one pass over its payoffs for each.
pub fn measures_of(game: &Game) -> Measures
    ensures { AreMeasures game.now result }
{
    let shift = shift(game);
    Measures {
        shift: i128::from(shift),
        defender_most: i128::from(defender_greatest(game) + shift),
        attacker_most: i128::from(attacker_most(game)),
    }
}
