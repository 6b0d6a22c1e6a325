//! The numbers of a game that the values of its facts are formed with.

ghost use Rattle.std.specs.Prelude.{◌≡◌, ◌≤◌, ◌+◌, ◌^◌, ◌≤ℤ◌, length, pos};
ghost use Rattle.sg_model.specs.Games.{attacker};
ghost use Rattle.sg_model.specs.Limits.{IsPay};
ghost use Rattle.sg_model.specs.Payoffs.{payoffs_of};
ghost use Rattle.sg_model.specs.Sums.{greatest, numbers, numbers_from, total};
ghost use Rattle.std.specs.Int.{int_max};
ghost use Rattle.std.specs.List.{flat_map};
ghost use Rattle.sg_bounds.specs.Sizes.{attacker_most, defender_most};

use crate::spans::attacker_span;
use sg_game::{Game, greatest, shift};

/// The larger of two numbers.
fn larger(left: i64, right: i64) -> i64
    ensures { result ≡ int_max left right }
{
    if right < left { left } else { right }
}

/// The greatest difference between two attacker payoffs of one type, and at least 1.
pub(crate) fn attacker_most(game: &Game) -> i128
    ensures { result ≡ attacker_most game.now }
{
    let types = game.types();
    let mut most = attacker_span(game, 1);
    for l in 1..types {
        most = larger(most, attacker_span(game, l + 1));
    }
    i128::from(larger(1, most))
}

/// The defender's greatest payoff.
fn greatest_payoff(game: &Game) -> i64
    ensures most { result ≡ greatest (flat_map (payoffs_of game.now) (numbers (length game.now.types))) }
    ensures within { IsPay result }
{
    game.promises();
    let types = game.types();
    let mut most = greatest(game, 1);
    for l in 1..types {
        most = larger(most, greatest(game, l + 1));
    }
    most
}

/// The defender's greatest payoff, with the shift.
pub(crate) fn defender_most(game: &Game) -> i128
    ensures { result ≡ defender_most game.now }
{
    i128::from(greatest_payoff(game) + shift(game))
}

/// The sum of the priors of `n` types from one on.
pub(crate) fn priors_from(game: &Game, from: u8, n: u8) -> i128
    requires from_one { 1 ≤ from }
    requires in_range { from + n ≤ length game.now.types + 1 }
    ensures value { result ≡ total (λ l. (attacker game.now l).prior) (numbers_from from n) }
    ensures low { pos 0 ≤ℤ result }
    ensures high { result ≤ℤ pos (2 ^ 23) }
{
    let _types = game.types();
    let mut priors = 0;
    for i in 0..n {
        priors += i128::from(game.prior(from + i));
    }
    priors
}
