//! What the bounds of a game's facts have in common: the open types at their caps, less the shift of the fixed ones.

ghost use Rattle.std.specs.Prelude.{◌≡◌, ◌≤◌, ◌+◌, ◌-◌, ◌^◌, ◌*ℤ◌, ◌-ℤ◌, ◌≤ℤ◌, length, pos};
ghost use Rattle.sg_model.specs.Games.{attacker};
ghost use Rattle.sg_model.specs.Payoffs.{greatest_of, shift_of};
ghost use Rattle.sg_model.specs.Sums.{numbers, numbers_from, total};
ghost use Rattle.sg_bounds.specs.Caps.{cap_of};
ghost use Rattle.sg_bounds.specs.Leaves.{rest_of, root_bound};
ghost use Rattle.sg_game.specs.Counts.{IsTypeOf};
ghost use Rattle.sg_upper.specs.Rests.{AreRests, HasCaps};

use sg_game::{Game, greatest, prior_total, shift};
use sg_tree::Cap;

/// The numbers that the bounds of all facts of a game are formed with.
#[derive(Clone, Copy)]
pub(crate) struct Rests {
    /// For each number of fixed types: what the bound of a fact adds to `mu`, for each `rho`.
    pub(crate) by_fixed: [i128; 9],
    /// The sum of the priors.
    pub(crate) priors: i128,
}

/// The cap of type `l`, and 0 for the first, which has none.
fn cap_at(caps: &[Cap], l: u8) -> i128
    requires { l ≤ length caps.now + 1 }
    ensures value { result ≡ (cap_of caps.now l).v }
    ensures low { (pos 0 -ℤ pos (2 ^ 63)) ≤ℤ result }
    ensures high { result ≤ℤ pos (2 ^ 63) }
{
    if l < 2 {
        return 0;
    }
    i128::from(caps[l as usize - 2].v)
}

/// The prior of type `l`.
fn prior(game: &Game, l: u8) -> i128
    requires { IsTypeOf game.now l }
    ensures value { result ≡ (attacker game.now l).prior }
    ensures low { pos 1 ≤ℤ result }
    ensures high { result ≤ℤ pos (2 ^ 20) }
{
    i128::from(game.prior(l))
}

/// The product of two numbers, the first of which is a prior.
fn product(share: i128, value: i128) -> i128
    requires low { pos 0 ≤ℤ share }
    requires high { share ≤ℤ pos (2 ^ 23) }
    requires least { (pos 0 -ℤ pos (2 ^ 63)) ≤ℤ value }
    requires greatest { value ≤ℤ pos (2 ^ 63) }
    ensures value { result ≡ share *ℤ value }
    ensures low { (pos 0 -ℤ pos (2 ^ 86)) ≤ℤ result }
    ensures high { result ≤ℤ pos (2 ^ 86) }
{
    share * value
}

/// What is taken of the types behind the first `n`, at most: their caps with their priors.
fn open_worth(game: &Game, caps: &[Cap], n: u8) -> i128
    requires caps { HasCaps game.now caps.now }
    requires few { n ≤ length game.now.types }
    ensures value { result ≡ total (λ l. (attacker game.now l).prior *ℤ (cap_of caps.now l).v) (numbers_from (n + 1) (length game.now.types - n)) }
    ensures low { (pos 0 -ℤ pos (2 ^ 90)) ≤ℤ result }
    ensures high { result ≤ℤ pos (2 ^ 90) }
{
    let mut worth = 0;
    for i in 0..game.types() - n {
        worth += product(prior(game, n + i + 1), cap_at(caps, n + i + 1));
    }
    worth
}

/// The sum of the priors of the first `n` types.
fn fixed_priors(game: &Game, n: u8) -> i128
    requires { n ≤ length game.now.types }
    ensures value { result ≡ total (λ l. (attacker game.now l).prior) (numbers n) }
    ensures low { pos 0 ≤ℤ result }
    ensures high { result ≤ℤ pos (2 ^ 23) }
{
    let _types = game.types();
    let mut priors = 0;
    for i in 0..n {
        priors += prior(game, i + 1);
    }
    priors
}

/// What the bound of a fact that fixes the first `n` types adds to `mu`, for each `rho`.
fn rest(game: &Game, caps: &[Cap], n: u8) -> i128
    requires caps { HasCaps game.now caps.now }
    requires few { n ≤ length game.now.types }
    ensures value { result ≡ rest_of game.now caps.now n }
{
    let shift = i128::from(shift(game));
    open_worth(game, caps, n) - product(fixed_priors(game, n), shift)
}

/// The numbers of a game with these caps.
pub(crate) fn rests_of(game: &Game, caps: &[Cap]) -> Rests
    requires { HasCaps game.now caps.now }
    ensures { AreRests game.now caps.now result }
{
    let mut by_fixed = [0; 9];
    for n in 0..game.types() + 1 {
        by_fixed[n as usize] = rest(game, caps, n);
    }
    Rests {
        by_fixed,
        priors: i128::from(prior_total(game)),
    }
}

/// The greatest payoff of type `l`.
fn most(game: &Game, l: u8) -> i128
    requires { IsTypeOf game.now l }
    ensures value { result ≡ greatest_of game.now l }
    ensures low { (pos 0 -ℤ pos (2 ^ 63)) ≤ℤ result }
    ensures high { result ≤ℤ pos (2 ^ 63) }
{
    i128::from(greatest(game, l))
}

/// What is taken at most of all types: their greatest payoffs with their priors.
pub(crate) fn greatest_worth(game: &Game) -> i128
    ensures { result ≡ (root_bound game.now).num }
{
    let mut worth = 0;
    for i in 0..game.types() {
        worth += product(prior(game, i + 1), most(game, i + 1));
    }
    worth
}
