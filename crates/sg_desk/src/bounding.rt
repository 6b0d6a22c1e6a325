//! The bounds of a fact, under the greatest caps that a search has and under the least.

ghost use Rattle.std.specs.Prelude.{◌≡◌, ◌≤◌, ◌+◌, ◌-◌, ◌^◌, ℤ, List, [], ◌∷◌, ◌*ℤ◌, ◌-ℤ◌, ◌≤ℤ◌, length, pos};
ghost use Rattle.sg_num.specs.Operations.{first_wide, plus, times};
ghost use Rattle.sg_model.specs.Games.{attacker};
ghost use Rattle.sg_model.specs.Sums.{numbers_from, total};
ghost use Rattle.sg_tree.specs.declared.fact.Fact.TheVariants.{Plays};
ghost use Rattle.sg_tree.specs.declared.fact.Mark.{Mark};
ghost use Rattle.sg_game.specs.Counts.{IsTypeOf};
ghost use Rattle.sg_bounds.specs.Leaves.{rest_of};
ghost use Rattle.sg_bounds.specs.Regions.{IsFix};
ghost use Rattle.sg_bounds.specs.SizeSteps.{bound_steps};
ghost use Rattle.sg_programs.specs.Shown.{both_bounds};
ghost use Rattle.sg_desk.specs.Bounding.{end_cap, end_caps};

use crate::measures::priors_from;
use sg_game::{Game, greatest, prior_total, shift};
use sg_num::{Wide, sum, times};
use sg_tree::Fix;

/// The caps of the open types.
#[derive(Clone, Copy)]
pub(crate) enum Caps {
    /// The greatest payoff against each type.
    Most,
    /// What a payoff is at least: 1 less the shift.
    Least,
}

/// The cap of type `l`.
fn cap(game: &Game, caps: Caps, l: u8) -> i128
    requires { IsTypeOf game.now l }
    ensures value { result ≡ end_cap game.now caps l }
    ensures low { (pos 0 -ℤ pos (2 ^ 31)) ≤ℤ result }
    ensures high { result ≤ℤ pos (2 ^ 31) }
{
    match caps {
        Caps::Most => i128::from(greatest(game, l)),
        Caps::Least => 1 - i128::from(shift(game)),
    }
}

/// A prior, or some of them, times a payoff.
fn product(share: i128, value: i128) -> i128
    requires low { pos 0 ≤ℤ share }
    requires high { share ≤ℤ pos (2 ^ 23) }
    requires least { (pos 0 -ℤ pos (2 ^ 31)) ≤ℤ value }
    requires greatest { value ≤ℤ pos (2 ^ 31) }
    ensures value { result ≡ share *ℤ value }
    ensures low { (pos 0 -ℤ pos (2 ^ 54)) ≤ℤ result }
    ensures high { result ≤ℤ pos (2 ^ 54) }
{
    share * value
}

/// What is taken of the types behind the first `n`, at most: their caps with their priors.
fn open_worth(game: &Game, caps: Caps, n: u8) -> i128
    requires { n ≤ length game.now.types }
    ensures value { result ≡ total (λ l. (attacker game.now l).prior *ℤ end_cap game.now caps l) (numbers_from (n + 1) (length game.now.types - n)) }
    ensures low { (pos 0 -ℤ pos (2 ^ 60)) ≤ℤ result }
    ensures high { result ≤ℤ pos (2 ^ 60) }
{
    let mut worth = 0;
    for i in 0..game.types() - n {
        let l = n + i + 1;
        worth += product(i128::from(game.prior(l)), cap(game, caps, l));
    }
    worth
}

/// What the bound of a fact that fixes the first `n` types adds to `mu`, for each `rho`.
fn rest(game: &Game, caps: Caps, n: u8) -> i128
    requires some { 1 ≤ n }
    requires few { n ≤ length game.now.types }
    ensures { result ≡ rest_of game.now (end_caps game.now caps) n }
{
    let priors = priors_from(game, 1, n);
    open_worth(game, caps, n) - product(priors, i128::from(shift(game)))
}

/// The first operation under a bound that doesn't fit: `rho` times the rest, `mu` and that, `rho` times the priors.
fn misfit(rho: i128, mu: i128, rest: i128, priors: i128) -> Option<Wide>
    ensures { result ≡ first_wide (times rho rest ∷ plus mu (rho *ℤ rest) ∷ times rho priors ∷ []) }
{
    let share = match times(rho, rest) {
        Ok(share) => share,
        Err(wide) => return Some(wide),
    };
    match sum(mu, share) {
        Ok(_) => {}
        Err(wide) => return Some(wide),
    }
    match times(rho, priors) {
        Ok(_) => None,
        Err(wide) => Some(wide),
    }
}

/// The first operation under the bound of a fact that fixes the first `n` types that doesn't fit.
fn bound_misfit(game: &Game, caps: Caps, n: u8, rho: i128, mu: i128) -> Option<Wide>
    requires some { 1 ≤ n }
    requires few { n ≤ length game.now.types }
    ensures { (marks : List Mark) → result ≡ first_wide (bound_steps game.now (end_caps game.now caps) n (Plays rho mu marks)) }
{
    if mu < 1 {
        return None;
    }
    misfit(rho, mu, rest(game, caps, n), i128::from(prior_total(game)))
}

/// The first operation under the bounds of a fact over plays that doesn't fit: of a prefix under the greatest caps, and then under the least; a cap's
/// node has none.
pub(crate) fn bounds_misfit(game: &Game, fix: &Fix, rho: i128, mu: i128) -> Option<Wide>
    requires { IsFix game.now fix.now }
    ensures { (marks : List Mark) → result ≡ first_wide (both_bounds game.now fix.now (Plays rho mu marks)) }
{
    let _types = game.types();
    if fix.first != 1 {
        return None;
    }
    let n = fix.acts.len() as u8;
    match bound_misfit(game, Caps::Most, n, rho, mu) {
        Some(wide) => Some(wide),
        None => bound_misfit(game, Caps::Least, n, rho, mu),
    }
}
