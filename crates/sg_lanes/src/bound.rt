//! Bounds of prefixes.

ghost use Rattle.std.specs.Prelude.{◌≡◌, ◌≤◌, ◌+◌, ◌-◌, ◌^◌, length, pos, ◌+ℤ◌, ◌-ℤ◌, ◌*ℤ◌, ◌≤ℤ◌, All, MatchOption};
ghost use Rattle.sg_model.specs.Payoffs.{shift_of};
ghost use Rattle.sg_model.specs.Sums.{numbers, numbers_from, total};
ghost use Rattle.sg_model.specs.Games.{attacker};
ghost use Rattle.sg_bounds.specs.Caps.{cap_of};
ghost use Rattle.sg_num.specs.Exact.{Fits};
ghost use Rattle.sg_frac.specs.Fractions.{IsReducedForm};
ghost use Rattle.sg_bounds.specs.Facts.{mu_of, rho_of};
ghost use Rattle.sg_bounds.specs.Leaves.{fact_bound, rest_of, root_bound};
ghost use Rattle.sg_bounds.specs.Sizes.{bound_sums};
ghost use Rattle.sg_search.specs.Bounding.{exceeds};
ghost use Rattle.sg_lanes.specs.Bounds.{Stands, StandsFor};

use sg_frac::Frac;
use sg_game::{Game, greatest, prior_total};
use sg_tree::{Cap, Fact};
use std::cmp::Ordering;

/// Whether a bound is above a value.
pub(crate) fn is_above(bound: Frac, value: Frac) -> bool
    ensures { result ≡ exceeds bound value }
{
    match bound.compare(value) {
        Ordering::Greater => true,
        Ordering::Less | Ordering::Equal => false,
    }
}

/// The quotient in lowest terms, which fit where both parts do.
pub(crate) fn quotient(num: i128, den: i128) -> Frac
    requires { pos 1 ≤ℤ den }
    ensures { IsReducedForm num den result }
{
    match Frac::of(num, den) {
        Some(fraction) => fraction,
        None => unreachable!(),
    }
}

/// A prior times a payoff.
fn share(prior: i64, pay: i64) -> i128
    requires some { pos 0 ≤ℤ prior }
    requires few { prior ≤ℤ pos (2 ^ 23) }
    ensures value { result ≡ prior *ℤ pay }
    ensures low { (pos 0 -ℤ pos (2 ^ 86)) ≤ℤ result }
    ensures high { result ≤ℤ pos (2 ^ 86) }
{
    i128::from(prior) * i128::from(pay)
}

/// The greatest payoff against each type, times its prior.
fn greatest_total(game: &Game) -> i128
    ensures { result ≡ (root_bound game.now).num }
{
    let count = game.types();
    let mut sum = 0;
    for i in 0..count {
        sum += share(game.prior(i + 1), greatest(game, i + 1));
    }
    sum
}

/// The bound of the root: no commitment has more than the greatest payoff against each type.
pub(crate) fn root_bound(game: &Game) -> Frac
    ensures { Stands result (root_bound game.now) }
{
    quotient(greatest_total(game), i128::from(prior_total(game)))
}

/// The multiplier of what a fact bounds.
pub(crate) fn rho(fact: &Fact) -> i128
    ensures { result ≡ rho_of fact.now }
{
    match fact {
        Fact::Plays { rho, .. } | Fact::Cover { rho, .. } => *rho,
        Fact::Water { .. } => 1,
    }
}

/// What a fact bounds by.
pub(crate) fn mu(fact: &Fact) -> i128
    ensures { result ≡ mu_of fact.now }
{
    match fact {
        Fact::Plays { mu, .. } | Fact::Cover { mu, .. } => *mu,
        Fact::Water { .. } => 0,
    }
}

/// The caps of the types above `n`, times their priors.
fn caps_total(game: &Game, caps: &[Cap], n: usize) -> i128
    requires caps { length caps.now + 1 ≡ length game.now.types }
    requires some { 1 ≤ n }
    requires in_range { n ≤ length game.now.types }
    ensures value { result ≡ total (λ l. (attacker game.now l).prior *ℤ (cap_of caps.now l).v) (numbers_from (n + 1) (length game.now.types - n)) }
    ensures low { (pos 0 -ℤ pos (2 ^ 89)) ≤ℤ result }
    ensures high { result ≤ℤ pos (2 ^ 89) }
{
    let count = game.types() as usize;
    let mut sum = 0;
    for i in n..count {
        sum += share(game.prior(i as u8 + 1), caps[i - 1].v);
    }
    sum
}

/// The priors of the first types.
fn priors_total(game: &Game, n: usize) -> i64
    requires { n ≤ length game.now.types }
    ensures total { result ≡ total (λ l. (attacker game.now l).prior) (numbers n) }
    ensures low { pos 0 ≤ℤ result }
    ensures high { result ≤ℤ pos (2 ^ 23) }
{
    let _count = game.types();
    let mut sum = 0;
    for i in 0..n {
        sum += game.prior(i as u8 + 1);
    }
    sum
}

/// What the bound of a fact that fixes `n` types adds to `mu`, for each `rho`.
fn rest(game: &Game, shift: i64, caps: &[Cap], n: usize) -> i128
    requires shift { shift ≡ shift_of game.now }
    requires caps { length caps.now + 1 ≡ length game.now.types }
    requires some { 1 ≤ n }
    requires in_range { n ≤ length game.now.types }
    ensures { result ≡ rest_of game.now caps.now n }
{
    let priors = priors_total(game, n);
    caps_total(game, caps, n) - share(priors, shift)
}

/// The product, and none where it doesn't fit.
fn multiplied(left: i128, right: i128) -> Option<i128>
    ensures { MatchOption result (Fits (left *ℤ right) → ⊥) (λ v. v ≡ left *ℤ right) }
{
    left.checked_mul(right)
}

/// The sum, and none where it doesn't fit.
fn added(left: i128, right: i128) -> Option<i128>
    ensures { MatchOption result (Fits (left +ℤ right) → ⊥) (λ v. v ≡ left +ℤ right) }
{
    left.checked_add(right)
}

/// The product, which fits.
pub(crate) fn times(left: i128, right: i128) -> i128
    requires { Fits (left *ℤ right) }
    ensures { result ≡ left *ℤ right }
{
    match multiplied(left, right) {
        Some(product) => product,
        None => unreachable!(),
    }
}

/// The sum, which fits.
fn plus(left: i128, right: i128) -> i128
    requires { Fits (left +ℤ right) }
    ensures { result ≡ left +ℤ right }
{
    match added(left, right) {
        Some(sum) => sum,
        None => unreachable!(),
    }
}

/// The bound of a fact that fixes `n` types, under caps, and none where its region is empty.
pub(crate) fn bound_of(game: &Game, shift: i64, caps: &[Cap], n: usize, fact: &Fact) -> Option<Frac>
    requires shift { shift ≡ shift_of game.now }
    requires caps { length caps.now + 1 ≡ length game.now.types }
    requires some { 1 ≤ n }
    requires in_range { n ≤ length game.now.types }
    requires rho { pos 1 ≤ℤ rho_of fact.now }
    requires fits { All Fits (bound_sums game.now caps.now n fact.now) }
    ensures { StandsFor result (fact_bound game.now caps.now n fact.now) }
{
    let mu = mu(fact);
    if mu <= 0 {
        return None;
    }
    let rho = rho(fact);
    let num = plus(mu, times(rho, rest(game, shift, caps, n)));
    Some(quotient(num, times(rho, i128::from(prior_total(game)))))
}
