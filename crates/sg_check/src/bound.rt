//! The bounds of leaves.

ghost use Rattle.std.specs.Prelude.{◌≡◌, ◌≤◌, ◌+◌, ◌-◌, ◌^◌, ◌+ℤ◌, ◌-ℤ◌, ◌*ℤ◌, ◌≤ℤ◌, MatchOption, length, pos};
ghost use Rattle.sg_frac.specs.Fractions.{IsReducedForm};
ghost use Rattle.sg_model.specs.Games.{attacker};
ghost use Rattle.sg_model.specs.Payoffs.{greatest_of};
ghost use Rattle.sg_model.specs.Sums.{numbers, numbers_from, total};
ghost use Rattle.sg_bounds.specs.Caps.{cap_of};
ghost use Rattle.sg_bounds.specs.Leaves.{rest_of, root_bound};
ghost use Rattle.sg_check.specs.Placing.{AreNumbersOf, BoundFits, IsBoundOf, IsSetting};

use crate::numbers::Numbers;
use crate::quotient::{Quotient, reduced};
use crate::step::{added, multiplied};
use sg_frac::Frac;
use sg_game::{Game, greatest};
use sg_tree::Report;

/// What a fact states besides its marks or lines.
#[derive(Clone, Copy)]
pub(crate) struct Stated {
    /// The multiplier of what the defender gets.
    pub(crate) rho: i128,
    /// The multiplier of the whole.
    pub(crate) mu: i128,
}

/// The cap of type `l`.
fn cap_at(report: &Report, l: u8) -> i128
    requires from_two { 2 ≤ l }
    requires listed { l ≤ length report.now.caps + 1 }
    ensures value { result ≡ (cap_of report.now.caps l).v }
    ensures low { (pos 0 -ℤ pos (2 ^ 63)) ≤ℤ result }
    ensures high { result ≤ℤ pos (2 ^ 63) }
{
    let cap = &report.caps.as_slice()[l as usize - 2];
    i128::from(cap.v)
}

/// The cap of type `l`, times its prior.
fn weighed_cap(game: &Game, report: &Report, l: u8) -> i128
    requires from_two { 2 ≤ l }
    requires types { l ≤ length game.now.types }
    requires caps { length report.now.caps + 1 ≡ length game.now.types }
    ensures value { result ≡ (attacker game.now l).prior *ℤ (cap_of report.now.caps l).v }
    ensures low { (pos 0 -ℤ pos (2 ^ 83)) ≤ℤ result }
    ensures high { result ≤ℤ pos (2 ^ 83) }
{
    i128::from(game.prior(l)) * cap_at(report, l)
}

/// The caps of the types behind the first `fixed`, each times its prior, summed.
fn open_caps(game: &Game, report: &Report, fixed: u8) -> i128
    requires some { 1 ≤ fixed }
    requires types { fixed ≤ length game.now.types }
    requires caps { length report.now.caps + 1 ≡ length game.now.types }
    ensures value { result ≡ total (λ l. (attacker game.now l).prior *ℤ (cap_of report.now.caps l).v) (numbers_from (fixed + 1) (length game.now.types - fixed)) }
    ensures low { (pos 0 -ℤ pos (2 ^ 86)) ≤ℤ result }
    ensures high { result ≤ℤ pos (2 ^ 86) }
{
    let mut sum = 0;
    for l in fixed..game.types() {
        sum += weighed_cap(game, report, l + 1);
    }
    sum
}

/// The priors of the first `fixed` types, summed.
fn fixed_priors(game: &Game, fixed: u8) -> i128
    requires { fixed ≤ length game.now.types }
    ensures value { result ≡ total (λ l. (attacker game.now l).prior) (numbers fixed) }
    ensures low { pos 0 ≤ℤ result }
    ensures high { result ≤ℤ pos (2 ^ 23) }
{
    let _types = game.types();
    let mut sum = 0;
    for l in 0..fixed {
        sum += i128::from(game.prior(l + 1));
    }
    sum
}

/// What the bound of a fact that fixes so many types adds to mu, for each rho: the caps of the open types, each times
/// its prior, less the shift of the fixed ones.
fn rest(game: &Game, report: &Report, numbers: &Numbers, fixed: u8) -> i128
    requires setting { IsSetting game.now report.now numbers.now }
    requires some { 1 ≤ fixed }
    requires types { fixed ≤ length game.now.types }
    ensures { result ≡ rest_of game.now report.now.caps fixed }
{
    open_caps(game, report, fixed) - fixed_priors(game, fixed) * numbers.shift
}

/// The bound of a fact that fixes so many types, and none where a number under it doesn't fit.
pub(crate) fn bound_of(
    game: &Game,
    report: &Report,
    numbers: &Numbers,
    fixed: u8,
    stated: &Stated,
) -> Option<Quotient>
    requires setting { IsSetting game.now report.now numbers.now }
    requires some { 1 ≤ fixed }
    requires types { fixed ≤ length game.now.types }
    ensures { MatchOption result (BoundFits stated.now.rho stated.now.mu (rest_of game.now report.now.caps fixed) numbers.now.priors → ⊥) (λ b. BoundFits stated.now.rho stated.now.mu (rest_of game.now report.now.caps fixed) numbers.now.priors × IsBoundOf b stated.now.rho stated.now.mu (rest_of game.now report.now.caps fixed) numbers.now.priors) }
{
    let share = match multiplied(stated.rho, rest(game, report, numbers, fixed)) {
        Some(share) => share,
        None => return None,
    };
    match (
        added(stated.mu, share),
        multiplied(stated.rho, numbers.priors),
    ) {
        (Some(num), Some(den)) => Some(Quotient { num, den }),
        _ => None,
    }
}

/// The greatest payoff against type `l`, times its prior.
fn weighed_greatest(game: &Game, l: u8) -> i128
    requires from_one { 1 ≤ l }
    requires types { l ≤ length game.now.types }
    ensures value { result ≡ (attacker game.now l).prior *ℤ greatest_of game.now l }
    ensures low { (pos 0 -ℤ pos (2 ^ 50)) ≤ℤ result }
    ensures high { result ≤ℤ pos (2 ^ 50) }
{
    i128::from(game.prior(l)) * i128::from(greatest(game, l))
}

/// The greatest payoffs against all types, each times its prior, summed.
fn greatest_sum(game: &Game) -> i128
    ensures { result ≡ total (λ l. (attacker game.now l).prior *ℤ greatest_of game.now l) (numbers (length game.now.types)) }
{
    let mut sum = 0;
    for l in 0..game.types() {
        sum += weighed_greatest(game, l + 1);
    }
    sum
}

/// The bound of the root's open base: the greatest payoffs.
pub(crate) fn open_bound(game: &Game, numbers: &Numbers) -> Frac
    requires { AreNumbersOf game.now numbers.now }
    ensures { IsReducedForm (root_bound game.now).num (root_bound game.now).den result }
{
    reduced(&Quotient {
        num: greatest_sum(game),
        den: numbers.priors,
    })
}
