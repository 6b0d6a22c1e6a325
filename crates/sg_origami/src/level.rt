// The level to which the patrols can bring the attacker's best payoff, were each target free to be covered more than fully.
ghost use Rattle.std.specs.Prelude.{◌≡◌, ◌≢◌, ◌≤◌, ◌^◌, [], All, filter, length, pos, ◌*ℤ◌, ◌-ℤ◌, ◌≤ℤ◌, if◌then◌else◌};
ghost use Rattle.sg_model.specs.Sums.{total};
ghost use Rattle.sg_model.specs.declared.limit.TheConstants.{SCALED_TARGET_LIMIT};
ghost use Rattle.sg_model.specs.Limits.{IsWithin};
ghost use Rattle.sg_origami.specs.Rates.{IsRate, is_above, multiple_of, need_of, weighted_of};

use crate::height::Height;
use crate::rate::{Rate, product};
use sg_model::limit::PAYOFF_LIMIT;

/// Whether the uncovered payoff of a target is at least the level.
fn is_above(rate: &Rate, level: &Height) -> bool
    ensures { result ≡ is_above level.now.num level.now.den rate.now }
{
    level.is_reached(rate.uncovered())
}

/// The multiple of a target times its uncovered payoff.
fn weighted(rate: &Rate) -> i128
    ensures value { result ≡ weighted_of rate.now }
    ensures low { (pos 0 -ℤ pos (2 ^ 62)) ≤ℤ result }
    ensures high { result ≤ℤ pos (2 ^ 62) }
{
    product(rate.multiple(), rate.uncovered())
}

/// The sums over the targets of a level.
#[derive(Clone, Copy)]
struct Sums {
    multiples: i128,
    weighted: i128,
}

/// What a target adds to the sums of a level.
fn part_at(rate: &Rate, level: &Height) -> Sums
    ensures multiples { result.multiples ≡ (if is_above level.now.num level.now.den rate.now then multiple_of rate.now else pos 0) }
    ensures weighted { result.weighted ≡ (if is_above level.now.num level.now.den rate.now then weighted_of rate.now else pos 0) }
    ensures multiples_low { pos 0 ≤ℤ result.multiples }
    ensures multiples_high { result.multiples ≤ℤ pos (2 ^ 32) }
    ensures weighted_low { (pos 0 -ℤ pos (2 ^ 62)) ≤ℤ result.weighted }
    ensures weighted_high { result.weighted ≤ℤ pos (2 ^ 62) }
{
    if is_above(rate, level) {
        Sums {
            multiples: rate.multiple(),
            weighted: weighted(rate),
        }
    } else {
        Sums {
            multiples: 0,
            weighted: 0,
        }
    }
}

/// The multiples and the weighted payoffs of the targets of a level.
fn sums_at(rates: &[Rate], level: &Height) -> Sums
    requires { length rates.now ≤ SCALED_TARGET_LIMIT }
    ensures multiples { result.multiples ≡ total multiple_of (filter (is_above level.now.num level.now.den) rates.now) }
    ensures weighted { result.weighted ≡ total weighted_of (filter (is_above level.now.num level.now.den) rates.now) }
    ensures multiples_low { pos 0 ≤ℤ result.multiples }
    ensures multiples_high { result.multiples ≤ℤ pos (2 ^ 46) }
    ensures weighted_low { (pos 0 -ℤ pos (2 ^ 76)) ≤ℤ result.weighted }
    ensures weighted_high { result.weighted ≤ℤ pos (2 ^ 76) }
{
    let mut multiples: i128 = 0;
    let mut weights: i128 = 0;
    for rate in rates {
        let part = part_at(rate, level);
        multiples += part.multiples;
        weights += part.weighted;
    }
    Sums {
        multiples,
        weighted: weights,
    }
}

/// The level at which the targets that are above it need just what there is.
///
/// It rises from below all payoffs: the next level is where there is enough for just the targets of this one, until
/// none of them drops out.
pub fn spent_level(rates: &[Rate], have: i128) -> Height
    requires rates { All IsRate rates.now }
    requires some { rates.now ≢ [] }
    requires few { length rates.now ≤ SCALED_TARGET_LIMIT }
    requires have { IsWithin (pos 0) (pos (2 ^ 40)) have }
    ensures some { filter (is_above result.num result.den) rates.now ≢ [] }
    ensures spends { total (need_of result.num result.den) (filter (is_above result.num result.den) rates.now) ≡ have *ℤ result.den }
{
    let lowest = Height::of(-i128::from(PAYOFF_LIMIT) - have, 1);
    let mut sums = sums_at(rates, &lowest);
    'rise: loop {
        let next = Height::of(sums.weighted - have, sums.multiples);
        let kept = sums_at(rates, &next);
        if kept.multiples >= sums.multiples {
            return next;
        }
        sums = kept;
    }
}
