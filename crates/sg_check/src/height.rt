//! Levels of the attacker's payoff, so small that all sums of their test fit.

ghost use Rattle.std.specs.Prelude.{◌≡◌, ◌↔◌, ◌^◌, ◌-ℤ◌, ◌≤ℤ◌, IsTrue, MatchOption, pos};
ghost use Rattle.sg_model.specs.Limits.{IsWithin};
ghost use Rattle.sg_check.specs.SmallHeights.{IsSmallHeight};

use sg_frac::Frac;
use std::marker::Model;

/// A level in lowest terms: its numerator is from -2^77 to 2^77, its denominator from 1 to 2^46.
#[derive(Drop)]
pub(crate) struct Height {
    num: i128,
    den: i128,
}

impl Model for Height {
    ghost use Rattle.sg_frac.specs.Fractions.{Fraction};
    ghost use Rattle.sg_check.specs.SmallHeights.{IsSmallHeight};

    ghost Value = { Fraction };

    ghost view = { λ h. record { num = h.num; den = h.den } };

    ghost invariant = { λ h. IsSmallHeight (record { num = h.num; den = h.den }) };
}

impl Height {
    /// The level, and none where one of its parts is larger.
    pub(crate) fn of(level: &Frac) -> Option<Height>
        ensures { MatchOption result (IsSmallHeight level.now → ⊥) (λ h. h ≡ level.now) }
    {
        let num = level.num();
        let den = level.den();
        if is_small(num, den) {
            Some(Height { num, den })
        } else {
            None
        }
    }

    /// The numerator.
    pub(crate) fn num(&self) -> i128
        ensures value { result ≡ self.now.num }
        ensures range { IsWithin (pos 0 -ℤ pos (2 ^ 77)) (pos (2 ^ 77)) result }
    {
        self.num
    }

    /// The denominator.
    pub(crate) fn den(&self) -> i128
        ensures value { result ≡ self.now.den }
        ensures range { IsWithin (pos 1) (pos (2 ^ 46)) result }
    {
        self.den
    }
}

/// Whether the parts are so small.
fn is_small(num: i128, den: i128) -> bool
    requires { pos 1 ≤ℤ den }
    ensures { IsTrue result ↔ IsSmallHeight (record { num = num; den = den }) }
{
    if den > 1 << 46 {
        return false;
    }
    if num > 1 << 77 {
        return false;
    }
    if num < -(1 << 77) {
        return false;
    }
    true
}
