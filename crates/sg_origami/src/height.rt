//! Levels of the attacker's payoff, in the range of those that are formed.
ghost use Rattle.std.specs.Prelude.{◌≡◌, ◌^◌, pos, ◌*ℤ◌, ◌-ℤ◌, int_le};
ghost use Rattle.sg_model.specs.Limits.{IsPay, IsWithin};
ghost use Rattle.sg_origami.specs.Heights.{IsHeight};

use crate::rate::product;
use std::marker::Model;

/// A level, as a fraction that need not be reduced: its numerator is from -2^77 to 2^77, its denominator from 1 to 2^46.
#[derive(Clone, Copy)]
pub struct Height {
    num: i128,
    den: i128,
}

impl Model for Height {
    ghost use Rattle.sg_frac.specs.Fractions.{Fraction};
    ghost use Rattle.sg_origami.specs.Heights.{IsHeight};

    ghost Value = { Fraction };

    ghost view = { λ h. record { num = h.num; den = h.den } };

    ghost invariant = { λ h. IsHeight (record { num = h.num; den = h.den }) };

    ghost inverse = { λ h. record { num = h.num; den = h.den } };
}

impl Height {
    /// The level `num / den`.
    pub fn of(num: i128, den: i128) -> Height
        requires { IsHeight (record { num = num; den = den }) }
        ensures { result ≡ record { num = num; den = den } }
    {
        Height { num, den }
    }

    /// The numerator.
    pub fn num(&self) -> i128
        ensures value { result ≡ self.now.num }
        ensures range { IsHeight self.now }
    {
        self.num
    }

    /// The denominator.
    pub fn den(&self) -> i128
        ensures value { result ≡ self.now.den }
        ensures range { IsHeight self.now }
    {
        self.den
    }

    /// A payoff times the denominator.
    fn raised(&self, pay: i128) -> i128
        requires { IsPay pay }
        ensures value { result ≡ pay *ℤ self.now.den }
        ensures range { IsWithin (pos 0 -ℤ pos (2 ^ 76)) (pos (2 ^ 76)) result }
    {
        product(pay, self.den())
    }

    /// Whether a payoff is at least the level.
    pub fn is_reached(&self, pay: i128) -> bool
        requires { IsPay pay }
        ensures reached { result ≡ int_le self.now.num (pay *ℤ self.now.den) }
        ensures range { IsHeight self.now }
    {
        self.num() <= self.raised(pay)
    }

    /// How far a payoff is above the level, times the denominator.
    pub fn excess(&self, pay: i128) -> i128
        requires { IsPay pay }
        ensures value { result ≡ pay *ℤ self.now.den -ℤ self.now.num }
        ensures range { IsWithin (pos 0 -ℤ pos (2 ^ 78)) (pos (2 ^ 78)) result }
    {
        self.raised(pay) - self.num()
    }
}
