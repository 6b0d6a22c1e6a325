//! Fractions before they are in lowest terms, and whether two are the same.

ghost use Rattle.std.specs.Prelude.{◌≡◌, ◌↔◌, ◌≤ℤ◌, IsTrue, pos};
ghost use Rattle.sg_frac.specs.Fractions.{IsReducedForm};

use sg_frac::Frac;

/// A fraction, not reduced yet.
#[derive(Clone, Copy)]
pub(crate) struct Quotient {
    pub(crate) num: i128,
    pub(crate) den: i128,
}

/// The same in lowest terms, which fit since both parts do.
pub(crate) fn reduced(value: &Quotient) -> Frac
    requires { pos 1 ≤ℤ value.now.den }
    ensures { IsReducedForm value.now.num value.now.den result }
{
    match Frac::of(value.num, value.den) {
        Some(fraction) => fraction,
        None => unreachable!(),
    }
}

/// Whether both have the same parts.
pub(crate) fn is_same(one: &Frac, two: &Frac) -> bool
    ensures { IsTrue result ↔ (one.now ≡ two.now) }
{
    one == two
}
