//! The bound of a fact.

ghost use Rattle.std.specs.Prelude.{◌≡◌, ◌≤◌, ◌≤ℤ◌, List, MatchOption, length, pos, slice_index_or};
ghost use Rattle.sg_frac.specs.Fractions.{IsReducedForm};
ghost use Rattle.sg_model.specs.Games.{Game};
ghost use Rattle.sg_bounds.specs.Facts.{mu_of, rho_of};
ghost use Rattle.sg_tree.specs.declared.report.Cap.{Cap};
ghost use Rattle.sg_upper.specs.Rests.{AreRests};
ghost use Rattle.sg_upper.specs.Tops.{FormsBound, FormsQuotient};

use crate::rest::Rests;
use sg_frac::Frac;
use sg_num::{Wide, sum, times};
use sg_tree::Fact;

/// A fraction whose parts need not be in lowest terms.
#[derive(Clone, Copy)]
pub(crate) struct Quotient {
    pub(crate) num: i128,
    pub(crate) den: i128,
}

/// The multiplier of what the defender gets.
fn rho(fact: &Fact) -> i128
    ensures { result ≡ rho_of fact.now }
{
    match fact {
        Fact::Plays { rho, .. } => *rho,
        Fact::Cover { rho, .. } => *rho,
        Fact::Water { .. } => 1,
    }
}

/// The multiplier of the whole.
fn mu(fact: &Fact) -> i128
    ensures { result ≡ mu_of fact.now }
{
    match fact {
        Fact::Plays { mu, .. } => *mu,
        Fact::Cover { mu, .. } => *mu,
        Fact::Water { .. } => 0,
    }
}

/// `mu` and `rho` times the rest, over `rho` times the priors.
fn formed_quotient(rho: i128, mu: i128, rest: i128, priors: i128) -> Result<Quotient, Wide>
    ensures { FormsQuotient rho mu rest priors result }
{
    let share = match times(rho, rest) {
        Ok(share) => share,
        Err(wide) => return Err(wide),
    };
    let num = match sum(mu, share) {
        Ok(num) => num,
        Err(wide) => return Err(wide),
    };
    match times(rho, priors) {
        Ok(den) => Ok(Quotient { num, den }),
        Err(wide) => Err(wide),
    }
}

/// The same fraction in lowest terms, where its denominator is above 0.
pub(crate) fn lowest(value: &Quotient) -> Option<Frac>
    ensures { pos 1 ≤ℤ value.now.den → MatchOption result ⊥ (IsReducedForm value.now.num value.now.den) }
{
    Frac::of(value.num, value.den)
}

/// What the bound of a fact that fixes the first `n` types adds to `mu`, for each `rho`.
fn rest_at(rests: &Rests, n: u8) -> i128
    ensures { result ≡ slice_index_or rests.now.by_fixed n (pos 0) }
{
    match rests.by_fixed.get(n as usize) {
        Some(rest) => *rest,
        None => 0,
    }
}

/// The sum of the priors.
fn priors(rests: &Rests) -> i128
    ensures { result ≡ rests.now.priors }
{
    rests.priors
}

/// The bound of a fact that fixes the first `n` types, and none where it says that its region is empty.
pub(crate) fn bound(rests: &Rests, n: u8, fact: &Fact) -> Result<Option<Frac>, Wide>
    ensures { (g : Game) (caps : List Cap) → AreRests g caps rests.now → n ≤ length g.types → pos 1 ≤ℤ rho_of fact.now → FormsBound g caps n fact.now result }
{
    let mu = mu(fact);
    if mu < 1 {
        return Ok(None);
    }
    match formed_quotient(rho(fact), mu, rest_at(rests, n), priors(rests)) {
        Ok(value) => Ok(lowest(&value)),
        Err(wide) => Err(wide),
    }
}
