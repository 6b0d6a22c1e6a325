//! What a commitment is worth to the defender.

ghost use Rattle.std.specs.Prelude.{◌≡◌, pos, ◌≤ℤ◌, IfOk, IsOk};
ghost use Rattle.sg_model.specs.Commitments.{weight_total, worth, AreLegal};
ghost use Rattle.sg_model.specs.Games.{prior_total};
ghost use Rattle.sg_num.specs.Exact.{exact_times};
ghost use Rattle.sg_frac.specs.Fractions.{IsReducedForm};
ghost use Rattle.sg_game.specs.Counts.{IsTypeOf};
ghost use Rattle.sg_commit.specs.CommitmentLaws.{HasSmallTotal};
ghost use Rattle.sg_commit.specs.ExactSums.{IsExactValue, exact_base, exact_worth, worth_step};

use crate::commitment::Commitment;
use crate::response::take;
use sg_frac::Frac;
use sg_game::{Game, prior_total};
use sg_num::{Wide, dot_step, times};

// The sum with the prior of type `l` times what it leaves the defender.
fn step(acc: i128, game: &Game, k: &Commitment, l: u8) -> Result<i128, Wide>
    requires legal { AreLegal game.now k.now.tickets }
    requires known_type { IsTypeOf game.now l }
    ensures { result ≡ worth_step game.now k.now.tickets acc l }
{
    match take(game, k, l) {
        Ok(taken) => dot_step(acc, i128::from(game.prior(l)), taken),
        Err(wide) => Err(wide),
    }
}

/// What the types leave the defender, weighted by their priors: for the defender value it is over the total times the
/// sum of the priors.
///
/// # Errors
///
/// The first operation that does not fit. By rising type, that of `take`, then the prior times it, then the sum.
pub fn worth(game: &Game, k: &Commitment) -> Result<i128, Wide>
    requires legal { AreLegal game.now k.now.tickets }
    ensures steps { result ≡ exact_worth game.now k.now.tickets }
    ensures value { IfOk result (λ sum. sum ≡ worth game.now k.now.tickets) }
{
    let mut acc = 0;
    for i in 0..game.types() {
        match step(acc, game, k, i + 1) {
            Ok(next) => acc = next,
            Err(wide) => return Err(wide),
        }
    }
    Ok(acc)
}

// The total times the sum of the priors, which the worth is over.
fn base(game: &Game, k: &Commitment) -> Result<i128, Wide>
    ensures value { result ≡ exact_times (weight_total k.now.tickets) (prior_total game.now) }
    ensures positive { IfOk result (λ base. pos 1 ≤ℤ base) }
{
    let _tickets = k.tickets();
    times(k.total(), i128::from(prior_total(game)))
}

// The fraction in lowest terms, which fits where its parts do.
fn fraction(num: i128, den: i128) -> Frac
    requires { pos 1 ≤ℤ den }
    ensures { IsReducedForm num den result }
{
    match Frac::of(num, den) {
        Some(fraction) => fraction,
        None => unreachable!(),
    }
}

/// The defender value, in lowest terms: the worth over the total times the sum of the priors.
///
/// # Errors
///
/// The first operation that does not fit: that of `worth`, else the total times the sum of the priors. None where that
/// product is at most 2^96.
pub fn value(game: &Game, k: &Commitment) -> Result<Frac, Wide>
    requires legal { AreLegal game.now k.now.tickets }
    ensures value { IsExactValue game.now k.now.tickets result }
    ensures small { HasSmallTotal game.now k.now.tickets → IsOk result }
{
    game.promises();
    let _tickets = k.tickets();
    let worth = match worth(game, k) {
        Ok(worth) => worth,
        Err(wide) => return Err(wide),
    };
    match base(game, k) {
        Ok(base) => Ok(fraction(worth, base)),
        Err(wide) => Err(wide),
    }
}
