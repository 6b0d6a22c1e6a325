//! The size sum of a fact: a bound on every sum that is formed where the fact is tested.

ghost use Rattle.std.specs.Prelude.{◌≡◌, ◌∷◌, [], ℤ, ◌*ℤ◌, map, pos};
ghost use Rattle.sg_num.specs.Operations.{first_wide, formed, times};
ghost use Rattle.sg_model.specs.Games.{Game};
ghost use Rattle.sg_model.specs.Sums.{total};
ghost use Rattle.sg_tree.specs.declared.fact.Fact.TheVariants.{Plays};
ghost use Rattle.sg_tree.specs.declared.fact.Mark.{Mark};
ghost use Rattle.sg_tree.specs.declared.fix.Fix.{Fix};
ghost use Rattle.sg_bounds.specs.Regions.{IsFix};
ghost use Rattle.sg_bounds.specs.Sizes.{attacker_most, defender_most, fixed_priors};
ghost use Rattle.sg_bounds.specs.SizeSteps.{running_steps, size_steps};

use crate::measures::{attacker_most, defender_most, priors_from};
use sg_game::Game;
use sg_num::{Wide, sum, times};
use sg_tree::{Fix, Mark};

/// The sum of the priors of the fixed types.
fn fixed_priors(game: &Game, fix: &Fix) -> i128
    requires { IsFix game.now fix.now }
    ensures { result ≡ fixed_priors game.now fix.now }
{
    let _types = game.types();
    priors_from(game, fix.first, fix.acts.len() as u8)
}

/// The sum of the multipliers, one after another.
fn multiplier_total(marks: &[Mark]) -> Result<i128, Wide>
    ensures { result ≡ formed (running_steps (pos 0) (map (λ (m : Mark). m.v) marks.now)) (total (λ v. v) (map (λ (m : Mark). m.v) marks.now)) }
{
    let mut total = 0;
    for mark in marks {
        match sum(total, mark.v) {
            Ok(next) => total = next,
            Err(wide) => return Err(wide),
        }
    }
    Ok(total)
}

/// The most that the defender's part of a fact may be.
fn most_gain(game: &Game, fix: &Fix, rho: i128) -> Result<i128, Wide>
    requires { IsFix game.now fix.now }
    ensures { result ≡ formed (times rho (fixed_priors game.now fix.now) ∷ times (rho *ℤ fixed_priors game.now fix.now) (defender_most game.now) ∷ []) ((rho *ℤ fixed_priors game.now fix.now) *ℤ defender_most game.now) }
{
    match times(rho, fixed_priors(game, fix)) {
        Ok(share) => times(share, defender_most(game)),
        Err(wide) => Err(wide),
    }
}

/// The first operation under the size sum of a fact over plays that doesn't fit.
pub(crate) fn size_misfit(game: &Game, fix: &Fix, rho: i128, marks: &[Mark]) -> Option<Wide>
    requires { IsFix game.now fix.now }
    ensures { (mu : ℤ) → result ≡ first_wide (size_steps game.now fix.now (Plays rho mu marks.now)) }
{
    let gain = match most_gain(game, fix, rho) {
        Ok(gain) => gain,
        Err(wide) => return Some(wide),
    };
    let total = match multiplier_total(marks) {
        Ok(total) => total,
        Err(wide) => return Some(wide),
    };
    let regret = match times(total, attacker_most(game)) {
        Ok(regret) => regret,
        Err(wide) => return Some(wide),
    };
    match sum(gain, regret) {
        Ok(_) => None,
        Err(wide) => Some(wide),
    }
}
