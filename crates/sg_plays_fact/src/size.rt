//! The size sum of a fact: a bound on every sum that testing it forms.

ghost use Rattle.std.specs.Prelude.{◌≡◌, ◌+ℤ◌, ◌*ℤ◌, ◌≤ℤ◌, ◌^◌, ◌↔◌, ◌++◌, ◌∷◌, [], All, IsTrue, List, ℤ, map, pos};
ghost use Rattle.sg_model.specs.Sums.{total};
ghost use Rattle.sg_num.specs.Exact.{Fits};
ghost use Rattle.sg_tree.specs.declared.fact.Line.{Line};
ghost use Rattle.sg_tree.specs.declared.fact.Mark.{Mark};
ghost use Rattle.sg_bounds.specs.Regions.{IsFix};
ghost use Rattle.sg_bounds.specs.Sizes.{attacker_most, defender_most, fixed_priors, running, size_sums};
ghost use Rattle.sg_plays_fact.specs.Measuring.{AreMeasures};
ghost use Rattle.sg_plays_fact.specs.Sizing.{IsWhereAllFit, size_numbers};

use crate::fixed::type_at;
use crate::measures::Measures;
use crate::step::{added, multiplied};
use sg_fixed::FixedTypes;
use sg_game::Game;
use sg_tree::{Fact, Line, Mark};

/// The sum of the priors of the fixed types.
fn fixed_priors(game: &Game, fix: &FixedTypes) -> i64
    requires { IsFix game.now fix.now }
    ensures { result ≡ fixed_priors game.now fix.now }
{
    game.promises();
    let mut sum = 0;
    for i in 0..fix.count() {
        sum += game.prior(type_at(game, fix, i));
    }
    sum
}

/// The total of the multipliers of marks, and none where a running total doesn't fit.
fn marks_total(marks: &[Mark]) -> Option<i128>
    ensures { IsWhereAllFit result (running (pos 0) (map (λ (m : Mark). m.v) marks.now)) (total (λ v. v) (map (λ (m : Mark). m.v) marks.now)) }
{
    let mut total: i128 = 0;
    for mark in marks {
        match added(total, mark.v) {
            Some(more) => total = more,
            None => return None,
        }
    }
    Some(total)
}

/// The total of the multipliers of lines, and none where a running total doesn't fit.
fn lines_total(lines: &[Line]) -> Option<i128>
    ensures { IsWhereAllFit result (running (pos 0) (map (λ (line : Line). line.v) lines.now)) (total (λ v. v) (map (λ (line : Line). line.v) lines.now)) }
{
    let mut total: i128 = 0;
    for line in lines {
        match added(total, line.v) {
            Some(more) => total = more,
            None => return None,
        }
    }
    Some(total)
}

/// The most that the defender's part of a fact may be, and none where a number under it doesn't fit.
fn most_gain(rho: i128, priors: i128, most: i128) -> Option<i128>
    ensures { IsWhereAllFit result ((rho *ℤ priors) ∷ ((rho *ℤ priors) *ℤ most) ∷ []) ((rho *ℤ priors) *ℤ most) }
{
    match multiplied(rho, priors) {
        Some(share) => multiplied(share, most),
        None => None,
    }
}

/// The most that the attacker's part of a fact may be, from the total of its multipliers, and none where a number under it doesn't fit.
fn most_regret(total: Option<i128>, most: i128) -> Option<i128>
    ensures { (under : List ℤ) (sum : ℤ) → IsWhereAllFit total under sum → IsWhereAllFit result (under ++ (sum *ℤ most) ∷ []) (sum *ℤ most) }
{
    match total {
        Some(total) => multiplied(total, most),
        None => None,
    }
}

/// Whether the two parts, the numbers under them and their sum fit.
fn sum_fits(gain: Option<i128>, regret: Option<i128>) -> bool
    ensures { (xs ys : List ℤ) (x y : ℤ) → IsWhereAllFit gain xs x → IsWhereAllFit regret ys y → (IsTrue result ↔ All Fits (xs ++ (ys ++ (x +ℤ y) ∷ []))) }
{
    match (gain, regret) {
        (Some(gain), Some(regret)) => match added(gain, regret) {
            Some(_) => true,
            None => false,
        },
        _ => false,
    }
}

/// Whether the size sum and each number under it fit, from what the total of the multipliers is.
fn parts_fit(
    game: &Game,
    measures: &Measures,
    fix: &FixedTypes,
    rho: i128,
    sum: Option<i128>,
) -> bool
    requires is_fix { IsFix game.now fix.now }
    requires measures { AreMeasures game.now measures.now }
    ensures { (vs : List ℤ) → IsWhereAllFit sum (running (pos 0) vs) (total (λ v. v) vs) → (IsTrue result ↔ All Fits (size_numbers rho (fixed_priors game.now fix.now) (defender_most game.now) vs (attacker_most game.now))) }
{
    let priors = i128::from(fixed_priors(game, fix));
    let gain = most_gain(rho, priors, measures.defender_most);
    sum_fits(gain, most_regret(sum, measures.attacker_most))
}

/// Whether the size sum of a fact and each number under it fit 128 bits. A water level has none.
pub fn size_fits(game: &Game, measures: &Measures, fix: &FixedTypes, fact: &Fact) -> bool
    requires is_fix { IsFix game.now fix.now }
    requires measures { AreMeasures game.now measures.now }
    ensures { IsTrue result ↔ All Fits (size_sums game.now fix.now fact.now) }
{
    match fact {
        Fact::Plays { rho, marks, .. } => {
            let sum = marks_total(marks.as_slice());
            parts_fit(game, measures, fix, *rho, sum)
        }
        Fact::Cover { rho, lines, .. } => {
            let sum = lines_total(lines.as_slice());
            parts_fit(game, measures, fix, *rho, sum)
        }
        Fact::Water { .. } => true,
    }
}
