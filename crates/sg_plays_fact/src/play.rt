//! What a fact sums for one play.

ghost use Rattle.std.specs.Prelude.{◌≡◌, ◌^◌, ◌+ℤ◌, ◌*ℤ◌, pos};
ghost use Rattle.sg_model.specs.Games.{attacker};
ghost use Rattle.sg_model.specs.Payoffs.{shift_of};
ghost use Rattle.sg_model.specs.Plays.{IsLegal, pay_d};
ghost use Rattle.sg_num.specs.Exact.{IsAtMost};
ghost use Rattle.sg_game.specs.Counts.{IsActionOf, IsTypeOf};
ghost use Rattle.sg_bounds.specs.Facts.{IsMarkOf, cost, regret};
ghost use Rattle.sg_bounds.specs.PlayRows.{gain};
ghost use Rattle.sg_bounds.specs.Regions.{IsFix};
ghost use Rattle.sg_plays_fact.specs.Measuring.{AreMeasures};
ghost use Rattle.sg_plays_fact.specs.Testing.{IsSizedFact, play_sum};

use crate::fixed::{act_at, act_of, type_at};
use crate::measures::Measures;
use crate::stated::Stated;
use sg_fixed::FixedTypes;
use sg_game::{Game, pay_a, pay_d};
use sg_tree::Mark;

/// What the play is worth to the defender against a type that takes action `a`: the prior times the payoff with the shift.
fn worth(game: &Game, measures: &Measures, l: u8, a: u16, code: &[u16]) -> i128
    requires legal { IsLegal game.now code.now }
    requires measures { AreMeasures game.now measures.now }
    requires known_type { IsTypeOf game.now l }
    requires known_action { IsActionOf game.now l a }
    ensures value { result ≡ (attacker game.now l).prior *ℤ (pay_d game.now l code.now a +ℤ shift_of game.now) }
    ensures small { IsAtMost (pos (2 ^ 52)) result }
{
    let shifted = i128::from(pay_d(game, l, code, a)) + measures.shift;
    i128::from(game.prior(l)) * shifted
}

/// What the play is worth to the defender, summed over the fixed types.
fn cost(game: &Game, measures: &Measures, fix: &FixedTypes, code: &[u16]) -> i128
    requires legal { IsLegal game.now code.now }
    requires measures { AreMeasures game.now measures.now }
    requires is_fix { IsFix game.now fix.now }
    ensures { result ≡ cost game.now fix.now code.now }
{
    game.promises();
    let mut sum: i128 = 0;
    for i in 0..fix.count() {
        let l = type_at(game, fix, i);
        let a = act_at(game, fix, i);
        sum += worth(game, measures, l, a, code);
    }
    sum
}

/// What a marked action pays above the fixed one where the play is made.
fn difference(game: &Game, fix: &FixedTypes, mark: &Mark, code: &[u16]) -> i128
    requires legal { IsLegal game.now code.now }
    requires is_fix { IsFix game.now fix.now }
    requires mark { IsMarkOf game.now fix.now mark.now }
    ensures { result ≡ gain game.now fix.now code.now (mark.now.l, mark.now.a) }
{
    let act = act_of(game, fix, mark.l);
    i128::from(pay_a(game, mark.l, code, mark.a)) - i128::from(pay_a(game, mark.l, code, act))
}

/// What the marked actions pay above the fixed ones where the play is made, times their multipliers.
fn regret(game: &Game, fix: &FixedTypes, stated: &Stated, marks: &[Mark], code: &[u16]) -> i128
    requires legal { IsLegal game.now code.now }
    requires sized { IsSizedFact game.now fix.now stated.now marks.now }
    ensures { result ≡ regret game.now fix.now marks.now code.now }
{
    game.promises();
    let mut sum: i128 = 0;
    for mark in marks {
        sum += mark.v * difference(game, fix, mark, code);
    }
    sum
}

/// Rho times the worth of the play, less its regret.
pub(crate) fn play_sum(
    game: &Game,
    measures: &Measures,
    fix: &FixedTypes,
    stated: &Stated,
    marks: &[Mark],
    code: &[u16],
) -> i128
    requires legal { IsLegal game.now code.now }
    requires measures { AreMeasures game.now measures.now }
    requires sized { IsSizedFact game.now fix.now stated.now marks.now }
    ensures { result ≡ play_sum game.now fix.now stated.now.rho marks.now code.now }
{
    game.promises();
    stated.rho * cost(game, measures, fix, code) - regret(game, fix, stated, marks, code)
}
