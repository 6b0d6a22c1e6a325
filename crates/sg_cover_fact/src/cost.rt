//! What a column is worth to the defender.

ghost use Rattle.std.specs.Prelude.{◌≡◌, ◌*ℤ◌, ◌+ℤ◌, ◌-ℤ◌, ◌≤ℤ◌, pos, ◌*◌, ◌+◌, ◌^◌};
ghost use Rattle.sg_model.specs.declared.kind.Kind.TheVariants.{Security};
ghost use Rattle.sg_model.specs.Games.{attacker, payoff};
ghost use Rattle.sg_model.specs.Limits.{IsPay, IsWithin};
ghost use Rattle.sg_model.specs.declared.limit.TheConstants.{PAYOFF_LIMIT, PRIOR_LIMIT};
ghost use Rattle.sg_model.specs.Payoffs.{shift_of};
ghost use Rattle.sg_game.specs.Counts.{IsGoalOf, IsTypeOf};
ghost use Rattle.sg_num.specs.Exact.{IsAtMost};
ghost use Rattle.sg_bounds.specs.Regions.{IsFix};
ghost use Rattle.sg_bounds.specs.Coverage.{always, column_cost, covering, where_same};

use crate::row::{act_at, type_at};
use crate::step::plus;
use sg_fixed::FixedTypes;
use sg_game::{Game, shift};

/// A prior times what it weighs.
fn weighed(prior: i64, z: i128) -> i128
    requires prior { IsWithin (pos 1) PRIOR_LIMIT prior }
    requires small { IsAtMost (pos (2 ^ 31 + 1)) z }
    ensures value { result ≡ prior *ℤ z }
    ensures small { IsAtMost (pos (2 ^ 52)) result }
{
    i128::from(prior) * z
}

/// A payoff with the shift.
fn shifted(pay: i64, shift: i64) -> i128
    requires pay { IsPay pay }
    requires low { (pos 1 -ℤ PAYOFF_LIMIT) ≤ℤ shift }
    requires high { shift ≤ℤ (PAYOFF_LIMIT +ℤ pos 1) }
    ensures value { result ≡ pay +ℤ shift }
    ensures small { IsAtMost (pos (2 ^ 31 + 1)) result }
{
    i128::from(pay) + i128::from(shift)
}

/// What the defender gets more where the target is covered.
fn covered_more(covered: i64, uncovered: i64) -> i128
    requires covered { IsPay covered }
    requires uncovered { IsPay uncovered }
    ensures value { result ≡ covered -ℤ uncovered }
    ensures small { IsAtMost (pos (2 ^ 31 + 1)) result }
{
    i128::from(covered) - i128::from(uncovered)
}

/// A prior times the defender's payoff at an uncovered target with the shift.
fn whole_part(game: &Game, l: u8, own: u16, shift: i64) -> i128
    requires security { game.now.kind ≡ Security }
    requires known_type { IsTypeOf game.now l }
    requires known_action { IsGoalOf game.now own }
    requires shift { shift ≡ shift_of game.now }
    requires low { (pos 1 -ℤ PAYOFF_LIMIT) ≤ℤ shift }
    requires high { shift ≤ℤ (PAYOFF_LIMIT +ℤ pos 1) }
    ensures value { result ≡ (attacker game.now l).prior *ℤ ((payoff game.now l own).du +ℤ shift_of game.now) }
    ensures small { IsAtMost (pos (2 ^ 52)) result }
{
    let [_, uncovered, _, _] = game.payoffs(l, own);
    weighed(game.prior(l), shifted(uncovered, shift))
}

/// What the column of the whole is worth.
pub(crate) fn whole_cost(game: &Game, fix: &FixedTypes) -> i128
    requires security { game.now.kind ≡ Security }
    requires is_fix { IsFix game.now fix.now }
    ensures { result ≡ column_cost game.now fix.now always }
{
    game.promises();
    let shift = shift(game);
    let mut cost: i128 = 0;
    for i in 0..fix.count() {
        let l = type_at(game, fix, i);
        let own = act_at(game, fix, i);
        cost = plus(cost, whole_part(game, l, own, shift));
    }
    cost
}

/// A prior times what the defender gets more at the type's own action where it is covered.
fn own_part(game: &Game, l: u8, own: u16) -> i128
    requires security { game.now.kind ≡ Security }
    requires known_type { IsTypeOf game.now l }
    requires known_action { IsGoalOf game.now own }
    ensures value { result ≡ (attacker game.now l).prior *ℤ ((payoff game.now l own).dc -ℤ (payoff game.now l own).du) }
    ensures small { IsAtMost (pos (2 ^ 52)) result }
{
    let [covered, uncovered, _, _] = game.payoffs(l, own);
    weighed(game.prior(l), covered_more(covered, uncovered))
}

/// The same at target `t`, where that is the type's own action, else 0.
fn target_part(game: &Game, l: u8, own: u16, t: u16) -> i128
    requires security { game.now.kind ≡ Security }
    requires known_type { IsTypeOf game.now l }
    requires known_action { IsGoalOf game.now own }
    ensures value { result ≡ where_same own t ((attacker game.now l).prior *ℤ ((payoff game.now l own).dc -ℤ (payoff game.now l own).du)) }
    ensures small { IsAtMost (pos (2 ^ 52)) result }
{
    if own != t {
        return 0;
    }
    own_part(game, l, own)
}

/// What the column of target `t` is worth.
pub(crate) fn target_cost(game: &Game, fix: &FixedTypes, t: u16) -> i128
    requires security { game.now.kind ≡ Security }
    requires is_fix { IsFix game.now fix.now }
    ensures { result ≡ column_cost game.now fix.now (covering t) }
{
    game.promises();
    let mut cost: i128 = 0;
    for i in 0..fix.count() {
        let l = type_at(game, fix, i);
        let own = act_at(game, fix, i);
        cost = plus(cost, target_part(game, l, own, t));
    }
    cost
}
