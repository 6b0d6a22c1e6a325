//! What each column costs.

ghost use Rattle.std.specs.Prelude.{◌≡◌, ◌<◌, ◌*ℤ◌, ◌+ℤ◌, ◌-ℤ◌, ◌≤ℤ◌, pos, ◌*◌, ◌+◌, ◌^◌, IfOk, length, map};
ghost use Rattle.sg_model.specs.declared.kind.Kind.TheVariants.{Security};
ghost use Rattle.sg_model.specs.Games.{attacker, payoff};
ghost use Rattle.sg_model.specs.Limits.{IsPay, IsWithin};
ghost use Rattle.sg_model.specs.declared.limit.TheConstants.{PAYOFF_LIMIT, PRIOR_LIMIT};
ghost use Rattle.sg_model.specs.Payoffs.{shift_of};
ghost use Rattle.sg_game.specs.Counts.{IsGoalOf, IsTypeOf};
ghost use Rattle.sg_num.specs.Exact.{IsAtMost};
ghost use Rattle.sg_rows.specs.Rows.{place};
ghost use Rattle.sg_bounds.specs.Regions.{IsFix};
ghost use Rattle.sg_bounds.specs.Coverage.{always, column_cost, covering, where_same};
ghost use Rattle.sg_eraser.specs.TableValues.{meant_column};

use crate::fixed::{target_at, type_at};
use crate::table::CoverColumn;
use sg_game::{Game, shift};
use sg_tree::Fix;
use sqlite_items::Items;
use std::alloc::{AllocError, Global};

/// A prior times what it weighs.
fn weighed(prior: i64, z: i64) -> i64
    requires prior { IsWithin (pos 1) PRIOR_LIMIT prior }
    requires small { IsAtMost (pos (2 ^ 31 + 1)) z }
    ensures value { result ≡ prior *ℤ z }
    ensures small { IsAtMost (pos (2 ^ 52)) result }
{
    prior * z
}

/// A payoff with the shift.
fn shifted(pay: i64, shift: i64) -> i64
    requires pay { IsPay pay }
    requires low { (pos 1 -ℤ PAYOFF_LIMIT) ≤ℤ shift }
    requires high { shift ≤ℤ (PAYOFF_LIMIT +ℤ pos 1) }
    ensures value { result ≡ pay +ℤ shift }
    ensures small { IsAtMost (pos (2 ^ 31 + 1)) result }
{
    pay + shift
}

/// What the defender gets more where the target is covered.
fn covered_more(covered: i64, uncovered: i64) -> i64
    requires covered { IsPay covered }
    requires uncovered { IsPay uncovered }
    ensures value { result ≡ covered -ℤ uncovered }
    ensures small { IsAtMost (pos (2 ^ 31 + 1)) result }
{
    covered - uncovered
}

/// A prior times the defender's payoff at an uncovered target with the shift.
fn whole_part(game: &Game, l: u8, own: u16, shift: i64) -> i64
    requires security { game.now.kind ≡ Security }
    requires known_type { IsTypeOf game.now l }
    requires known_target { IsGoalOf game.now own }
    requires shift { shift ≡ shift_of game.now }
    requires low { (pos 1 -ℤ PAYOFF_LIMIT) ≤ℤ shift }
    requires high { shift ≤ℤ (PAYOFF_LIMIT +ℤ pos 1) }
    ensures value { result ≡ (attacker game.now l).prior *ℤ ((payoff game.now l own).du +ℤ shift_of game.now) }
    ensures small { IsAtMost (pos (2 ^ 52)) result }
{
    let [_, uncovered, _, _] = game.payoffs(l, own);
    weighed(game.prior(l), shifted(uncovered, shift))
}

/// What the column of the whole costs.
fn whole_cost(game: &Game, fix: &Fix) -> i64
    requires security { game.now.kind ≡ Security }
    requires is_fix { IsFix game.now fix.now }
    ensures { result ≡ column_cost game.now fix.now always }
{
    game.promises();
    let shift = shift(game);
    let mut cost: i64 = 0;
    for i in 0..fix.acts.len() {
        let l = type_at(game, fix, i);
        let own = target_at(game, fix, i);
        cost += whole_part(game, l, own, shift);
    }
    cost
}

/// A prior times what the defender gets more at the type's own target where it is covered.
fn own_part(game: &Game, l: u8, own: u16) -> i64
    requires security { game.now.kind ≡ Security }
    requires known_type { IsTypeOf game.now l }
    requires known_target { IsGoalOf game.now own }
    ensures value { result ≡ (attacker game.now l).prior *ℤ ((payoff game.now l own).dc -ℤ (payoff game.now l own).du) }
    ensures small { IsAtMost (pos (2 ^ 52)) result }
{
    let [covered, uncovered, _, _] = game.payoffs(l, own);
    weighed(game.prior(l), covered_more(covered, uncovered))
}

/// The same at target `t`, where that is the type's own, else 0.
fn target_part(game: &Game, l: u8, own: u16, t: u16) -> i64
    requires security { game.now.kind ≡ Security }
    requires known_type { IsTypeOf game.now l }
    requires known_target { IsGoalOf game.now own }
    ensures value { result ≡ where_same own t ((attacker game.now l).prior *ℤ ((payoff game.now l own).dc -ℤ (payoff game.now l own).du)) }
    ensures small { IsAtMost (pos (2 ^ 52)) result }
{
    if own != t {
        return 0;
    }
    own_part(game, l, own)
}

/// What the column of target `t` costs.
fn target_cost(game: &Game, fix: &Fix, t: u16) -> i64
    requires security { game.now.kind ≡ Security }
    requires is_fix { IsFix game.now fix.now }
    ensures { result ≡ column_cost game.now fix.now (covering t) }
{
    game.promises();
    let mut cost: i64 = 0;
    for i in 0..fix.acts.len() {
        let l = type_at(game, fix, i);
        let own = target_at(game, fix, i);
        cost += target_part(game, l, own, t);
    }
    cost
}

/// What a column costs.
fn cost_of(game: &Game, fix: &Fix, column: CoverColumn) -> i64
    requires security { game.now.kind ≡ Security }
    requires is_fix { IsFix game.now fix.now }
    ensures { result ≡ column_cost game.now fix.now (meant_column column) }
{
    match column {
        CoverColumn::Always => whole_cost(game, fix),
        CoverColumn::Chooses { .. } => 0,
        CoverColumn::Covering(t) => target_cost(game, fix, t),
    }
}

/// What each of these columns costs.
pub(crate) fn costs(
    alloc: Global,
    game: &Game,
    fix: &Fix,
    columns: &[CoverColumn],
) -> Result<Items<i64>, AllocError>
    requires security { game.now.kind ≡ Security }
    requires is_fix { IsFix game.now fix.now }
    ensures { IfOk result (λ costs. costs ≡ map (λ c. column_cost game.now fix.now (meant_column c)) columns.now) }
{
    let mut costs = Items::new(alloc);
    for column in columns {
        costs.push(cost_of(game, fix, *column))?;
    }
    Ok(costs)
}

/// The cost at a place.
pub(crate) fn cost_in(costs: &[i64], k: usize) -> i64
    requires { k < length costs.now }
    ensures { result ≡ place costs.now k }
{
    costs[k]
}
