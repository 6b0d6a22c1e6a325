//! What each play costs, and its entry in each row from 1.

ghost use Rattle.std.specs.Prelude.{◌≡◌, ◌≤◌, ◌<◌, ◌+◌, ◌^◌, ◌≤ℤ◌, ◌-ℤ◌, ◌+ℤ◌, ◌*ℤ◌, length, pos, replicate, All, IfOk};
ghost use Rattle.std.specs.List.{AllZip};
ghost use Rattle.sg_model.specs.Limits.{IsPay, IsWithin};
ghost use Rattle.sg_model.specs.PlayLists.{legal_plays};
ghost use Rattle.sg_model.specs.Plays.{pay_a};
ghost use Rattle.sg_bounds.specs.Regions.{IsFix};
ghost use Rattle.sg_bounds.specs.Facts.{cost};
ghost use Rattle.sg_model.specs.Payoffs.{shift_of};
ghost use Rattle.sg_game.specs.Counts.{IsActionOf, IsTypeOf};
ghost use Rattle.sg_num.specs.Exact.{IsAtMost};
ghost use Rattle.sg_bounds.specs.PlayRows.{comparisons, other_actions};
ghost use Rattle.sg_dobss.specs.Covering.{AreCovered};
ghost use Rattle.sg_dobss.specs.Paying.{AreByPlay, AreNumbers};
ghost use Rattle.sg_dobss.specs.Tables.{IsGainRow, IsTypeRow, added_to};

use crate::fixed::{act_at, type_at};
use crate::paying::{Side, differences, pays};
use sg_game::{Game, shift};
use sg_tree::Fix;
use sqlite_items::Items;
use std::alloc::{AllocError, Global};

/// What an action of a type pays above another one, whose payoffs are given.
fn gains(
    alloc: Global,
    game: &Game,
    coverage: &[Items<bool>],
    l: u8,
    a: u16,
    act: u16,
    base: &[i64],
) -> Result<Items<i64>, AllocError>
    requires covered { AreCovered game.now coverage.now }
    requires known_type { IsTypeOf game.now l }
    requires known_action { IsActionOf game.now l a }
    requires base { AreByPlay game.now (λ play. pay_a game.now l play act) base.now }
    requires within { All IsPay base.now }
    ensures { IfOk result (IsTypeRow game.now act (l, a)) }
{
    let pays = pays(alloc, game, coverage, &Side::Attacker, l, a)?;
    let row = differences(alloc, pays.as_slice(), base)?;
    Ok(row)
}

/// The rows of one type that is fixed to an action.
fn type_rows(
    alloc: Global,
    game: &Game,
    coverage: &[Items<bool>],
    l: u8,
    act: u16,
) -> Result<Items<Items<i64>>, AllocError>
    requires covered { AreCovered game.now coverage.now }
    requires known_type { IsTypeOf game.now l }
    requires known_action { IsActionOf game.now l act }
    ensures { IfOk result (AllZip (IsTypeRow game.now act) (other_actions game.now (l, act))) }
{
    let base = pays(alloc, game, coverage, &Side::Attacker, l, act)?;
    let mut rows = Items::new(alloc);
    for i in 0..game.actions(l) {
        if i + 1 != act {
            let row = gains(alloc, game, coverage, l, i + 1, act, base.as_slice())?;
            rows.push(row)?;
        }
    }
    Ok(rows)
}

/// The rows of a node from 1, each with the gain of its comparison at each play.
pub(crate) fn rows(
    alloc: Global,
    game: &Game,
    coverage: &[Items<bool>],
    fix: &Fix,
) -> Result<Items<Items<i64>>, AllocError>
    requires covered { AreCovered game.now coverage.now }
    requires is_fix { IsFix game.now fix.now }
    ensures { IfOk result (AllZip (IsGainRow game.now fix.now) (comparisons game.now fix.now)) }
{
    let mut rows = Items::new(alloc);
    for i in 0..fix.acts.len() {
        let l = type_at(game, fix, i);
        let act = act_at(game, fix, i);
        let more = type_rows(alloc, game, coverage, l, act)?;
        rows.append(more)?;
    }
    Ok(rows)
}

/// A cost with the prior times a payoff and the shift.
fn added(cost: i64, prior: i64, shift: i64, pay: i64) -> i64
    requires cost { IsAtMost (pos (2 ^ 60)) cost }
    requires prior { IsWithin (pos 1) (pos (2 ^ 20)) prior }
    requires shift { IsAtMost (pos (2 ^ 30 + 1)) shift }
    requires pay { IsPay pay }
    ensures { result ≡ cost +ℤ (prior *ℤ (pay +ℤ shift)) }
{
    let shifted = pay + shift;
    let product = prior * shifted;
    cost + product
}

/// The cost at a place with the prior times a payoff and the shift.
fn added_at(costs: &[i64], prior: i64, shift: i64, pays: &[i64], k: usize) -> i64
    requires costs { All (IsAtMost (pos (2 ^ 60))) costs.now }
    requires prior { IsWithin (pos 1) (pos (2 ^ 20)) prior }
    requires shift { IsAtMost (pos (2 ^ 30 + 1)) shift }
    requires pays { All IsPay pays.now }
    requires in_costs { k < length costs.now }
    requires in_pays { k < length pays.now }
    ensures { result ≡ added_to costs.now prior shift pays.now k }
{
    added(costs[k], prior, shift, pays[k])
}

/// Costs with the prior times a payoff and the shift, play by play.
fn with_pays(
    alloc: Global,
    costs: &[i64],
    prior: i64,
    shift: i64,
    pays: &[i64],
) -> Result<Items<i64>, AllocError>
    requires costs { All (IsAtMost (pos (2 ^ 60))) costs.now }
    requires prior { IsWithin (pos 1) (pos (2 ^ 20)) prior }
    requires shift { IsAtMost (pos (2 ^ 30 + 1)) shift }
    requires pays { All IsPay pays.now }
    requires long { length pays.now ≡ length costs.now }
    ensures { IfOk result (AreNumbers (length costs.now) (added_to costs.now prior shift pays.now)) }
{
    let mut sums = Items::new(alloc);
    for k in 0..costs.len() {
        sums.push(added_at(costs, prior, shift, pays, k))?;
    }
    Ok(sums)
}

/// So many zeros.
fn zeros(alloc: Global, count: usize) -> Result<Items<i64>, AllocError>
    ensures { IfOk result (λ all. all ≡ replicate count (pos 0)) }
{
    let mut all = Items::new(alloc);
    for k in 0..count {
        all.push(0)?;
    }
    Ok(all)
}

/// What each play costs.
pub(crate) fn costs(
    alloc: Global,
    game: &Game,
    coverage: &[Items<bool>],
    fix: &Fix,
    count: usize,
) -> Result<Items<i64>, AllocError>
    requires covered { AreCovered game.now coverage.now }
    requires is_fix { IsFix game.now fix.now }
    requires count { count ≡ length (legal_plays game.now) }
    ensures { IfOk result (AreByPlay game.now (λ play. cost game.now fix.now play)) }
{
    game.promises();
    let shift = shift(game);
    let mut costs = zeros(alloc, count)?;
    for i in 0..fix.acts.len() {
        let l = type_at(game, fix, i);
        let act = act_at(game, fix, i);
        let pays = pays(alloc, game, coverage, &Side::Defender, l, act)?;
        let prior = game.prior(l);
        costs = with_pays(alloc, costs.as_slice(), prior, shift, pays.as_slice())?;
    }
    Ok(costs)
}
