//! What covering a target adds to the sum of a fact.

ghost use Rattle.std.specs.Prelude.{◌≡◌, ◌+ℤ◌, ◌-ℤ◌, ◌*ℤ◌, ◌≤ℤ◌, ◌^◌, ◌-◌, ℕ, false, length, pos};
ghost use Rattle.sg_model.specs.Games.{attacker, is_matrix, payoff};
ghost use Rattle.sg_model.specs.Limits.{IsCount};
ghost use Rattle.sg_model.specs.Sums.{nth};
ghost use Rattle.sg_num.specs.Exact.{Fits, IsAtMost};
ghost use Rattle.sg_game.specs.Counts.{IsActionOf, IsTypeOf};
ghost use Rattle.sg_bounds.specs.Coverage.{column_cost, covering, where_same};
ghost use Rattle.sg_bounds.specs.Facts.{IsMarkOf};
ghost use Rattle.sg_bounds.specs.Regions.{IsFix};
ghost use Rattle.sg_bounds.specs.Sizes.{attacker_most, defender_most, fixed_priors};
ghost use Rattle.sg_plays_fact.specs.Testing.{IsSizedFact};
ghost use Rattle.sg_plays_fact.specs.Weighing.{mark_entry, target_weight};

use crate::fixed::{act_at, act_of, type_at};
use crate::stated::Stated;
use sg_fixed::FixedTypes;
use sg_game::Game;
use sg_tree::Mark;

/// Adds to the weight of a target.
fn add_at(weights: &mut [i128], t: u16, by: i128)
    requires known { IsCount 1 (length weights.old) t }
    requires fits { IsAtMost (pos (2 ^ 127 - 1)) (nth weights.old t (pos 0) +ℤ by) }
    ensures { (s : ℕ) → IsCount 1 (length weights.old) s → nth weights.new s (pos 0) ≡ nth weights.old s (pos 0) +ℤ where_same t s by }
{
    weights[t as usize - 1] += by;
}

/// What covering target `t` adds to what the defender gets against a type, times its prior.
fn worth_added(game: &Game, l: u8, t: u16) -> i128
    requires security { is_matrix game.now ≡ false }
    requires known_type { IsTypeOf game.now l }
    requires known_target { IsActionOf game.now l t }
    ensures { result ≡ (attacker game.now l).prior *ℤ ((payoff game.now l t).dc -ℤ (payoff game.now l t).du) }
{
    let [covered, uncovered, _, _] = game.payoffs(l, t);
    i128::from(game.prior(l)) * i128::from(covered - uncovered)
}

/// What covering target `t` adds to what a type gets there.
fn pay_added(game: &Game, l: u8, t: u16) -> i128
    requires security { is_matrix game.now ≡ false }
    requires known_type { IsTypeOf game.now l }
    requires known_target { IsActionOf game.now l t }
    ensures { result ≡ (payoff game.now l t).ac -ℤ (payoff game.now l t).au }
{
    let [_, _, covered, uncovered] = game.payoffs(l, t);
    i128::from(covered - uncovered)
}

/// Weights by what covering a target is worth to the defender, times rho, from weights that are all 0.
fn weigh_types(game: &Game, fix: &FixedTypes, rho: i128, weights: &mut [i128])
    requires security { is_matrix game.now ≡ false }
    requires one_each { length weights.old ≡ length game.now.goals }
    requires zero { (t : ℕ) → IsCount 1 (length weights.old) t → nth weights.old t (pos 0) ≡ pos 0 }
    requires is_fix { IsFix game.now fix.now }
    requires rho { pos 1 ≤ℤ rho }
    requires size { Fits ((rho *ℤ fixed_priors game.now fix.now) *ℤ defender_most game.now) }
    ensures { (t : ℕ) → IsCount 1 (length weights.old) t → nth weights.new t (pos 0) ≡ rho *ℤ column_cost game.now fix.now (covering t) }
{
    game.promises();
    for i in 0..fix.count() {
        let l = type_at(game, fix, i);
        let a = act_at(game, fix, i);
        add_at(weights, a, rho * worth_added(game, l, a));
    }
}

/// What covering target `t` adds to what the mark's type gets there, times the mark's multiplier.
fn marked_part(game: &Game, mark: &Mark, t: u16) -> i128
    requires security { is_matrix game.now ≡ false }
    requires known_type { IsTypeOf game.now mark.now.l }
    requires known_target { IsActionOf game.now mark.now.l t }
    requires positive { pos 1 ≤ℤ mark.now.v }
    requires load { (mark.now.v *ℤ attacker_most game.now) ≤ℤ pos (2 ^ 127 - 1) }
    ensures value { result ≡ mark.now.v *ℤ ((payoff game.now mark.now.l t).ac -ℤ (payoff game.now mark.now.l t).au) }
    ensures small { IsAtMost (pos (2 ^ 127 - 1)) result }
{
    game.promises();
    mark.v * pay_added(game, mark.l, t)
}

/// Takes off what covering each target adds to a marked comparison, times its multiplier.
fn weigh_mark(game: &Game, fix: &FixedTypes, mark: &Mark, weights: &mut [i128])
    requires security { is_matrix game.now ≡ false }
    requires one_each { length weights.old ≡ length game.now.goals }
    requires is_fix { IsFix game.now fix.now }
    requires mark { IsMarkOf game.now fix.now mark.now }
    requires load { (mark.now.v *ℤ attacker_most game.now) ≤ℤ pos (2 ^ 127 - 1) }
    requires room { (t : ℕ) → IsCount 1 (length weights.old) t → IsAtMost (pos (2 ^ 127 - 1)) (nth weights.old t (pos 0) -ℤ (mark.now.v *ℤ mark_entry game.now fix.now t mark.now)) }
    ensures { (t : ℕ) → IsCount 1 (length weights.old) t → nth weights.new t (pos 0) ≡ nth weights.old t (pos 0) -ℤ (mark.now.v *ℤ mark_entry game.now fix.now t mark.now) }
{
    let _types = game.types();
    let act = act_of(game, fix, mark.l);
    let marked = marked_part(game, mark, mark.a);
    let fixed = marked_part(game, mark, act);
    add_at(weights, mark.a, 0 - marked);
    add_at(weights, act, fixed);
}

/// The weight of each target, from weights that are all 0.
pub(crate) fn weigh(
    game: &Game,
    fix: &FixedTypes,
    stated: &Stated,
    marks: &[Mark],
    weights: &mut [i128],
)
    requires security { is_matrix game.now ≡ false }
    requires one_each { length weights.old ≡ length game.now.goals }
    requires zero { (t : ℕ) → IsCount 1 (length weights.old) t → nth weights.old t (pos 0) ≡ pos 0 }
    requires sized { IsSizedFact game.now fix.now stated.now marks.now }
    ensures { (t : ℕ) → IsCount 1 (length weights.old) t → nth weights.new t (pos 0) ≡ target_weight game.now fix.now stated.now.rho marks.now t }
{
    game.promises();
    weigh_types(game, fix, stated.rho, weights);
    for mark in marks {
        weigh_mark(game, fix, mark, weights);
    }
}
