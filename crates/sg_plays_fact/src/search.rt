//! The search over the resources, one choice after the other.

ghost use Rattle.std.specs.Prelude.{◌≡◌, ◌↔◌, ◌≤◌, ◌+◌, ◌-◌, ◌^◌, ◌||◌, ◌+ℤ◌, ◌-ℤ◌, ◌≤ℤ◌, ℕ, ℤ, All, IsTrue, false, length, min, nat_eq, pos};
ghost use Rattle.std.specs.List.{list_any};
ghost use Rattle.sg_model.specs.Games.{is_matrix, resource_count, resource_schedules, schedule_targets};
ghost use Rattle.sg_model.specs.Limits.{IsCount};
ghost use Rattle.sg_model.specs.Sums.{nth};
ghost use Rattle.sg_game.specs.Counts.{IsGoalOf, IsResourceOf};
ghost use Rattle.sg_plays_fact.specs.Searching.{HasRoom, StaysWithin, fresh_sum, is_marked};

use crate::bounding::rest_gain;
use sg_game::Game;
use sg_model::limit::SCALED_TARGET_LIMIT;

/// How many schedules a resource may take.
fn choices(game: &Game, r: u16) -> u16
    requires { IsResourceOf game.now r }
    ensures count { result ≡ length (resource_schedules game.now r) }
    ensures few { result ≤ 10000 }
{
    game.promises();
    game.resource_schedules(r).len() as u16
}

/// The targets that a resource covers by a choice: none by choice 0.
fn choice_targets(game: &Game, r: u16, choice: u16) -> &[u16]
    requires resource { IsResourceOf game.now r }
    requires in_list { choice ≤ length (resource_schedules game.now r) }
    ensures list { result.now ≡ schedule_targets game.now (nth (resource_schedules game.now r) choice 0) }
    ensures known { All (IsGoalOf game.now) result.now }
{
    if choice == 0 {
        return &[];
    }
    let s = game.resource_schedules(r)[choice as usize - 1];
    game.schedule_targets(s)
}

/// The weight of a target.
fn weight_of(weights: &[i128], t: u16) -> i128
    requires { IsCount 1 (length weights.now) t }
    ensures { result ≡ nth weights.now t (pos 0) }
{
    weights[t as usize - 1]
}

/// Marks the targets as covered, and tells the sum with the weights of those that weren't.
fn cover(weights: &[i128], targets: &[u16], covered: &mut [bool], sum: i128) -> i128
    requires known { All (IsCount 1 (length weights.now)) targets.now }
    requires enough { length weights.now ≤ length covered.old }
    requires room { HasRoom weights.now covered.old sum }
    ensures marked { (t : ℕ) → IsCount 1 (length weights.now) t → is_marked covered.new t ≡ (is_marked covered.old t || list_any (λ x. nat_eq x t) targets.now) }
    ensures sum { result ≡ sum +ℤ fresh_sum weights.now covered.old (λ t. list_any (λ x. nat_eq x t) targets.now) }
{
    let mut total = sum;
    for t in targets {
        let i = *t as usize - 1;
        if !covered[i] {
            covered[i] = true;
            total += weight_of(weights, *t);
        }
    }
    total
}

/// Whether a sum stays within `mu`, whatever is added to it up to `most`, a number held at the type's end.
fn is_cut(sum: i128, most: u128, mu: i128) -> bool
    requires { (pos 0 -ℤ pos (2 ^ 127 - 1)) ≤ℤ sum }
    ensures { (x : ℕ) → most ≡ min x (2 ^ 128 - 1) → IsTrue result → (sum +ℤ pos x) ≤ℤ mu }
{
    sum <= mu && most <= mu.abs_diff(sum)
}

/// Whether the sum stays within `mu`, whatever the resources after the first `k` choose.
///
/// A branch and bound over their choices: where the bound of what they can add keeps the sum within `mu`, none is tried.
pub(crate) fn stays_within(
    game: &Game,
    weights: &[i128],
    mu: i128,
    covered: &[bool; SCALED_TARGET_LIMIT],
    k: u16,
    sum: i128,
) -> bool
    requires security { is_matrix game.now ≡ false }
    requires one_each { length weights.now ≡ length game.now.goals }
    requires enough { length weights.now ≤ SCALED_TARGET_LIMIT }
    requires few { k ≤ resource_count game.now }
    requires room { HasRoom weights.now covered.now sum }
    ensures { IsTrue result ↔ StaysWithin game.now weights.now mu covered.now k sum }
{
    if k == game.resources() {
        return sum <= mu;
    }
    if is_cut(sum, rest_gain(game, weights, covered, k), mu) {
        return true;
    }
    for choice in 0..choices(game, k + 1) + 1 {
        let mut next = *covered;
        let more = cover(weights, choice_targets(game, k + 1, choice), &mut next, sum);
        if !stays_within(game, weights, mu, &next, k + 1, more) {
            return false;
        }
    }
    true
}
