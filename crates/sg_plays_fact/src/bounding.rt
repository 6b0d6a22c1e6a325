//! What the later resources can add to a sum of covered weights.

ghost use Rattle.std.specs.Prelude.{◌≡◌, ◌≤◌, ◌-◌, ◌^◌, length, max, min};
ghost use Rattle.sg_model.specs.Games.{resource_count};
ghost use Rattle.sg_model.specs.Limits.{IsCount};
ghost use Rattle.sg_model.specs.Sums.{positive_part};
ghost use Rattle.sg_game.specs.Counts.{IsResourceOf, IsScheduleOf};
ghost use Rattle.sg_plays_fact.specs.Bounding.{most_gain, open_weight, rest_gain, schedule_gain};

use sg_game::Game;

/// A weight above 0, and else 0.
fn positive_part(weight: i128) -> u128
    ensures { result ≡ positive_part weight }
{
    if weight < 0 { 0 } else { weight as u128 }
}

/// The weight of a target that isn't marked, where it is above 0, and else 0.
fn open_weight(weights: &[i128], covered: &[bool], t: u16) -> u128
    requires known { IsCount 1 (length weights.now) t }
    requires marked { length weights.now ≤ length covered.now }
    ensures { result ≡ open_weight weights.now covered.now t }
{
    if covered[t as usize - 1] {
        0
    } else {
        positive_part(weights[t as usize - 1])
    }
}

/// The sum of them over the targets of a schedule, held at the type's end.
fn schedule_gain(game: &Game, weights: &[i128], covered: &[bool], s: u16) -> u128
    requires one_each { length weights.now ≡ length game.now.goals }
    requires marked { length weights.now ≤ length covered.now }
    requires known { IsScheduleOf game.now s }
    ensures { result ≡ min (schedule_gain game.now weights.now covered.now s) (2 ^ 128 - 1) }
{
    let mut sum: u128 = 0;
    for t in game.schedule_targets(s) {
        sum = sum.saturating_add(open_weight(weights, covered, *t));
    }
    sum
}

/// The greater of two numbers.
fn greater(left: u128, right: u128) -> u128
    ensures { result ≡ max left right }
{
    if left < right { right } else { left }
}

/// The greatest of these sums over the schedules of a resource, or 0, held at the type's end.
fn most_gain(game: &Game, weights: &[i128], covered: &[bool], r: u16) -> u128
    requires one_each { length weights.now ≡ length game.now.goals }
    requires marked { length weights.now ≤ length covered.now }
    requires known { IsResourceOf game.now r }
    ensures { result ≡ min (most_gain game.now weights.now covered.now r) (2 ^ 128 - 1) }
{
    let mut most: u128 = 0;
    for s in game.resource_schedules(r) {
        most = greater(most, schedule_gain(game, weights, covered, *s));
    }
    most
}

/// What the resources after the first `k` can add at most, held at the type's end.
pub(crate) fn rest_gain(game: &Game, weights: &[i128], covered: &[bool], k: u16) -> u128
    requires one_each { length weights.now ≡ length game.now.goals }
    requires marked { length weights.now ≤ length covered.now }
    requires few { k ≤ resource_count game.now }
    ensures { result ≡ min (rest_gain game.now weights.now covered.now k) (2 ^ 128 - 1) }
{
    let mut sum: u128 = 0;
    for r in k..game.resources() {
        sum = sum.saturating_add(most_gain(game, weights, covered, r + 1));
    }
    sum
}
