//! The inequality of each column of the coverage table.

ghost use Rattle.std.specs.Prelude.{◌≡◌, ◌↔◌, ◌<◌, ◌≤◌, ◌-ℤ◌, ◌*ℤ◌, ◌≤ℤ◌, ℕ, IsTrue, All, length, pos, slice_index_or};
ghost use Rattle.sg_model.specs.declared.kind.Kind.TheVariants.{Security};
ghost use Rattle.sg_model.specs.Games.{resource_count, resource_schedules, schedule_targets};
ghost use Rattle.sg_model.specs.Sums.{nth, total};
ghost use Rattle.sg_game.specs.Counts.{IsGoalOf, IsResourceOf, IsScheduleOf};
ghost use Rattle.sg_num.specs.Exact.{Fits};
ghost use Rattle.sg_bounds.specs.Regions.{IsFix};
ghost use Rattle.sg_bounds.specs.Coverage.{always, column_cost, covering};
ghost use Rattle.sg_cover_fact.specs.Holding.{ResourceHolds, ScheduleHolds};

use crate::cost::{target_cost, whole_cost};
use crate::step::{minus, times};
use sg_fixed::FixedTypes;
use sg_game::Game;

/// Whether the inequality of the whole holds, where the lines' sum in its column is known.
pub(crate) fn whole_holds(game: &Game, fix: &FixedTypes, rho: i128, mu: i128, sum: i128) -> bool
    requires security { game.now.kind ≡ Security }
    requires is_fix { IsFix game.now fix.now }
    requires product { Fits (rho *ℤ column_cost game.now fix.now always) }
    requires difference { Fits ((rho *ℤ column_cost game.now fix.now always) -ℤ sum) }
    ensures { IsTrue result ↔ (((rho *ℤ column_cost game.now fix.now always) -ℤ sum) ≤ℤ mu) }
{
    let worth = times(rho, whole_cost(game, fix));
    minus(worth, sum) <= mu
}

/// Whether the inequality of target `t` holds, where the lines' sum in its column is known.
fn target_holds(game: &Game, fix: &FixedTypes, rho: i128, t: u16, sum: i128) -> bool
    requires security { game.now.kind ≡ Security }
    requires is_fix { IsFix game.now fix.now }
    requires product { Fits (rho *ℤ column_cost game.now fix.now (covering t)) }
    ensures { IsTrue result ↔ ((rho *ℤ column_cost game.now fix.now (covering t)) ≤ℤ sum) }
{
    times(rho, target_cost(game, fix, t)) <= sum
}

/// Whether the inequality of each target holds, where the lines' sums in their columns are known.
pub(crate) fn targets_hold(game: &Game, fix: &FixedTypes, rho: i128, covered: &[i128]) -> bool
    requires security { game.now.kind ≡ Security }
    requires is_fix { IsFix game.now fix.now }
    requires products { (t : ℕ) → IsGoalOf game.now t → Fits (rho *ℤ column_cost game.now fix.now (covering t)) }
    requires room { length game.now.goals < length covered.now }
    ensures { IsTrue result ↔ ((t : ℕ) → IsGoalOf game.now t → (rho *ℤ column_cost game.now fix.now (covering t)) ≤ℤ slice_index_or covered.now t (pos 0)) }
{
    for k in 0..game.targets() {
        let t = k + 1;
        if !target_holds(game, fix, rho, t, sum_at(covered, t)) {
            return false;
        }
    }
    true
}

/// The sum at a place.
fn sum_at(sums: &[i128], place: u16) -> i128
    requires { place < length sums.now }
    ensures { result ≡ slice_index_or sums.now place (pos 0) }
{
    sums[place as usize]
}

/// What is left of a number after another one that is no greater.
fn rest(left: i128, sum: i128) -> i128
    requires some { pos 0 ≤ℤ sum }
    requires enough { sum ≤ℤ left }
    ensures { result ≡ left -ℤ sum }
{
    left - sum
}

/// Whether the targets' sums add up to no more than `most`.
fn targets_fit(targets: &[u16], held: &[i128], most: i128) -> bool
    requires inside { All (λ t. t < length held.now) targets.now }
    requires held { (t : ℕ) → pos 0 ≤ℤ slice_index_or held.now t (pos 0) }
    requires most { pos 0 ≤ℤ most }
    ensures { IsTrue result ↔ (total (λ t. slice_index_or held.now t (pos 0)) targets.now ≤ℤ most) }
{
    let mut left = most;
    for t in targets {
        let sum = sum_at(held, *t);
        if left < sum {
            return false;
        }
        left = rest(left, sum);
    }
    true
}

/// Whether the sums of the targets of each schedule of resource `r` add up to no more than the resource's sum.
fn resource_holds(game: &Game, r: u16, held: &[i128], most: i128) -> bool
    requires security { game.now.kind ≡ Security }
    requires known { IsResourceOf game.now r }
    requires room { length game.now.goals < length held.now }
    requires held { (t : ℕ) → pos 0 ≤ℤ slice_index_or held.now t (pos 0) }
    requires most { pos 0 ≤ℤ most }
    ensures { IsTrue result ↔ ResourceHolds game.now held.now r most }
{
    for s in game.resource_schedules(r) {
        if !targets_fit(game.schedule_targets(*s), held, most) {
            return false;
        }
    }
    true
}

/// Whether the inequality of each choice of each resource holds, where the lines' sums at them and at the targets are known.
pub(crate) fn resources_hold(game: &Game, spent: &[i128], held: &[i128]) -> bool
    requires security { game.now.kind ≡ Security }
    requires spent_room { resource_count game.now < length spent.now }
    requires held_room { length game.now.goals < length held.now }
    requires spent { (r : ℕ) → pos 0 ≤ℤ slice_index_or spent.now r (pos 0) }
    requires held { (t : ℕ) → pos 0 ≤ℤ slice_index_or held.now t (pos 0) }
    ensures { IsTrue result ↔ ((r : ℕ) → IsResourceOf game.now r → ResourceHolds game.now held.now r (slice_index_or spent.now r (pos 0))) }
{
    for k in 0..game.resources() {
        let r = k + 1;
        if !resource_holds(game, r, held, sum_at(spent, r)) {
            return false;
        }
    }
    true
}
