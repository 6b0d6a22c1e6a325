//! Counts by resource and choice within a point: each target's amount is filled choice by choice.

ghost use Rattle.std.specs.Prelude.{◌≡◌, ◌≤◌, ◌≤ℤ◌, ◌-ℤ◌, ◌<◌, ◌+◌, length, map, pos, IfOk, OnOk, slice_index_or, slice_set};
ghost use Rattle.std.specs.Int.{int_min};
ghost use Rattle.sg_model.specs.declared.kind.Kind.TheVariants.{Security};
ghost use Rattle.sg_model.specs.Games.{resource_schedules};
ghost use Rattle.sg_bounds.specs.Coverage.{columns as table_columns};
ghost use Rattle.sg_game.specs.Counting.{IsSingle};
ghost use Rattle.sg_game.specs.Counts.{IsResourceOf};
ghost use Rattle.sg_split.specs.ByTarget.{IsTargetOf};
ghost use Rattle.sg_split.specs.Matched.{counts_of};
ghost use Rattle.sg_programs.specs.CoverFilling.{filled_count, filled_counts, filled_row};
ghost use Rattle.sg_eraser.specs.Amounts.{AreLeft, AreWeighed, amount_in};
ghost use Rattle.sg_eraser.specs.TableValues.{meant_column};

use crate::amounts::{amount_at, target_amounts};
use crate::table::CoverColumn;
use sg_dual::Part;
use sg_game::Game;
use sg_split::Table;
use sqlite_items::Items;
use std::alloc::{AllocError, Global};

/// The target of choice `j` of resource `r`, from 1.
fn target_of(game: &Game, r: u16, j: usize) -> u16
    requires single { IsSingle game.now }
    requires resource { IsResourceOf game.now r }
    requires from_one { 1 ≤ j }
    requires in_list { j ≤ length (resource_schedules game.now r) }
    ensures { IsTargetOf game.now r j result }
{
    let s = game.resource_schedules(r)[j - 1];
    game.schedule_targets(s)[0]
}

/// The number at a place.
fn left_at(left: &Items<i128>, place: usize) -> i128
    requires { place < length left.now }
    ensures { result ≡ slice_index_or left.now place (pos 0) }
{
    left.as_slice()[place]
}

/// The lesser of two numbers.
fn lesser(one: i128, two: i128) -> i128
    ensures { result ≡ int_min one two }
{
    one.min(two)
}

/// What is left of a number that is no less.
fn rest(left: i128, taken: i128) -> i128
    requires some { pos 0 ≤ℤ taken }
    requires enough { taken ≤ℤ left }
    ensures { result ≡ left -ℤ taken }
{
    left - taken
}

/// Takes of what is left of a target as much as a choice has, and answers how much that is.
fn take(left: &mut Items<i128>, place: usize, amount: i128) -> i128
    requires place { place < length left.old }
    requires left { pos 0 ≤ℤ slice_index_or left.old place (pos 0) }
    requires amount { pos 0 ≤ℤ amount }
    ensures taken { result ≡ int_min (slice_index_or left.old place (pos 0)) amount }
    ensures rest { left.new ≡ slice_set left.old place (slice_index_or left.old place (pos 0) -ℤ int_min (slice_index_or left.old place (pos 0)) amount) }
{
    let before = left_at(left, place);
    let taken = lesser(before, amount);
    left.set(place, rest(before, taken));
    taken
}

/// The count of a choice: as much of what is left of its target as it has.
fn fill_choice(
    game: &Game,
    columns: &[CoverColumn],
    parts: &[Part],
    r: u16,
    j: usize,
    left: &mut Items<i128>,
) -> i128
    requires single { IsSingle game.now }
    requires table { map meant_column columns.now ≡ table_columns game.now }
    requires weighed { AreWeighed (length columns.now) parts.now }
    requires resource { IsResourceOf game.now r }
    requires from_one { 1 ≤ j }
    requires in_list { j ≤ length (resource_schedules game.now r) }
    requires left { AreLeft game.now (amount_in game.now parts.now) r j left.old }
    ensures count { result ≡ filled_count game.now (amount_in game.now parts.now) r j }
    ensures left { AreLeft game.now (amount_in game.now parts.now) r (j + 1) left.new }
{
    let place = target_of(game, r, j) as usize - 1;
    let amount = amount_at(columns, parts, CoverColumn::Chooses { r, j });
    take(left, place, amount)
}

/// The counts of a resource, choice by choice.
fn fill_row(
    alloc: Global,
    game: &Game,
    columns: &[CoverColumn],
    parts: &[Part],
    r: u16,
    left: &mut Items<i128>,
) -> Result<Vec<i128>, AllocError>
    requires single { IsSingle game.now }
    requires table { map meant_column columns.now ≡ table_columns game.now }
    requires weighed { AreWeighed (length columns.now) parts.now }
    requires resource { IsResourceOf game.now r }
    requires left { AreLeft game.now (amount_in game.now parts.now) r 1 left.old }
    ensures row { IfOk result (λ row. row.items ≡ filled_row game.now (amount_in game.now parts.now) r) }
    ensures left { OnOk result (AreLeft game.now (amount_in game.now parts.now) (r + 1) 1 left.new) }
{
    let mut row = Vec::new(alloc);
    for k in 0..game.resource_schedules(r).len() {
        row.push(fill_choice(game, columns, parts, r, k + 1, left))?;
    }
    Ok(row)
}

/// The counts of all resources: each target's amount, filled from the first choices that hold it on.
pub(crate) fn fill(
    alloc: Global,
    game: &Game,
    columns: &[CoverColumn],
    parts: &[Part],
) -> Result<Table, AllocError>
    requires single { IsSingle game.now }
    requires security { game.now.kind ≡ Security }
    requires table { map meant_column columns.now ≡ table_columns game.now }
    requires weighed { AreWeighed (length columns.now) parts.now }
    ensures { IfOk result (λ table. counts_of table ≡ filled_counts game.now (amount_in game.now parts.now)) }
{
    let mut left = target_amounts(alloc, game, columns, parts)?;
    let mut counts = Vec::new(alloc);
    for r in 0..game.resources() {
        counts.push(fill_row(alloc, game, columns, parts, r + 1, &mut left)?)?;
    }
    Ok(Table { counts })
}
