// From counts by choice to counts by target.
ghost use Rattle.std.specs.Prelude.{◌≡◌, ◌≤◌, ◌<◌, ◌+◌, ◌^◌, All, FitsSigned, IfOk, ℕ, [], length, pos, ◌+ℤ◌, ◌≤ℤ◌, slice_index_or, slice_set};
ghost use Rattle.std.specs.Int.{w128};
ghost use Rattle.sg_model.specs.Sums.{nth, total};
ghost use Rattle.sg_model.specs.Games.{resource_count, resource_schedules};
ghost use Rattle.sg_game.specs.Counting.{IsSingle};
ghost use Rattle.sg_game.specs.Counts.{IsResourceOf};
ghost use Rattle.sg_split.specs.ByTarget.{AreTargetRows, IsTargetOf, IsTargetRow};
ghost use Rattle.sg_split.specs.Matched.{AreChoiceCounts, counts_of};

use crate::table::Table;
use sg_game::Game;
use sqlite_items::Items;
use std::alloc::{AllocError, Global};

/// The target of a choice, counted from 0, of a resource.
pub(crate) fn target_of(game: &Game, r: u16, j: usize) -> u16
    requires single { IsSingle game.now }
    requires resource { IsResourceOf game.now r }
    requires choice { j < length (resource_schedules game.now r) }
    ensures { IsTargetOf game.now r (j + 1) result }
{
    let s = game.resource_schedules(r)[j];
    game.schedule_targets(s)[0]
}

/// A count of a list.
fn count_at(counts: &[i128], j: usize) -> i128
    requires { j < length counts.now }
    ensures { result ≡ slice_index_or counts.now j (pos 0) }
{
    counts[j]
}

/// Adds a count to one place.
fn add(row: &mut [i128], t: usize, count: i128)
    requires place { t < length row.old }
    requires fits { FitsSigned w128 (slice_index_or row.old t (pos 0) +ℤ count) }
    ensures { row.new ≡ slice_set row.old t (slice_index_or row.old t (pos 0) +ℤ count) }
{
    row[t] += count;
}

/// Adds the counts of a resource's choices to those of their targets.
fn add_all(game: &Game, r: u16, counts: &[i128], tickets: i128, row: &mut [i128])
    requires single { IsSingle game.now }
    requires resource { IsResourceOf game.now r }
    requires one_each { length counts.now ≡ length (resource_schedules game.now r) }
    requires none_below { All (λ z. pos 0 ≤ℤ z) counts.now }
    requires within { total (λ z. z) counts.now ≤ℤ tickets }
    requires long { length row.old ≡ length game.now.goals }
    requires zeros { (t : ℕ) → t < length row.old → slice_index_or row.old t (pos 0) ≡ pos 0 }
    ensures { IsTargetRow game.now r counts.now row.new }
{
    for j in 0..counts.len() {
        let target = target_of(game, r, j);
        add(row, target as usize - 1, count_at(counts, j));
    }
}

/// The counts of a resource by target.
fn row_of(
    alloc: Global,
    game: &Game,
    r: u16,
    counts: &[i128],
    tickets: i128,
) -> Result<Items<i128>, AllocError>
    requires single { IsSingle game.now }
    requires resource { IsResourceOf game.now r }
    requires one_each { length counts.now ≡ length (resource_schedules game.now r) }
    requires none_below { All (λ z. pos 0 ≤ℤ z) counts.now }
    requires within { total (λ z. z) counts.now ≤ℤ tickets }
    ensures { IfOk result (λ row. IsTargetRow game.now r counts.now row) }
{
    let mut row: Vec<i128> = vec![in alloc; 0; game.targets() as usize]?;
    add_all(game, r, counts, tickets, row.as_mut_slice());
    Ok(Items::from_vec(row))
}

/// The counts of a resource, counted from 0, by choice.
fn choice_counts(table: &Table, r: u16) -> &[i128]
    requires { r < length (counts_of table.now) }
    ensures { result.now ≡ nth (counts_of table.now) (r + 1) [] }
{
    table.counts[r as usize].as_slice()
}

/// The counts of all resources by target.
pub(crate) fn rows_of(
    alloc: Global,
    game: &Game,
    table: &Table,
    tickets: i128,
) -> Result<Vec<Items<i128>>, AllocError>
    requires { AreChoiceCounts game.now (counts_of table.now) tickets }
    ensures { IfOk result (λ rows. AreTargetRows game.now (counts_of table.now) rows.items) }
{
    let mut rows = Vec::new(alloc);
    for r in 0..game.resources() {
        let row = row_of(alloc, game, r + 1, choice_counts(table, r), tickets)?;
        rows.push(row)?;
    }
    Ok(rows)
}
