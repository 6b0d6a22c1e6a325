//! The rows of the coverage table, by their numbers.

ghost use Rattle.std.specs.Prelude.{◌≡◌, ◌≤◌, ◌<◌, ◌+◌, ◌*◌, ◌-◌, length, slice_index};
ghost use Rattle.sg_model.specs.declared.kind.Kind.TheVariants.{Security};
ghost use Rattle.sg_model.specs.Games.{resource_count};
ghost use Rattle.sg_game.specs.Counts.{IsGoalOf, IsTypeOf};
ghost use Rattle.sg_bounds.specs.Regions.{IsFix, act_of};
ghost use Rattle.sg_bounds.specs.RowLaws.{table_row_count};
ghost use Rattle.sg_bounds.specs.Coverage.{table_rows};
ghost use Rattle.sg_cover_fact.specs.TableRows.{IsRowAt};

use sg_bounds::rows_in_order;
use sg_fixed::FixedTypes;
use sg_game::Game;

/// A row of the coverage table, from row 1.
#[derive(Clone, Copy)]
pub(crate) enum TableRow {
    /// A resource makes one choice.
    Spends(u16),
    /// A target is held where it is covered.
    Held(u16),
    /// A target is covered at most always.
    Within(u16),
    /// What a type gains by another action than its own.
    Gains { l: u8, other: u16 },
}

/// How many rows the table has from row 1.
pub(crate) fn row_count(game: &Game, fix: &FixedTypes) -> usize
    requires security { game.now.kind ≡ Security }
    requires is_fix { IsFix game.now fix.now }
    ensures { result ≡ length (table_rows game.now fix.now) }
{
    game.promises();
    rows_in_order();
    let targets = game.targets() as usize;
    let others = fix.count() * (targets - 1);
    game.resources() as usize + targets + targets + others
}

/// The type that is fixed at place `i`, from 0.
pub(crate) fn type_at(game: &Game, fix: &FixedTypes, i: usize) -> u8
    requires is_fix { IsFix game.now fix.now }
    requires inside { i < length fix.now.acts }
    ensures number { result ≡ fix.now.first + i }
    ensures known { IsTypeOf game.now result }
{
    game.promises();
    fix.first() + i as u8
}

/// The action that it is fixed to.
pub(crate) fn act_at(game: &Game, fix: &FixedTypes, i: usize) -> u16
    requires security { game.now.kind ≡ Security }
    requires is_fix { IsFix game.now fix.now }
    requires inside { i < length fix.now.acts }
    ensures number { result ≡ slice_index fix.now.acts i }
    ensures known { IsGoalOf game.now result }
{
    fix.acts()[i]
}

/// The action that type `l` is fixed to.
pub(crate) fn own_action(game: &Game, fix: &FixedTypes, l: u8) -> u16
    requires security { game.now.kind ≡ Security }
    requires is_fix { IsFix game.now fix.now }
    requires from_first { fix.now.first ≤ l }
    requires in_range { l < fix.now.first + length fix.now.acts }
    ensures number { result ≡ act_of fix.now l }
    ensures known { IsGoalOf game.now result }
{
    act_at(game, fix, (l - fix.first()) as usize)
}

/// The row of the `j`-th other action, from 1, of the type that is fixed at place `i`, from 0.
fn gains_row(game: &Game, fix: &FixedTypes, i: usize, j: u16) -> TableRow
    requires security { game.now.kind ≡ Security }
    requires is_fix { IsFix game.now fix.now }
    requires inside { i < length fix.now.acts }
    requires some { 1 ≤ j }
    requires few { j ≤ length game.now.goals - 1 }
    ensures { IsRowAt game.now fix.now (resource_count game.now + length game.now.goals + length game.now.goals + (i * (length game.now.goals - 1) + j)) result }
{
    game.promises();
    rows_in_order();
    let l = type_at(game, fix, i);
    let own = act_at(game, fix, i);
    let other = if j < own { j } else { j + 1 };
    TableRow::Gains { l, other }
}

/// The row at this place, from 0, behind those of the resources and targets.
fn later_row(game: &Game, fix: &FixedTypes, place: usize) -> TableRow
    requires security { game.now.kind ≡ Security }
    requires is_fix { IsFix game.now fix.now }
    requires inside { place < length fix.now.acts * (length game.now.goals - 1) }
    ensures { IsRowAt game.now fix.now (resource_count game.now + length game.now.goals + length game.now.goals + (place + 1)) result }
{
    let others = game.targets() as usize - 1;
    gains_row(game, fix, place / others, (place % others) as u16 + 1)
}

/// The row of this number, from 1.
pub(crate) fn row_at(game: &Game, fix: &FixedTypes, number: usize) -> TableRow
    requires security { game.now.kind ≡ Security }
    requires is_fix { IsFix game.now fix.now }
    requires some { 1 ≤ number }
    requires inside { number ≤ length (table_rows game.now fix.now) }
    ensures { IsRowAt game.now fix.now number result }
{
    game.promises();
    rows_in_order();
    let resources = game.resources() as usize;
    let targets = game.targets() as usize;
    if number <= resources {
        return TableRow::Spends(number as u16);
    }
    if number <= resources + targets {
        return TableRow::Held((number - resources) as u16);
    }
    if number <= resources + targets + targets {
        return TableRow::Within((number - resources - targets) as u16);
    }
    later_row(game, fix, number - resources - targets - targets - 1)
}
