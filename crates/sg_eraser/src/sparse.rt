//! Columns by their entries that are not 0.

ghost use Rattle.std.specs.Prelude.{◌≡◌, ◌≤◌, IfOk, All, map, length};
ghost use Rattle.sg_model.specs.declared.kind.Kind.TheVariants.{Security};
ghost use Rattle.sg_bounds.specs.Regions.{IsFix};
ghost use Rattle.sg_linear.specs.Sums.{is_zero_int};
ghost use Rattle.sg_eraser.specs.Nonzero.{nonzero_from};
ghost use Rattle.sg_eraser.specs.TableValues.{IsCoverColumn, IsCoverRow, meant_entry};

use crate::entry::entry_at;
use crate::table::{CoverColumn, CoverRow};
use sg_game::Game;
use sg_tree::Fix;
use sqlite_items::Items;
use std::alloc::{AllocError, Global};

/// An entry of a column that is not 0, with its row.
#[derive(Clone, Copy)]
pub(crate) struct RowEntry {
    /// The row, from 0.
    pub(crate) row: u16,
    /// The entry.
    pub(crate) value: i64,
}

/// Whether an entry is 0.
fn is_zero(value: i64) -> bool
    ensures { result ≡ is_zero_int value }
{
    value == 0
}

/// The entries of a column in these rows that are not 0.
fn entries_of(
    alloc: Global,
    game: &Game,
    fix: &Fix,
    rows: &[CoverRow],
    column: CoverColumn,
) -> Result<Items<RowEntry>, AllocError>
    requires security { game.now.kind ≡ Security }
    requires is_fix { IsFix game.now fix.now }
    requires rows { All (IsCoverRow game.now fix.now) rows.now }
    requires few { length rows.now ≤ 1536 }
    requires column { IsCoverColumn game.now column }
    ensures { IfOk result (λ entries. entries ≡ nonzero_from 0 (map (λ row. meant_entry game.now fix.now row column) rows.now)) }
{
    let mut entries = Items::new(alloc);
    for k in 0..rows.len() {
        let value = entry_at(game, fix, rows[k], column);
        if !is_zero(value) {
            entries.push(RowEntry {
                row: k as u16,
                value,
            })?;
        }
    }
    Ok(entries)
}

/// The entries of each column in these rows that are not 0.
pub(crate) fn entries(
    alloc: Global,
    game: &Game,
    fix: &Fix,
    rows: &[CoverRow],
    columns: &[CoverColumn],
) -> Result<Items<Items<RowEntry>>, AllocError>
    requires security { game.now.kind ≡ Security }
    requires is_fix { IsFix game.now fix.now }
    requires rows { All (IsCoverRow game.now fix.now) rows.now }
    requires few { length rows.now ≤ 1536 }
    requires columns { All (IsCoverColumn game.now) columns.now }
    ensures { IfOk result (λ all. all ≡ map (λ c. nonzero_from 0 (map (λ row. meant_entry game.now fix.now row c) rows.now)) columns.now) }
{
    let mut all = Items::new(alloc);
    for column in columns {
        all.push(entries_of(alloc, game, fix, rows, *column)?)?;
    }
    Ok(all)
}
