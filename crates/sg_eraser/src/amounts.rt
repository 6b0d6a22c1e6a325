//! The weights that the parts of a point give the columns of the coverage table.

ghost use Rattle.std.specs.Prelude.{◌≡◌, ◌+ℤ◌, ◌≤ℤ◌, length, map, pos, FitsSigned, IfOk};
ghost use Rattle.std.specs.Int.{w128};
ghost use Rattle.sg_model.specs.declared.kind.Kind.TheVariants.{Security};
ghost use Rattle.sg_model.specs.Games.{Game as GameOf};
ghost use Rattle.sg_model.specs.Sums.{numbers};
ghost use Rattle.sg_bounds.specs.Coverage.{columns as table_columns, covering};
ghost use Rattle.sg_programs.specs.CoverPoints.{is_same_column};
ghost use Rattle.sg_eraser.specs.Amounts.{AreWeighed, IsNumbered, amount_in, weight_for};
ghost use Rattle.sg_eraser.specs.TableValues.{meant_column};

use crate::table::CoverColumn;
use sg_dual::Part;
use sg_game::Game;
use sqlite_items::Items;
use std::alloc::{AllocError, Global};

/// Whether two columns are the same.
fn is_same(one: CoverColumn, two: CoverColumn) -> bool
    ensures { result ≡ is_same_column (meant_column one) (meant_column two) }
{
    match (one, two) {
        (CoverColumn::Always, CoverColumn::Always) => true,
        (CoverColumn::Chooses { r, j }, CoverColumn::Chooses { r: s, j: k }) => r == s && j == k,
        (CoverColumn::Covering(t), CoverColumn::Covering(u)) => t == u,
        _ => false,
    }
}

/// The weight of a part, where its column is this one, else 0.
fn weight_in(columns: &[CoverColumn], part: Part, want: CoverColumn) -> i128
    requires { IsNumbered (length columns.now) part }
    ensures { result ≡ weight_for columns.now want part }
{
    let column = columns[part.col.code[0] as usize - 1];
    if is_same(column, want) {
        part.weight
    } else {
        0
    }
}

/// The sum.
fn plus(left: i128, right: i128) -> i128
    requires { FitsSigned w128 (left +ℤ right) }
    ensures { result ≡ left +ℤ right }
{
    left + right
}

/// The weight that the parts give a column.
pub(crate) fn amount_at(columns: &[CoverColumn], parts: &[Part], want: CoverColumn) -> i128
    requires { AreWeighed (length columns.now) parts.now }
    ensures amount { (g : GameOf) → map meant_column columns.now ≡ table_columns g → result ≡ amount_in g parts.now (meant_column want) }
    ensures low { pos 0 ≤ℤ result }
{
    let mut sum: i128 = 0;
    for i in 0..parts.len() {
        sum = plus(sum, weight_in(columns, parts[i], want));
    }
    sum
}

/// The weights that the parts give the columns of the targets.
pub(crate) fn target_amounts(
    alloc: Global,
    game: &Game,
    columns: &[CoverColumn],
    parts: &[Part],
) -> Result<Items<i128>, AllocError>
    requires security { game.now.kind ≡ Security }
    requires table { map meant_column columns.now ≡ table_columns game.now }
    requires weighed { AreWeighed (length columns.now) parts.now }
    ensures { IfOk result (λ amounts. amounts ≡ map (λ u. amount_in game.now parts.now (covering u)) (numbers (length game.now.goals))) }
{
    let mut amounts = Items::new(alloc);
    for k in 0..game.targets() {
        amounts.push(amount_at(columns, parts, CoverColumn::Covering(k + 1)))?;
    }
    Ok(amounts)
}
