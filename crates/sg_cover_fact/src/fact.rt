//! The test of a whole fact.

ghost use Rattle.std.specs.Prelude.{◌≡◌, ◌↔◌, ◌≤◌, ◌≤ℤ◌, All, IsTrue, pos};
ghost use Rattle.sg_model.specs.declared.kind.Kind.TheVariants.{Security};
ghost use Rattle.sg_num.specs.Exact.{Fits};
ghost use Rattle.sg_tree.specs.declared.fact.Fact.{Fact};
ghost use Rattle.sg_bounds.specs.Regions.{IsFix};
ghost use Rattle.sg_bounds.specs.Facts.{IsCoverFact, IsLineOf};
ghost use Rattle.sg_bounds.specs.Sizes.{size_sums};
ghost use Rattle.sg_cover_fact.specs.Holding.{EachColumnHolds};
ghost use Rattle.sg_cover_fact.specs.LineSums.{IsTestable};

use crate::row::row_count;
use crate::table::{choice_columns_hold, target_columns_hold, whole_column_holds};
use sg_fixed::FixedTypes;
use sg_game::{Game, Kind};
use sg_tree::Line;

/// Whether a line names one of so many rows, with a multiplier of at least 1.
fn is_line(count: usize, line: &Line) -> bool
    ensures { IsTrue result ↔ ((1 ≤ line.now.row) × (line.now.row ≤ count) × (pos 1 ≤ℤ line.now.v)) }
{
    1 <= line.row && line.row as usize <= count && 1 <= line.v
}

/// Whether each line names a row from row 1, with a multiplier of at least 1.
fn are_lines(game: &Game, fix: &FixedTypes, lines: &[Line]) -> bool
    requires security { game.now.kind ≡ Security }
    requires is_fix { IsFix game.now fix.now }
    ensures { IsTrue result ↔ All (IsLineOf game.now fix.now) lines.now }
{
    let count = row_count(game, fix);
    for line in lines {
        if !is_line(count, line) {
            return false;
        }
    }
    true
}

/// Whether the inequality of each column holds.
fn columns_hold(game: &Game, fix: &FixedTypes, rho: i128, mu: i128, lines: &[Line]) -> bool
    requires { IsTestable game.now fix.now rho lines.now }
    ensures { IsTrue result ↔ EachColumnHolds game.now fix.now rho mu lines.now }
{
    if !whole_column_holds(game, fix, rho, mu, lines) {
        return false;
    }
    if !choice_columns_hold(game, fix, lines) {
        return false;
    }
    target_columns_hold(game, fix, rho, lines)
}

/// Whether the lines may stand, and the inequality of each column holds.
fn table_holds(game: &Game, fix: &FixedTypes, rho: i128, mu: i128, lines: &[Line]) -> bool
    requires security { game.now.kind ≡ Security }
    requires is_fix { IsFix game.now fix.now }
    requires size { All Fits (size_sums game.now fix.now (Fact.Cover rho mu lines.now)) }
    requires rho { pos 1 ≤ℤ rho }
    ensures { IsTrue result ↔ (All (IsLineOf game.now fix.now) lines.now × EachColumnHolds game.now fix.now rho mu lines.now) }
{
    if !are_lines(game, fix, lines) {
        return false;
    }
    columns_hold(game, fix, rho, mu, lines)
}

/// Whether a fact of the coverage table holds at a node. The numbers under its size sum fit.
///
/// It takes no memory, and its time is linear in the lines and in the entries of the table's columns.
pub fn holds(game: &Game, fix: &FixedTypes, rho: i128, mu: i128, lines: &[Line]) -> bool
    requires is_fix { IsFix game.now fix.now }
    requires size { All Fits (size_sums game.now fix.now (Fact.Cover rho mu lines.now)) }
    ensures { IsTrue result ↔ IsCoverFact game.now fix.now rho mu lines.now }
{
    match game.kind() {
        Kind::Matrix => false,
        Kind::Security => {
            if rho < 1 || mu < 0 {
                return false;
            }
            table_holds(game, fix, rho, mu, lines)
        }
    }
}
