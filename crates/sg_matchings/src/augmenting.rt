// Perfect matchings by augmenting paths, after Kuhn.
ghost use Rattle.std.specs.Prelude.{◌≡◌, ◌<◌, ◌+◌, ◌≤ℤ◌, IfOk, length, pos, int_lt, true, false};
ghost use Rattle.sg_matchings.specs.Sums.{occurrences};
ghost use Rattle.sg_matchings.specs.Tables.{cell, HasPositiveLineSum, IsPerfectMatching, IsSquare};
ghost use Rattle.sg_matchings.specs.Matchings.{AreMatched, Gains, IsBlocked, IsOnPositive, Keeps};

use sqlite_items::Items;
use std::alloc::{AllocError, Global};

/// Whether the table is positive in a row and a column.
pub(crate) fn is_positive(rows: &[Items<i128>], row: usize, column: usize) -> bool
    requires table { IsSquare rows.now }
    requires row { row < length rows.now }
    requires column { column < length rows.now }
    ensures { result ≡ int_lt (pos 0) (cell rows.now row column) }
{
    rows[row].as_slice()[column] > 0
}

/// Looks for an augmenting path from a column to a free row, through rows not reached yet, and matches along it.
///
/// Each row is reached once, so a search takes as many tests as the table has cells, at most.
fn reach(rows: &[Items<i128>], column: usize, seen: &mut [bool], matched: &mut [usize]) -> bool
    requires table { IsSquare rows.now }
    requires column { column < length rows.now }
    requires seen { length seen.old ≡ length rows.now }
    requires matched { IsOnPositive rows.now matched.old }
    ensures matched { IsOnPositive rows.now matched.new }
    ensures keeps { Keeps seen.old matched.old seen.new matched.new }
    ensures found { result ≡ true → Gains (length rows.now) column matched.old matched.new }
    ensures blocked { result ≡ false → IsBlocked rows.now column matched.old seen.old matched.new seen.new }
{
    for row in 0..rows.len() {
        if !seen[row] && is_positive(rows, row, column) {
            seen[row] = true;
            let other = matched[row];
            if other == rows.len() {
                matched[row] = column;
                return true;
            }
            if reach(rows, other, seen, matched) {
                matched[row] = column;
                return true;
            }
        }
    }
    false
}

/// Matches one more column, which no row has yet.
fn augment(
    alloc: Global,
    rows: &[Items<i128>],
    column: usize,
    matched: &mut [usize],
) -> Result<(), AllocError>
    requires table { HasPositiveLineSum rows.now }
    requires column { column < length rows.now }
    requires matched { AreMatched rows.now matched.old column }
    requires free { occurrences column matched.old ≡ pos 0 }
    ensures { IfOk result (λ done. AreMatched rows.now matched.new (column + 1)) }
{
    let mut seen = vec![in alloc; false; rows.len()]?;
    reach(rows, column, seen.as_mut_slice(), matched);
    Ok(())
}

/// Whether some row has the column.
fn is_matched(matched: &[usize], column: usize) -> bool
    ensures some { result ≡ true → pos 1 ≤ℤ occurrences column matched.now }
    ensures none { result ≡ false → occurrences column matched.now ≡ pos 0 }
{
    for row in 0..matched.len() {
        if matched[row] == column {
            return true;
        }
    }
    false
}

/// Matches a column, where no row has it yet.
fn serve(
    alloc: Global,
    rows: &[Items<i128>],
    column: usize,
    matched: &mut [usize],
) -> Result<(), AllocError>
    requires table { HasPositiveLineSum rows.now }
    requires column { column < length rows.now }
    requires matched { AreMatched rows.now matched.old column }
    ensures { IfOk result (λ done. AreMatched rows.now matched.new (column + 1)) }
{
    if !is_matched(matched, column) {
        augment(alloc, rows, column, matched)?;
    }
    Ok(())
}

/// Makes a matching of some columns on positive cells a perfect one: a column for each row.
///
/// A row that is free has the number of rows in place of a column. The only refusal is want of memory: that a path is
/// always found follows from the sums of rows and columns.
pub(crate) fn complete(
    alloc: Global,
    rows: &[Items<i128>],
    matched: &mut [usize],
) -> Result<(), AllocError>
    requires table { HasPositiveLineSum rows.now }
    requires matched { AreMatched rows.now matched.old 0 }
    ensures { IfOk result (λ done. IsPerfectMatching rows.now matched.new) }
{
    for column in 0..rows.len() {
        serve(alloc, rows, column, matched)?;
    }
    Ok(())
}
