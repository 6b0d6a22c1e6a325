// Counts whose sums are at most a number, in a square table with this line sum.
ghost use Rattle.std.specs.Prelude.{◌≡◌, ◌+◌, ◌<◌, ◌^◌, IfOk, length, pos, ◌-ℤ◌};
ghost use Rattle.sg_matchings.specs.Tables.{cell};
ghost use Rattle.sg_matchings.specs.Padding.{AreWithin, IsPadded, IsPaddedCell, IsPaddedRow, column_total, row_total};

use sqlite_items::Items;
use std::alloc::{AllocError, Global};

/// A count.
fn count_at(counts: &[Items<i128>], width: usize, most: i128, row: usize, column: usize) -> i128
    requires counts { AreWithin counts.now width most }
    requires row { row < length counts.now }
    requires column { column < width }
    ensures { result ≡ cell counts.now row column }
{
    counts[row].as_slice()[column]
}

/// What a row lacks.
fn row_lack(counts: &[Items<i128>], width: usize, most: i128, row: usize) -> i128
    requires counts { AreWithin counts.now width most }
    requires row { row < length counts.now }
    ensures { result ≡ most -ℤ row_total counts.now width row }
{
    let mut lack = most;
    for column in 0..width {
        lack -= count_at(counts, width, most, row, column);
    }
    lack
}

/// What a column lacks.
fn column_lack(counts: &[Items<i128>], width: usize, most: i128, column: usize) -> i128
    requires counts { AreWithin counts.now width most }
    requires column { column < width }
    ensures { result ≡ most -ℤ column_total counts.now column }
{
    let mut lack = most;
    for row in 0..counts.len() {
        lack -= count_at(counts, width, most, row, column);
    }
    lack
}

/// A number of the padded table.
fn padded_at(counts: &[Items<i128>], width: usize, most: i128, i: usize, j: usize) -> i128
    requires counts { AreWithin counts.now width most }
    requires row { i < length counts.now + width }
    requires column { j < length counts.now + width }
    ensures { IsPaddedCell counts.now width most i j result }
{
    let count = counts.len();
    if i < count {
        if j < width {
            return count_at(counts, width, most, i, j);
        }
        if j - width == i {
            return row_lack(counts, width, most, i);
        }
        return 0;
    }
    if j < width {
        if i - count == j {
            return column_lack(counts, width, most, j);
        }
        return 0;
    }
    count_at(counts, width, most, j - width, i - count)
}

/// A row of the padded table.
fn padded_row(
    alloc: Global,
    counts: &[Items<i128>],
    width: usize,
    most: i128,
    i: usize,
) -> Result<Items<i128>, AllocError>
    requires counts { AreWithin counts.now width most }
    requires row { i < length counts.now + width }
    requires fits { length counts.now + width < 2 ^ 64 }
    ensures { IfOk result (λ row. IsPaddedRow counts.now width most i row) }
{
    let mut row = Items::new(alloc);
    for j in 0..counts.len() + width {
        row.push(padded_at(counts, width, most, i, j))?;
    }
    Ok(row)
}

/// The square table with line sum `most` that the counts stand in.
pub(crate) fn padded(
    alloc: Global,
    counts: &[Items<i128>],
    width: usize,
    most: i128,
) -> Result<Vec<Items<i128>>, AllocError>
    requires counts { AreWithin counts.now width most }
    requires fits { length counts.now + width < 2 ^ 64 }
    ensures { IfOk result (λ rows. IsPadded counts.now width most rows.items) }
{
    let mut rows = Vec::new(alloc);
    for i in 0..counts.len() + width {
        rows.push(padded_row(alloc, counts, width, most, i)?)?;
    }
    Ok(rows)
}
