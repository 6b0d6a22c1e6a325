// Counts as a sum of matchings, by the theorem of Birkhoff and von Neumann.
ghost use Rattle.std.specs.Prelude.{◌≡◌, ◌<◌, ◌≤◌, ◌+◌, ◌^◌, ◌⊎◌, IfOk, length, pos, ◌-ℤ◌, ◌≤ℤ◌, ℕ, List, slice_index, slice_index_or, slice_set};
ghost use Rattle.sg_matchings.specs.declared.part.Part.{Part};
ghost use Rattle.sg_matchings.specs.Tables.{cell, HasPositiveLineSum, IsPerfectMatching, IsSquare};
ghost use Rattle.sg_matchings.specs.Matchings.{AreMatched};
ghost use Rattle.sg_matchings.specs.Padding.{AreWithin, IsPadded};
ghost use Rattle.sg_matchings.specs.Decompositions.{IsDecomposition};
ghost use Rattle.sg_matchings.specs.Mirrors.{IsFront, IsLeastWeight, IsLess, IsMirrored, IsOnce, IsMatchingStep, IsTaken, IsTurned};

use crate::augmenting::{complete, is_positive};
use crate::mirror::mirror;
use crate::padding::padded;
use crate::part::Part;
use sqlite_items::Items;
use std::alloc::{AllocError, Global};

/// The number in a row and a column.
fn value_at(rows: &[Items<i128>], row: usize, column: usize) -> i128
    requires table { IsSquare rows.now }
    requires row { row < length rows.now }
    requires column { column < length rows.now }
    ensures { result ≡ cell rows.now row column }
{
    rows[row].as_slice()[column]
}

/// The lesser of two numbers.
fn lesser(a: i128, b: i128) -> i128
    ensures first { result ≤ℤ a }
    ensures second { result ≤ℤ b }
    ensures one { (result ≡ a) ⊎ (result ≡ b) }
{
    if b < a { b } else { a }
}

/// The least number on a perfect matching.
fn least_on(rows: &[Items<i128>], columns: &[usize]) -> i128
    requires some { 0 < length rows.now }
    requires table { IsSquare rows.now }
    requires matching { IsPerfectMatching rows.now columns.now }
    ensures { IsLeastWeight rows.now columns.now result }
{
    let mut least = value_at(rows, 0, columns[0]);
    for row in 1..rows.len() {
        least = lesser(least, value_at(rows, row, columns[row]));
    }
    least
}

/// Lowers one number of a row.
fn lower(row: &mut Items<i128>, column: usize, weight: i128)
    requires column { column < length row.old }
    requires weight { pos 0 ≤ℤ weight }
    requires enough { weight ≤ℤ slice_index_or row.old column (pos 0) }
    ensures { row.new ≡ slice_set row.old column (slice_index_or row.old column (pos 0) -ℤ weight) }
{
    let value = row.as_slice()[column];
    row.set(column, value - weight);
}

/// Takes a matching off the table so many times.
fn take_off(rows: &mut [Items<i128>], columns: &[usize], weight: i128)
    requires table { IsSquare rows.old }
    requires matching { IsPerfectMatching rows.old columns.now }
    requires weight { pos 0 ≤ℤ weight }
    requires enough { (i : ℕ) → i < length rows.old → weight ≤ℤ cell rows.old i (slice_index columns.now i) }
    ensures { IsLess rows.old (record { columns = columns.now; weight = weight }) rows.new }
{
    for i in 0..rows.len() {
        lower(&mut rows[i], columns[i], weight);
    }
}

/// Takes a perfect matching off the table, as often as can be, and tells how often.
///
/// It begins with a matching of some columns, and ends with the one that was taken, which is its own mirror.
fn take_matching(
    alloc: Global,
    rows: &mut [Items<i128>],
    count: usize,
    width: usize,
    matched: &mut [usize],
) -> Result<i128, AllocError>
    requires table { HasPositiveLineSum rows.old }
    requires mirrored { IsMirrored count width rows.old }
    requires fits { count + width < 2 ^ 64 }
    requires matched { AreMatched rows.old matched.old 0 }
    ensures step { IfOk result (λ weight. IsMatchingStep rows.old (record { columns = matched.new; weight = weight }) rows.new) }
    ensures turned { IfOk result (λ weight. IsTurned count width matched.new) }
{
    complete(alloc, rows, matched)?;
    mirror(matched, count, width);
    let weight = least_on(rows, matched);
    take_off(rows, matched, weight);
    Ok(weight)
}

/// Frees the rows in which the table is no longer positive at their columns.
fn free_zeros(rows: &[Items<i128>], matched: &mut [usize])
    requires table { IsSquare rows.now }
    requires perfect { IsOnce (length rows.now) matched.old }
    ensures { AreMatched rows.now matched.new 0 }
{
    for row in 0..rows.len() {
        if !is_positive(rows, row, matched[row]) {
            matched[row] = rows.len();
        }
    }
}

/// The first columns of a matching.
fn front_of(alloc: Global, columns: &[usize], count: usize) -> Result<Items<usize>, AllocError>
    requires { count ≤ length columns.now }
    ensures { IfOk result (λ front. IsFront count columns.now front) }
{
    let mut front = Items::new(alloc);
    for i in 0..count {
        front.push(columns[i])?;
    }
    Ok(front)
}

/// Takes a matching off the table, as often as can be, and gives it as a part of the counts.
fn take_part(
    alloc: Global,
    rows: &mut [Items<i128>],
    count: usize,
    width: usize,
    matched: &mut [usize],
) -> Result<Part, AllocError>
    requires table { HasPositiveLineSum rows.old }
    requires mirrored { IsMirrored count width rows.old }
    requires fits { count + width < 2 ^ 64 }
    requires matched { AreMatched rows.old matched.old 0 }
    ensures taken { IfOk result (λ part. IsTaken count width rows.old part rows.new) }
    ensures matched { IfOk result (λ part. AreMatched rows.new matched.new 0) }
{
    let weight = take_matching(alloc, rows, count, width, matched)?;
    let columns = front_of(alloc, matched, count)?;
    free_zeros(rows, matched);
    Ok(Part { columns, weight })
}

/// Takes matchings off the table until nothing is left.
fn take_all(
    alloc: Global,
    counts: &[Items<i128>],
    width: usize,
    most: i128,
    rows: &mut [Items<i128>],
    matched: &mut [usize],
) -> Result<Vec<Part>, AllocError>
    requires counts { AreWithin counts.now width most }
    requires some { 1 ≤ length counts.now + width }
    requires fits { length counts.now + width < 2 ^ 64 }
    requires padded { IsPadded counts.now width most rows.old }
    requires matched { AreMatched rows.old matched.old 0 }
    ensures { IfOk result (λ parts. IsDecomposition counts.now width most parts.items) }
{
    let mut parts = Vec::new(alloc);
    let mut left = most;
    while left > 0 {
        let part = take_part(alloc, rows, counts.len(), width, matched)?;
        left -= part.weight;
        parts.push(part)?;
    }
    Ok(parts)
}

/// Counts as a sum of matchings with weights.
///
/// `width` is the number of columns. Each row and each column has a sum of at most `most`, which is the sum of the
/// weights: so a row or a column is matched in as many of `most` times as its sum says. There are no more matchings than
/// positive counts, rows and columns together. That a table of equal sums has a perfect matching is the theorem of
/// Birkhoff and von Neumann; the matching of the step before is repaired by augmenting paths (Kuhn 1955).
///
/// # Errors
///
/// Want of memory, and nothing else.
pub fn decompose(
    alloc: Global,
    counts: &[Items<i128>],
    width: usize,
    most: i128,
) -> Result<Vec<Part>, AllocError>
    requires counts { AreWithin counts.now width most }
    requires some { 1 ≤ length counts.now + width }
    requires fits { length counts.now + width < 2 ^ 64 }
    ensures { IfOk result (λ parts. IsDecomposition counts.now width most parts.items) }
{
    let mut rows = padded(alloc, counts, width, most)?;
    let mut matched = vec![in alloc; rows.len(); rows.len()]?;
    take_all(
        alloc,
        counts,
        width,
        most,
        rows.as_mut_slice(),
        matched.as_mut_slice(),
    )
}
