//! Rows of a pool, taken for a state and given back.

ghost use Rattle.std.specs.Prelude.{◌≡◌, ◌+◌, ◌-◌, ◌<◌, ◌≤◌, [], length, map, take, All, vec_capacity};
ghost use Rattle.std.specs.List.{range_with_len};
ghost use Rattle.sg_linear.specs.Sums.{unit};
ghost use Rattle.sg_lp.specs.States.{unit_row};
ghost use Rattle.sg_lp.specs.Pooled.{GivesBack, taken_from};

use sg_pool::{Pool, Row};

/// 1 where the places are the same, else 0.
fn one_at(i: usize, j: usize) -> i128
    ensures { result ≡ unit i j }
{
    if i == j { 1 } else { 0 }
}

/// Writes 1 at place `i` and 0 elsewhere.
fn write_unit(places: &mut [i128], i: usize)
    ensures { places.new ≡ unit_row (length places.old) i }
{
    for j in 0..places.len() {
        places[j] = one_at(i, j);
    }
}

/// The same in the first places of a row.
fn write_front(places: &mut [i128], height: usize, i: usize)
    requires { height ≤ length places.old }
    ensures { take height places.new ≡ unit_row height i }
{
    write_unit(&mut places[..height], i);
}

/// Takes a row and writes 1 at place `i` of its first places and 0 elsewhere in them.
pub(crate) fn take_unit_row(pool: &mut Pool, height: usize, i: usize) -> Row
    requires wide { height ≤ pool.old.width }
    requires spare { 1 ≤ length pool.old.free }
    ensures front { take height result ≡ unit_row height i }
    ensures wide { length result ≡ pool.old.width }
    ensures taken { pool.new ≡ taken_from pool.old 1 }
{
    match pool.take() {
        Some(mut row) => {
            write_front(row.places_mut(), height, i);
            row
        }
        None => unreachable!(),
    }
}

/// Takes so many rows, each with 1 at its own place.
pub(crate) fn take_unit_rows(rows: &mut Vec<Row>, height: usize, pool: &mut Pool)
    requires empty { rows.old.items ≡ [] }
    requires room { height ≤ vec_capacity rows.old }
    requires wide { height ≤ pool.old.width }
    requires spare { height ≤ length pool.old.free }
    ensures fronts { map (take height) rows.new.items ≡ map (unit_row height) (range_with_len 0 height) }
    ensures wide { All (λ row. length row ≡ pool.old.width) rows.new.items }
    ensures taken { pool.new ≡ taken_from pool.old height }
{
    for i in 0..height {
        let row = take_unit_row(pool, height, i);
        rows.push_reserved(row);
    }
}

/// Gives rows back.
pub(crate) fn give_rows(mut rows: Vec<Row>, pool: &mut Pool)
    requires wide { All (λ row. length row ≡ pool.old.width) rows.items }
    requires out { length pool.old.free + length rows.items ≤ pool.old.count }
    ensures { GivesBack pool.old pool.new (length rows.items) }
{
    while let Some(row) = rows.pop() {
        pool.give(row);
    }
}
