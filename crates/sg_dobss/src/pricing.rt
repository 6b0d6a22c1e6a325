//! Pricing by testing plays in turn, at the multipliers other than 0.

ghost use Rattle.std.specs.Prelude.{◌≡◌, ◌≤◌, ◌<◌, ◌∷◌, ◌+◌, [], ℕ, length, take, slice_index, slice_index_or, pos, All, IfOk, List, ℤ, ◌+ℤ◌, ◌*ℤ◌, int_lt};
ghost use Rattle.sg_num.specs.Exact.{exact_dot_step, exact_times};
ghost use Rattle.sg_lp.specs.Listing.{listing_answer};
ghost use Rattle.sg_lp.specs.Programs.{Program};
ghost use Rattle.sg_rows.specs.Rows.{place};
ghost use Rattle.sg_num.specs.Operations.{formed, times as times_step};
ghost use Rattle.sg_programs.specs.Sparse.{AreKept, steps_at, sum_at};
ghost use Rattle.sg_dobss.specs.Tables.{AreTablesOf, entry_in};
ghost use Rattle.sg_dobss.specs.Tests.{Prices, Tests, is_nonzero};

use sg_num::{Wide, dot_step, times};
use sqlite_items::Items;

/// What the test of a play says.
pub(crate) enum Tested {
    Enters,
    Stays,
    Fails(Wide),
}

/// What pricing says: the place of the first play that enters, or why there is none.
pub(crate) enum Priced {
    Found(usize),
    Clean,
    Spent,
    Wide(Wide),
}

/// The places of the multipliers other than 0, in order: the first `count` of the list.
#[derive(Drop)]
pub(crate) struct Live {
    places: [u16; 1536],
    count: usize,
}

/// Whether the multiplier at a place is not 0.
fn is_live(y: &[i128], j: usize) -> bool
    requires { j < length y.now }
    ensures { result ≡ is_nonzero (place y.now j) }
{
    y[j] != 0
}

/// The places of the multipliers other than 0.
fn live_of(y: &[i128]) -> Live
    requires { length y.now ≤ 1536 }
    ensures few { result.count ≤ length y.now }
    ensures within { All (λ j. j < length y.now) (take result.count result.places) }
    ensures kept { (ys : List ℤ) → length ys ≡ length y.now → AreKept 0 y.now ys (take result.count result.places) }
{
    let mut places = [0u16; 1536];
    let mut count = 0;
    for j in 0..y.len() {
        if is_live(y, j) {
            places[count] = j as u16;
            count += 1;
        }
    }
    Live { places, count }
}

/// The cost of the k-th play.
pub(crate) fn cost_in(costs: &[i64], k: usize) -> i64
    requires { k < length costs.now }
    ensures { result ≡ place costs.now k }
{
    costs[k]
}

/// The entry of the k-th play in a row, where the rows from 1 are listed: 1 in row 0.
pub(crate) fn entry_in(rows: &[Items<i64>], j: usize, k: usize) -> i64
    requires row { j < length rows.now + 1 }
    requires long { (i : ℕ) → i < length rows.now → k < length (slice_index_or rows.now i []) }
    ensures { result ≡ entry_in rows.now j k }
{
    if j == 0 {
        return 1;
    }
    let row = &rows[j - 1];
    row.as_slice()[k]
}

/// `acc` and the product of the multiplier and the entry in a row.
fn product_at(acc: i128, y: &[i128], rows: &[Items<i64>], j: usize, k: usize) -> Result<i128, Wide>
    requires multiplier { j < length y.now }
    requires row { j < length rows.now + 1 }
    requires long { (i : ℕ) → i < length rows.now → k < length (slice_index_or rows.now i []) }
    ensures steps { result ≡ exact_dot_step acc (place y.now j) (entry_in rows.now j k) }
    ensures value { IfOk result (λ v. v ≡ acc +ℤ (place y.now j *ℤ entry_in rows.now j k)) }
{
    dot_step(acc, y[j], i128::from(entry_in(rows, j, k)))
}

/// The i-th place of a multiplier other than 0.
fn live_place(live: &Live, i: usize) -> usize
    requires count { live.now.count ≤ 1536 }
    requires inside { i < live.now.count }
    ensures there { i < length (take live.now.count live.now.places) }
    ensures value { result ≡ slice_index (take live.now.count live.now.places) i }
{
    live.places[i] as usize
}

/// What a play is worth, over the denominator of the multipliers.
fn worth_at(rho: i128, costs: &[i64], k: usize) -> Result<i128, Wide>
    requires { k < length costs.now }
    ensures { result ≡ exact_times rho (place costs.now k) }
{
    times(rho, i128::from(costs[k]))
}

/// The sum of the products of the multipliers and the entries of the k-th play.
fn allowed_at(y: &[i128], rows: &[Items<i64>], live: &Live, k: usize) -> Result<i128, Wide>
    requires count { live.now.count ≤ 1536 }
    requires within { All (λ j. j < length y.now) (take live.now.count live.now.places) }
    requires rows { length rows.now + 1 ≡ length y.now }
    requires long { (i : ℕ) → i < length rows.now → k < length (slice_index_or rows.now i []) }
    ensures { result ≡ formed (steps_at (place y.now) (λ j. entry_in rows.now j k) (pos 0) (take live.now.count live.now.places)) (sum_at (place y.now) (λ j. entry_in rows.now j k) (pos 0) (take live.now.count live.now.places)) }
{
    let mut acc: i128 = 0;
    for i in 0..live.count {
        let j = live_place(live, i);
        match product_at(acc, y, rows, j, k) {
            Ok(next) => acc = next,
            Err(wide) => return Err(wide),
        }
    }
    Ok(acc)
}

/// Whether the k-th play enters.
fn test_at(
    costs: &[i64],
    rows: &[Items<i64>],
    y: &[i128],
    rho: i128,
    live: &Live,
    k: usize,
) -> Tested
    requires cost { k < length costs.now }
    requires count { live.now.count ≤ 1536 }
    requires within { All (λ j. j < length y.now) (take live.now.count live.now.places) }
    requires rows { length rows.now + 1 ≡ length y.now }
    requires long { (i : ℕ) → i < length rows.now → k < length (slice_index_or rows.now i []) }
    ensures { Tests (times_step rho (place costs.now k) ∷ steps_at (place y.now) (λ j. entry_in rows.now j k) (pos 0) (take live.now.count live.now.places)) (int_lt (sum_at (place y.now) (λ j. entry_in rows.now j k) (pos 0) (take live.now.count live.now.places)) (rho *ℤ place costs.now k)) result }
{
    let worth = match worth_at(rho, costs, k) {
        Ok(worth) => worth,
        Err(wide) => return Tested::Fails(wide),
    };
    match allowed_at(y, rows, live, k) {
        Ok(allowed) => {
            if allowed < worth {
                Tested::Enters
            } else {
                Tested::Stays
            }
        }
        Err(wide) => Tested::Fails(wide),
    }
}

/// The first play that enters: what testing the plays one after the other answers.
pub(crate) fn price_in(
    costs: &[i64],
    rows: &[Items<i64>],
    y: &[i128],
    rho: i128,
    budget: u64,
) -> Priced
    requires multipliers { length y.now ≤ 1536 }
    requires rows { length rows.now + 1 ≡ length y.now }
    requires long { (i : ℕ) → i < length rows.now → length (slice_index_or rows.now i []) ≡ length costs.now }
    ensures { (p : Program) → AreTablesOf p costs.now rows.now → Prices p.columns (listing_answer p y.now rho budget 0 p.columns) result }
{
    let live = live_of(y);
    for k in 0..costs.len() {
        if k as u64 >= budget {
            return Priced::Spent;
        }
        match test_at(costs, rows, y, rho, &live, k) {
            Tested::Enters => return Priced::Found(k),
            Tested::Stays => {}
            Tested::Fails(wide) => return Priced::Wide(wide),
        }
    }
    Priced::Clean
}
