//! The lists and the multipliers of a state combined in place.

ghost use Rattle.std.specs.Prelude.{◌≡◌, ◌≢◌, ℕ, ◌<◌, ◌≤◌, [], ◌∷◌, ◌++◌, ◌-ℤ◌, ◌*ℤ◌, length, pos, take, None, slice_index_or, slice_set, All};
ghost use Rattle.sg_num.specs.Operations.{first_wide};
ghost use Rattle.sg_rows.specs.Rows.{IsLowest, combine_steps, combined_rows, place};
ghost use Rattle.sg_lp.specs.Exchanging.{ListsExchanged, OthersCombined, OthersFit, denominated, front_of};

use sg_pool::Row;
use sg_rows::{combine_fitting, primitive, primitive_with};
use std::mem::swap;

/// `row * p - q * other`, which fits, without its common factor.
fn combine_lowest(row: &mut [i128], p: i128, q: i128, other: &[i128])
    requires long { length row.old ≡ length other.now }
    requires fits { first_wide (combine_steps p q row.old other.now) ≡ None }
    ensures { IsLowest (combined_rows p q row.old other.now) row.new }
{
    combine_fitting(row, p, q, other);
    let _divisor = primitive(row);
}

/// The same of the first places of a row.
fn combine_front(places: &mut [i128], height: usize, p: i128, q: i128, other: &[i128])
    requires wide { height ≤ length places.old }
    requires long { length other.now ≡ height }
    requires fits { first_wide (combine_steps p q (take height places.old) other.now) ≡ None }
    ensures { IsLowest (combined_rows p q (take height places.old) other.now) (take height places.new) }
{
    combine_lowest(&mut places[..height], p, q, other);
}

/// The same of a row and a pivot.
fn combine_row(row: &mut Row, height: usize, p: i128, q: i128, pivot: &Row)
    requires row_wide { height ≤ length row.old }
    requires pivot_wide { height ≤ length pivot.now }
    requires fits { first_wide (combine_steps p q (take height row.old) (take height pivot.now)) ≡ None }
    ensures wide { length row.new ≡ length row.old }
    ensures lowest { IsLowest (combined_rows p q (take height row.old) (take height pivot.now)) (take height row.new) }
{
    let other = &pivot.places()[..height];
    combine_front(row.places_mut(), height, p, q, other);
}

/// The same for row `k`, by the products of the leaving row and of its own.
fn combine_listed(
    row: &mut Row,
    height: usize,
    products: &[i128],
    leaving: usize,
    k: usize,
    pivot: &Row,
)
    requires row_wide { height ≤ length row.old }
    requires pivot_wide { height ≤ length pivot.now }
    requires leaving_listed { leaving < length products.now }
    requires listed { k < length products.now }
    requires fits { first_wide (combine_steps (place products.now leaving) (place products.now k) (take height row.old) (take height pivot.now)) ≡ None }
    ensures wide { length row.new ≡ length row.old }
    ensures lowest { IsLowest (combined_rows (place products.now leaving) (place products.now k) (take height row.old) (take height pivot.now)) (take height row.new) }
{
    combine_row(row, height, products[leaving], products[k], pivot);
}

/// Each row but the leaving one combined with the pivot.
fn combine_others(rows: &mut [Row], height: usize, products: &[i128], leaving: usize, pivot: &Row)
    requires wide { All (λ row. height ≤ length row) rows.old }
    requires pivot_wide { height ≤ length pivot.now }
    requires within { leaving < length rows.old }
    requires long { length products.now ≡ length rows.old }
    requires fits { OthersFit height rows.old products.now leaving pivot.now }
    ensures { OthersCombined height rows.old rows.new products.now leaving pivot.now }
{
    for k in 0..rows.len() {
        if k != leaving {
            let row = &mut rows[k];
            combine_listed(row, height, products, leaving, k, pivot);
        }
    }
}

/// Changes a row of a list for another.
fn swap_at(rows: &mut [Row], k: usize, spare: &mut Row)
    requires { k < length rows.old }
    ensures listed { rows.new ≡ slice_set rows.old k spare.old }
    ensures spare { spare.new ≡ slice_index_or rows.old k [] }
{
    let row = &mut rows[k];
    swap(row, spare);
}

/// `rho * p`, which fits, with 0 taken off.
fn scaled(rho: i128, p: i128, gap: i128) -> i128
    requires { first_wide (combine_steps p gap (rho ∷ []) (pos 0 ∷ [])) ≡ None }
    ensures { result ≡ (rho *ℤ p) -ℤ (gap *ℤ pos 0) }
{
    rho * p
}

/// Multipliers with their denominator combined with a list and 0, which fit, without their common factor; the new denominator.
fn combine_with(y: &mut [i128], rho: i128, p: i128, gap: i128, other: &[i128]) -> i128
    requires long { length y.old ≡ length other.now }
    requires fits { first_wide (combine_steps p gap (y.old ++ rho ∷ []) (other.now ++ pos 0 ∷ [])) ≡ None }
    ensures { IsLowest (combined_rows p gap (y.old ++ rho ∷ []) (other.now ++ pos 0 ∷ [])) (y.new ++ result ∷ []) }
{
    combine_fitting(y, p, gap, other);
    let last = scaled(rho, p, gap);
    primitive_with(y, last)
}

/// The same of the first places of a row.
fn combine_front_with(
    places: &mut [i128],
    height: usize,
    rho: i128,
    p: i128,
    gap: i128,
    other: &[i128],
) -> i128
    requires wide { height ≤ length places.old }
    requires long { length other.now ≡ height }
    requires fits { first_wide (combine_steps p gap (denominated height places.old rho) (other.now ++ pos 0 ∷ [])) ≡ None }
    ensures { IsLowest (combined_rows p gap (denominated height places.old rho) (other.now ++ pos 0 ∷ [])) (denominated height places.new result) }
{
    combine_with(&mut places[..height], rho, p, gap, other)
}

/// The same of a row and a pivot.
fn combine_multipliers(
    y: &mut Row,
    height: usize,
    rho: i128,
    p: i128,
    gap: i128,
    pivot: &Row,
) -> i128
    requires wide { height ≤ length y.old }
    requires pivot_wide { height ≤ length pivot.now }
    requires fits { first_wide (combine_steps p gap (denominated height y.old rho) (denominated height pivot.now (pos 0))) ≡ None }
    ensures wide { length y.new ≡ length y.old }
    ensures lowest { IsLowest (combined_rows p gap (denominated height y.old rho) (denominated height pivot.now (pos 0))) (denominated height y.new result) }
{
    let other = &pivot.places()[..height];
    combine_front_with(y.places_mut(), height, rho, p, gap, other)
}

/// The rows and the multipliers exchanged at the leaving row, by the products of the rows and the gap, where all that is formed fits; the new
/// denominator.
pub(crate) fn exchange_lists(
    rows: &mut [Row],
    y: &mut Row,
    height: usize,
    rho: i128,
    products: &[i128],
    leaving: usize,
    gap: i128,
) -> i128
    requires wide { All (λ row. height ≤ length row) rows.old }
    requires y_wide { height ≤ length y.old }
    requires within { leaving < length rows.old }
    requires long { length products.now ≡ length rows.old }
    requires rows_fit { OthersFit height rows.old products.now leaving (slice_index_or rows.old leaving []) }
    requires multipliers_fit { first_wide (combine_steps (place products.now leaving) gap (denominated height y.old rho) (denominated height (slice_index_or rows.old leaving []) (pos 0))) ≡ None }
    ensures { ListsExchanged height rows.old rows.new y.old y.new rho result products.now leaving gap }
{
    swap_at(rows, leaving, y);
    combine_others(rows, height, products, leaving, y);
    swap_at(rows, leaving, y);
    let pivot = &rows[leaving];
    combine_multipliers(y, height, rho, products[leaving], gap, pivot)
}
