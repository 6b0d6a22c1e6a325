//! The values of a move, formed in their order and written nowhere but in the room for products.

ghost use Rattle.std.specs.Prelude.{◌≡◌, ◌<◌, ◌-◌, [], ◌∷◌, ◌++◌, length, map, pos, ◌-ℤ◌, ◌*ℤ◌, All, flat_map, IfErr, IfOk, MatchResult, None, Some};
ghost use Rattle.std.specs.List.{range_with_len};
ghost use Rattle.sg_linear.specs.Sums.{unit};
ghost use Rattle.sg_num.specs.Exact.{and_then, exact_less, exact_times};
ghost use Rattle.sg_num.specs.Operations.{first_wide, formed, minus, times};
ghost use Rattle.sg_rows.specs.Rows.{combine_steps, dot_from, dot_steps, place};
ghost use Rattle.sg_lp.specs.Programs.{IsMember, member_cost, member_entry};
ghost use Rattle.sg_lp.specs.Moves.{entries_of, multiplier_steps, row_steps, row_steps_at};
ghost use Rattle.sg_lp.specs.States.{row_at};

use sg_lp::{Enter, Family, State};
use sg_num::{Wide, less, mul_sub, times};
use sg_rows::{combination_fits, dot};

/// 1 where the places are the same, else 0.
fn one_at(i: usize, j: usize) -> i64
    ensures { result ≡ unit i j }
{
    if i == j { 1 } else { 0 }
}

/// The entry of a member in a row.
fn entry_of<F: Family>(family: &F, member: &Enter, j: usize) -> i64
    requires known { IsMember (F.program family.now) member.now }
    requires below { j < (F.program family.now).height }
    ensures { result ≡ member_entry (F.program family.now) member.now j }
{
    match member {
        Enter::Slack(i) => one_at(*i as usize, j),
        Enter::Col(column) => family.entry(column, j),
    }
}

/// What a member costs.
pub(crate) fn cost_of<F: Family>(family: &F, member: &Enter) -> i64
    requires { IsMember (F.program family.now) member.now }
    ensures { result ≡ member_cost (F.program family.now) member.now }
{
    match member {
        Enter::Slack(_) => 0,
        Enter::Col(column) => family.cost(column),
    }
}

/// Writes the entries of a member, by row.
pub(crate) fn write_entries<F: Family>(family: &F, member: &Enter, entries: &mut [i64])
    requires known { IsMember (F.program family.now) member.now }
    requires long { length entries.old ≡ (F.program family.now).height }
    ensures { entries.new ≡ entries_of (F.program family.now) member.now }
{
    for j in 0..entries.len() {
        entries[j] = entry_of(family, member, j);
    }
}

/// The product of the list of a row with some entries.
fn product_at(state: &State, entries: &[i64], k: usize) -> Result<i128, Wide>
    requires inside { k < length state.now.tableau.rows }
    requires square { All (λ row. length row ≡ length entries.now) state.now.tableau.rows }
    ensures { result ≡ formed (dot_steps (pos 0) (row_at state.now.tableau k) entries.now) (dot_from (pos 0) (row_at state.now.tableau k) entries.now) }
{
    dot(state.row(k), entries)
}

/// Writes the products of the lists with some entries, by rising row; or tells the first operation that doesn't fit.
pub(crate) fn write_products(
    state: &State,
    entries: &[i64],
    products: &mut [i128],
) -> Result<(), Wide>
    requires square { All (λ row. length row ≡ length entries.now) state.now.tableau.rows }
    requires long { length products.old ≡ length state.now.tableau.rows }
    ensures formed { result ≡ formed (flat_map (λ row. dot_steps (pos 0) row entries.now) state.now.tableau.rows) tt }
    ensures written { IfOk result (λ _. products.new ≡ map (λ row. dot_from (pos 0) row entries.now) state.now.tableau.rows) }
{
    for k in 0..products.len() {
        match product_at(state, entries, k) {
            Ok(value) => products[k] = value,
            Err(wide) => return Err(wide),
        }
    }
    Ok(())
}

/// Whether the combination of row `k` with the leaving row fits.
fn row_fits(state: &State, products: &[i128], leaving: usize, k: usize) -> Result<(), Wide>
    requires leaving_inside { leaving < length state.now.tableau.rows }
    requires inside { k < length state.now.tableau.rows }
    requires square { All (λ row. length row ≡ length state.now.tableau.rows) state.now.tableau.rows }
    requires long { length products.now ≡ length state.now.tableau.rows }
    ensures { result ≡ formed (row_steps_at state.now.tableau.rows products.now leaving k) tt }
{
    if k == leaving {
        return Ok(());
    }
    combination_fits(
        state.row(k),
        products[leaving],
        products[k],
        state.row(leaving),
    )
}

/// Whether the combination of each row but the leaving one fits, by rising row.
pub(crate) fn rows_fit(state: &State, products: &[i128], leaving: usize) -> Result<(), Wide>
    requires leaving_inside { leaving < length state.now.tableau.rows }
    requires square { All (λ row. length row ≡ length state.now.tableau.rows) state.now.tableau.rows }
    requires long { length products.now ≡ length state.now.tableau.rows }
    ensures { result ≡ formed (row_steps state.now.tableau.rows products.now leaving) tt }
{
    for k in 0..products.len() {
        match row_fits(state, products, leaving, k) {
            Ok(()) => {}
            Err(wide) => return Err(wide),
        }
    }
    Ok(())
}

/// `sum - rho * cost`.
fn short(sum: i128, rho: i128, cost: i64) -> Result<i128, Wide>
    ensures { result ≡ and_then (exact_times rho cost) (λ part. exact_less sum part) }
{
    let part = times(rho, i128::from(cost))?;
    less(sum, part)
}

/// How much the multipliers fall short of a cost, at most 0 where they do.
pub(crate) fn gap(y: &[i128], rho: i128, entries: &[i64], cost: i64) -> Result<i128, Wide>
    requires { length y.now ≡ length entries.now }
    ensures { result ≡ formed (dot_steps (pos 0) y.now entries.now ++ (times rho cost ∷ minus (dot_from (pos 0) y.now entries.now) (rho *ℤ cost) ∷ [])) (dot_from (pos 0) y.now entries.now -ℤ (rho *ℤ cost)) }
{
    match dot(y, entries) {
        Ok(sum) => short(sum, rho, cost),
        Err(wide) => Err(wide),
    }
}

/// Whether `rho * p - gap * 0` fits.
fn denominator_fits(rho: i128, p: i128, gap: i128) -> Result<(), Wide>
    ensures { result ≡ formed (combine_steps p gap (rho ∷ []) (pos 0 ∷ [])) tt }
{
    match mul_sub(rho, p, gap, 0) {
        Ok(_) => Ok(()),
        Err(wide) => Err(wide),
    }
}

/// Whether the combination of the multipliers and their denominator with a list and 0 fits.
fn combination_fits_with(
    y: &[i128],
    rho: i128,
    p: i128,
    gap: i128,
    pivot: &[i128],
) -> Result<(), Wide>
    requires { length y.now ≡ length pivot.now }
    ensures { result ≡ formed (combine_steps p gap (y.now ++ (rho ∷ [])) (pivot.now ++ (pos 0 ∷ []))) tt }
{
    match combination_fits(y, p, gap, pivot) {
        Ok(()) => denominator_fits(rho, p, gap),
        Err(wide) => Err(wide),
    }
}

/// Whether the new multipliers and their denominator fit.
pub(crate) fn multipliers_fit(
    state: &State,
    products: &[i128],
    gap: i128,
    leaving: usize,
) -> Result<(), Wide>
    requires leaving_inside { leaving < length state.now.tableau.rows }
    requires square { All (λ row. length row ≡ length state.now.tableau.rows) state.now.tableau.rows }
    requires y_long { length state.now.tableau.y ≡ length state.now.tableau.rows }
    requires long { length products.now ≡ length state.now.tableau.rows }
    ensures { result ≡ formed (multiplier_steps state.now.tableau products.now gap leaving) tt }
{
    combination_fits_with(
        state.multipliers(),
        state.rho(),
        products[leaving],
        gap,
        state.row(leaving),
    )
}
