//! Combinations of two rows.

ghost use Rattle.std.specs.Prelude.{◌≡◌, ◌<◌, ◌-ℤ◌, ◌*ℤ◌, [], ◌∷◌, length, None, IfOk, OnErr, OnOk};
ghost use Rattle.sg_num.specs.Exact.{exact_mul_sub};
ghost use Rattle.sg_num.specs.Operations.{first_wide, formed};
ghost use Rattle.sg_rows.specs.Rows.{combine_steps, combined_rows, place};

use sg_num::{Wide, mul_sub};

/// `row * p - q * other` at a place.
fn combined_at(row: &[i128], p: i128, q: i128, other: &[i128], j: usize) -> Result<i128, Wide>
    requires in_row { j < length row.now }
    requires in_other { j < length other.now }
    ensures steps { result ≡ exact_mul_sub (place row.now j) p q (place other.now j) }
    ensures value { IfOk result (λ v. v ≡ (place row.now j *ℤ p) -ℤ (q *ℤ place other.now j)) }
{
    mul_sub(row[j], p, q, other[j])
}

/// Whether each place of `row * p - q * other` fits: nothing, or the first operation that doesn't, by rising place the first product, the
/// second, their difference.
pub fn combination_fits(row: &[i128], p: i128, q: i128, other: &[i128]) -> Result<(), Wide>
    requires { length row.now ≡ length other.now }
    ensures { result ≡ formed (combine_steps p q row.now other.now) tt }
{
    for j in 0..row.len() {
        match combined_at(row, p, q, other, j) {
            Ok(_) => {}
            Err(wide) => return Err(wide),
        }
    }
    Ok(())
}

/// `x * p - q * y`, which fits.
fn combined(x: i128, p: i128, q: i128, y: i128) -> i128
    requires { first_wide (combine_steps p q (x ∷ []) (y ∷ [])) ≡ None }
    ensures { result ≡ (x *ℤ p) -ℤ (q *ℤ y) }
{
    x * p - q * y
}

/// The same at a place.
fn combined_fitting_at(row: &[i128], p: i128, q: i128, other: &[i128], j: usize) -> i128
    requires in_row { j < length row.now }
    requires in_other { j < length other.now }
    requires fits { first_wide (combine_steps p q (place row.now j ∷ []) (place other.now j ∷ [])) ≡ None }
    ensures { result ≡ (place row.now j *ℤ p) -ℤ (q *ℤ place other.now j) }
{
    combined(row[j], p, q, other[j])
}

/// Sets each place of a row to `row * p - q * other`, where each fits.
pub fn combine_fitting(row: &mut [i128], p: i128, q: i128, other: &[i128])
    requires long { length row.old ≡ length other.now }
    requires fits { first_wide (combine_steps p q row.old other.now) ≡ None }
    ensures { row.new ≡ combined_rows p q row.old other.now }
{
    for j in 0..row.len() {
        let value = combined_fitting_at(row, p, q, other, j);
        row[j] = value;
    }
}

/// Sets each place of a row to `row * p - q * other`; where a place doesn't fit, the row stays and the first operation that doesn't is told.
pub fn combine(row: &mut [i128], p: i128, q: i128, other: &[i128]) -> Result<(), Wide>
    requires { length row.old ≡ length other.now }
    ensures formed { result ≡ formed (combine_steps p q row.old other.now) tt }
    ensures combined { OnOk result (row.new ≡ combined_rows p q row.old other.now) }
    ensures kept { OnErr result (row.new ≡ row.old) }
{
    match combination_fits(row, p, q, other) {
        Ok(()) => {
            combine_fitting(row, p, q, other);
            Ok(())
        }
        Err(wide) => Err(wide),
    }
}
