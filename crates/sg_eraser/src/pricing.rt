//! Whether a column enters, by its entries that are not 0.

ghost use Rattle.std.specs.Prelude.{◌≡◌, ◌<◌, ◌∷◌, length, pos, All, IfOk, ◌+ℤ◌, ◌*ℤ◌, int_lt};
ghost use Rattle.sg_num.specs.Exact.{exact_dot_step, exact_times};
ghost use Rattle.sg_num.specs.Operations.{formed, times as times_step};
ghost use Rattle.sg_rows.specs.Rows.{place};
ghost use Rattle.sg_eraser.specs.Nonzero.{nonzero_steps, nonzero_sum};

use crate::sparse::RowEntry;
use sg_num::{Wide, dot_step, times};

/// `acc` and the product of an entry with the multiplier of its row.
fn product_with(acc: i128, y: &[i128], entry: RowEntry) -> Result<i128, Wide>
    requires { entry.row < length y.now }
    ensures steps { result ≡ exact_dot_step acc (place y.now entry.row) entry.value }
    ensures value { IfOk result (λ v. v ≡ acc +ℤ (place y.now entry.row *ℤ entry.value)) }
{
    dot_step(acc, y[entry.row as usize], i128::from(entry.value))
}

/// The sum of the products of the multipliers and the entries of a column.
fn allowed(y: &[i128], entries: &[RowEntry]) -> Result<i128, Wide>
    requires { All (λ x. x.row < length y.now) entries.now }
    ensures { result ≡ formed (nonzero_steps y.now (pos 0) entries.now) (nonzero_sum y.now (pos 0) entries.now) }
{
    let mut acc: i128 = 0;
    for entry in entries {
        match product_with(acc, y, *entry) {
            Ok(next) => acc = next,
            Err(wide) => return Err(wide),
        }
    }
    Ok(acc)
}

/// What a column is worth, over the denominator of the multipliers.
fn worth(rho: i128, cost: i64) -> Result<i128, Wide>
    ensures { result ≡ exact_times rho cost }
{
    times(rho, i128::from(cost))
}

/// Whether a column enters: whether its worth is more than the multipliers allow.
pub(crate) fn does_enter(
    cost: i64,
    entries: &[RowEntry],
    y: &[i128],
    rho: i128,
) -> Result<bool, Wide>
    requires { All (λ x. x.row < length y.now) entries.now }
    ensures { result ≡ formed (times_step rho cost ∷ nonzero_steps y.now (pos 0) entries.now) (int_lt (nonzero_sum y.now (pos 0) entries.now) (rho *ℤ cost)) }
{
    let worth = match worth(rho, cost) {
        Ok(worth) => worth,
        Err(wide) => return Err(wide),
    };
    match allowed(y, entries) {
        Ok(allowed) => Ok(allowed < worth),
        Err(wide) => Err(wide),
    }
}
