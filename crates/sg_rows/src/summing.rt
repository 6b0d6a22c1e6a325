//! Sums of products.

ghost use Rattle.std.specs.Prelude.{◌≡◌, ◌<◌, ◌+ℤ◌, ◌*ℤ◌, length, pos, IfOk};
ghost use Rattle.sg_num.specs.Exact.{exact_dot_step};
ghost use Rattle.sg_num.specs.Operations.{formed};
ghost use Rattle.sg_rows.specs.Rows.{dot_from, dot_steps, place};

use sg_num::{Wide, dot_step};

/// `acc` and the product of the two numbers at a place.
fn dot_at(acc: i128, row: &[i128], col: &[i64], j: usize) -> Result<i128, Wide>
    requires in_row { j < length row.now }
    requires in_col { j < length col.now }
    ensures steps { result ≡ exact_dot_step acc (place row.now j) (place col.now j) }
    ensures value { IfOk result (λ v. v ≡ acc +ℤ (place row.now j *ℤ place col.now j)) }
{
    dot_step(acc, row[j], i128::from(col[j]))
}

/// The sum of the products of two rows, by rising place: by place the product, then the sum so far with it.
pub fn dot(row: &[i128], col: &[i64]) -> Result<i128, Wide>
    requires { length row.now ≡ length col.now }
    ensures { result ≡ formed (dot_steps (pos 0) row.now col.now) (dot_from (pos 0) row.now col.now) }
{
    let mut acc: i128 = 0;
    for j in 0..row.len() {
        match dot_at(acc, row, col, j) {
            Ok(next) => acc = next,
            Err(wide) => return Err(wide),
        }
    }
    Ok(acc)
}
