//! The sum of the absolute weights.

ghost use Rattle.std.specs.Prelude.{◌≡◌, ◌<◌, length, pos, slice_index_or};
ghost use Rattle.sg_walk.specs.Sums.{absolute, absolute_sum, plus_absolute};

use sg_num::{Wide, less, sum};

/// An absolute weight.
fn absolute(w: i128) -> Result<i128, Wide>
    ensures { result ≡ absolute w }
{
    if w < 0 { less(0, w) } else { Ok(w) }
}

/// The sum with the absolute weight at a place.
fn plus_absolute(acc: i128, weights: &[i128], k: usize) -> Result<i128, Wide>
    requires { k < length weights.now }
    ensures { result ≡ plus_absolute acc (slice_index_or weights.now k (pos 0)) }
{
    match absolute(weights[k]) {
        Ok(a) => sum(acc, a),
        Err(wide) => Err(wide),
    }
}

/// The sum of the absolute weights, or the first operation that doesn't fit.
pub(crate) fn absolute_sum(weights: &[i128]) -> Result<i128, Wide>
    ensures { result ≡ absolute_sum weights.now }
{
    let mut acc = 0;
    for k in 0..weights.len() {
        match plus_absolute(acc, weights, k) {
            Ok(next) => acc = next,
            Err(wide) => return Err(wide),
        }
    }
    Ok(acc)
}
