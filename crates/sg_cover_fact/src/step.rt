//! Single exact steps, whose results are known to fit 128 bits.

ghost use Rattle.std.specs.Prelude.{◌≡◌, ◌<◌, ◌+ℤ◌, ◌-ℤ◌, ◌*ℤ◌, length, pos, slice_index_or, slice_set};
ghost use Rattle.sg_num.specs.Exact.{Fits};

/// The product.
pub(crate) fn times(left: i128, right: i128) -> i128
    requires { Fits (left *ℤ right) }
    ensures { result ≡ left *ℤ right }
{
    left * right
}

/// The sum.
pub(crate) fn plus(left: i128, right: i128) -> i128
    requires { Fits (left +ℤ right) }
    ensures { result ≡ left +ℤ right }
{
    left + right
}

/// The difference.
pub(crate) fn minus(left: i128, right: i128) -> i128
    requires { Fits (left -ℤ right) }
    ensures { result ≡ left -ℤ right }
{
    left - right
}

/// Adds to the sum at a place.
pub(crate) fn add_at(sums: &mut [i128], place: u16, more: i128)
    requires inside { place < length sums.old }
    requires fits { Fits (slice_index_or sums.old place (pos 0) +ℤ more) }
    ensures { sums.new ≡ slice_set sums.old place (slice_index_or sums.old place (pos 0) +ℤ more) }
{
    let sum = plus(sums[place as usize], more);
    sums[place as usize] = sum;
}
