//! Single exact steps on numbers of 128 bits.

ghost use Rattle.std.specs.Prelude.{◌≡◌, ◌+ℤ◌, ◌*ℤ◌, MatchOption};
ghost use Rattle.sg_num.specs.Exact.{Fits};

/// The sum, and none where it doesn't fit.
pub(crate) fn added(left: i128, right: i128) -> Option<i128>
    ensures { MatchOption result (Fits (left +ℤ right) → ⊥) (λ v. Fits (left +ℤ right) × (v ≡ left +ℤ right)) }
{
    left.checked_add(right)
}

/// The product, and none where it doesn't fit.
pub(crate) fn multiplied(left: i128, right: i128) -> Option<i128>
    ensures { MatchOption result (Fits (left *ℤ right) → ⊥) (λ v. Fits (left *ℤ right) × (v ≡ left *ℤ right)) }
{
    left.checked_mul(right)
}
