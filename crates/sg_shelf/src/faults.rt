//! The counts of the adapters.

ghost use Rattle.std.specs.Prelude.{◌≡◌, if◌then◌else◌};
ghost use Rattle.sg_shelf.specs.Faults.{raised};

/// The count as it was, or raised by one more step that it counts. It stays at its last value.
pub(crate) fn raised_unless(is_same: bool, count: u64) -> u64
    ensures { result ≡ (if is_same then count else raised count) }
{
    if is_same {
        count
    } else {
        count.saturating_add(1)
    }
}
