//! Tables of cases.

use std::alloc::Global;
use std::test::Fail;

/// A case of a table: what is given, and what is wanted.
pub(crate) trait Wanted {
    /// Whether what is given gives what is wanted.
    fn is_met(&self, alloc: Global) -> Result<bool, Fail>;
}

/// Whether all cases are met.
pub(crate) fn are_met<C: Wanted>(alloc: Global, cases: &[C]) -> Result<bool, Fail> {
    for case in cases {
        if !case.is_met(alloc)? {
            return Ok(false);
        }
    }
    Ok(true)
}
