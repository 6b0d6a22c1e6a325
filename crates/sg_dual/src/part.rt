//! Parts of a point.

use sg_lp::Column;
use sg_num::Wide;
use thiserror::Error;

/// A column of a point with its weight, over the total of all weights of the point.
#[derive(Clone, Copy, Debug, PartialEq, Eq)]
pub struct Part {
    /// The column.
    pub col: Column,
    /// Its weight, at least 1.
    pub weight: i128,
}

/// Why a point isn't told.
#[derive(Clone, Copy, Debug, PartialEq, Eq, Error)]
pub enum PointFault {
    /// The first operation under the point that doesn't fit.
    #[error("a value under the point does not fit 128 bits")]
    Wide(Wide),
    /// Memory ran out.
    #[error("want of memory")]
    Memory,
}
