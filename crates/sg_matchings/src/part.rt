// A matching with its weight.

use sqlite_items::Items;

/// A matching, and how often it is taken.
#[derive(Drop)]
pub struct Part {
    /// The column of each row, counted from 0; where a row is not matched, a number from the number of columns on.
    pub columns: Items<usize>,
    /// How often it is taken.
    pub weight: i128,
}
