//! Counts in rows and columns, taken apart into matchings, after Birkhoff and von Neumann.
//!
//! [`decompose`] takes a table of counts whose rows and columns have sums of at most a number, and gives matchings of rows
//! and columns with weights, which are this number in all:
//!
//! ```text
//! decompose(alloc, &[[1, 1], [0, 1]], 2, 2)    // once row 0 with column 1; once row 0 with column 0 and row 1 with column 1
//! ```
//!
//! What it promises is `IsDecomposition` in `specs/Decompositions.antt`, under `AreWithin` in `specs/Padding.antt`. The counts
//! stand in a square table whose rows and columns all have one sum (`padding`). On the positive cells of such a table there
//! is always a perfect matching, found by augmenting paths (`augmenting`, after Kuhn 1955). It is made its own mirror
//! (`mirror`) and taken off as often as can be (`decomposing`), and the next step repairs it.
#![tactic(auto)]

mod augmenting;
mod decomposing;
mod laws;
mod mirror;
mod padding;
mod part;

pub use decomposing::decompose;
pub use laws::{
    full_rows_and_columns_are_matched, padded_counts_have_a_line_sum, paths_are_found,
    tables_are_worked,
};
pub use part::Part;
