//! Whether a fact of the coverage table holds at a node: the checker's own test.
//!
//! [`holds`] says whether multipliers of the rows of a node's coverage table bound the worth of each of its columns:
//! `IsCoverFact` of `sg_bounds`, column by column. It adds the lines up once, by resource, by target and in the columns
//! that have entries in many rows, and then looks at each column's few entries; it forms no column whole and takes no
//! memory. The numbers under the fact's size sum must fit: then every sum fits that is formed here.
//!
//! ```text
//! if holds(&game, &fix, rho, mu, lines.as_slice()) {
//!     // no commitment of the node's region gets the defender more than the fact says
//! }
//! ```
#![tactic(auto)]

mod column;
mod cost;
mod entry;
mod fact;
mod gather;
mod row;
mod step;
mod table;

pub use fact::holds;
