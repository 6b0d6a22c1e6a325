//! What may be chosen about a search: its budgets, the order of its work, its lanes, and the family of its programs.
#![tactic(auto)]

mod budget;
mod order;

pub use budget::Budget;
pub use order::{Choice, Order, Walk};
