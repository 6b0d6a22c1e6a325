//! How many nodes a search may work, and the upper bound of a tree.
#![tactic(auto)]

mod budget;
mod examples;
mod leaf;
mod leaves;
mod rest;

pub use budget::node_budget;
pub use examples::worked_uppers;
pub use leaves::upper;
