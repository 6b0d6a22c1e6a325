//! The program of a node over all legal plays, listed.
//!
//! [`Listed`] is the family of a game of at most 4,096 legal plays: its program is `plays_program` of `sg_programs`, and
//! pricing tests the plays in order, one look a play. What a play covers is found once, in [`Listed::new`]; a pricing
//! pass forms products at the multipliers other than 0 alone.
#![tactic(auto)]

mod covering;
mod fixed;
mod listed;
mod paying;
mod places;
mod pricing;
mod tables;

pub use listed::Listed;
