//! The program of a node over the coverage table.
//!
//! [`Cover`] is the family of a game in security form: its program is `cover_program` of `sg_programs`, with a column for
//! the whole, one for each choice of each resource, and one for each target. Pricing tests the columns in order, one look a
//! column, and forms products at a column's entries other than 0 alone.
#![tactic(auto)]

mod amounts;
mod columns;
mod committing;
mod costs;
mod cover;
mod entry;
mod filling;
mod fixed;
mod pricing;
mod rows;
mod sparse;
mod table;

pub use cover::{Cover, numbered};
