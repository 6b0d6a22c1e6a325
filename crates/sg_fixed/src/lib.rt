//! The types that a node fixes, with their actions, without memory.
//!
//! A [`FixedTypes`] holds at most 8 actions in place. Contracts see it as the [`Fix`](sg_tree::Fix) of the same types and
//! actions, so a test of a fact takes it where it would take that.
//!
//! ```text
//! let node = FixedTypes::prefix(&[2, 1]);
//! node.first() == 1 && node.acts() == &[2, 1]
//! ```
#![tactic(auto)]

mod fixed_types;

pub use fixed_types::FixedTypes;
