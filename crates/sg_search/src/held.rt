//! Where nodes stand that are not worked: with a lane, or stuck.

use sg_tree::{Cause, Fix};

/// A node that a lane holds.
#[derive(Drop)]
pub struct Held {
    /// The node.
    pub node: Fix,
    /// Whether its program has ended.
    pub ended: bool,
}

/// A node that could not be worked.
#[derive(Drop)]
pub struct Stuck {
    /// The node.
    pub node: Fix,
    /// Why.
    pub cause: Cause,
}
