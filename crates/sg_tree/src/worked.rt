//! What a worked node gave.

use crate::fact::Fact;
use crate::fix::Fix;
use sg_commit::Commitment;

/// A node that was worked out: its fact, and the best commitment of its region.
#[derive(Drop)]
pub struct Worked {
    /// The node.
    pub fix: Fix,
    /// What bounds its region.
    pub fact: Fact,
    /// A commitment of its region that reaches the bound, `None` exactly where the region is empty.
    pub point: Option<Commitment>,
}
