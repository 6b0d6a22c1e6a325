//! Events of a search, and how they are answered.

use sg_tree::Fix;

/// What one lane is asked to do. Lanes count from 1.
#[derive(Clone, Copy, Debug, PartialEq, Eq)]
pub enum Event {
    /// The lane takes a node: of those that may be chosen the one of this number, from 0.
    Begin(u8, u32),
    /// The program of the lane's node makes one step.
    Turn(u8),
    /// The result of the lane's node goes into the search.
    Finish(u8),
}

/// What a lane may be asked to do.
#[derive(Clone, Copy, Debug, PartialEq, Eq)]
pub enum Ready {
    /// Nothing.
    Nothing,
    /// To take one of so many nodes.
    Begin(u32),
    /// To make a step.
    Turn,
    /// To finish its node.
    Finish,
}

/// What became of an event.
#[derive(Drop)]
pub enum Outcome {
    /// It may not happen, and nothing changed.
    Idle,
    /// The lane took this node.
    Took(Fix),
    /// The node's program goes on.
    Moved,
    /// The node's program ended.
    Ended,
    /// The node's result is kept, and the lane is free.
    Closed,
}
