//! Events, and what they come to.

use crate::session::Session;
use sg_search::{Event, Outcome, Ready};
use sg_tree::Fix;
use std::alloc::{AllocError, Global};

/// What an event comes to: a node that is taken is said by the first type that it fixes and the actions.
#[derive(Clone, Copy)]
pub enum Came {
    Idle,
    Took(u8, &'static [u16]),
    Moved,
    Ended,
    Closed,
}

/// Whether this is the node.
pub fn is_node(node: &Fix, first: u8, acts: &[u16]) -> bool {
    node.first == first && node.acts.as_slice() == acts
}

/// Whether an event came to this.
pub fn came_to(outcome: &Outcome, wanted: Came) -> bool {
    match (outcome, wanted) {
        (Outcome::Idle, Came::Idle) => true,
        (Outcome::Took(node), Came::Took(first, acts)) => is_node(node, first, acts),
        (Outcome::Moved, Came::Moved) => true,
        (Outcome::Ended, Came::Ended) => true,
        (Outcome::Closed, Came::Closed) => true,
        _ => false,
    }
}

/// Steps of a lane until its program ends, at most 50.
fn run_to_end(alloc: Global, session: &mut Session<'_>, lane: u8) -> Result<(), AllocError> {
    for _ in 0..50u8 {
        match session.event(alloc, Event::Turn(lane))? {
            Outcome::Moved => {}
            _ => return Ok(()),
        }
    }
    Ok(())
}

/// A lane takes a node by its number, works it and finishes it: the node, and none where it takes none or doesn't finish it.
pub fn work_off(
    alloc: Global,
    session: &mut Session<'_>,
    lane: u8,
    n: u32,
) -> Result<Option<Fix>, AllocError> {
    match session.event(alloc, Event::Begin(lane, n))? {
        Outcome::Took(node) => {
            run_to_end(alloc, session, lane)?;
            match session.event(alloc, Event::Finish(lane))? {
                Outcome::Closed => Ok(Some(node)),
                _ => Ok(None),
            }
        }
        _ => Ok(None),
    }
}

/// Whether a lane works off this node, which has this number.
pub fn works_off(
    alloc: Global,
    session: &mut Session<'_>,
    n: u32,
    first: u8,
    acts: &[u16],
) -> Result<bool, AllocError> {
    match work_off(alloc, session, 1, n)? {
        Some(node) => Ok(is_node(&node, first, acts)),
        None => Ok(false),
    }
}

/// Whether the first lane is told that it may choose among so many.
pub fn may_choose(session: &Session<'_>, count: u32) -> bool {
    session.enabled(1) == Ready::Begin(count)
}
