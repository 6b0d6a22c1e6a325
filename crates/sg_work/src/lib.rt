//! The work on nodes that a search asks for, several at once, whatever does it.
//!
//! [`Work`] is a trait: a lane takes a node, its program makes steps until it ends, and what it came to is told. Its meaning is its game, what each
//! lane holds, and three tests that no call changes. A search is proved over any work, and a work without a search.
#![tactic(auto)]

mod work;

pub use work::{Ended, Step, Work};
