//! Tests of `sg_lanes`, over public calls alone: searches on small games, event by event, over a desk whose calls are listed. What each event comes to
//! was worked out by hand.
#![tactic(auto)]

mod session;
mod watched;

pub use session::Session;
pub use watched::{Call, Watched};

#[cfg(test)]
mod caps;
#[cfg(test)]
mod ends;
#[cfg(test)]
mod event_lists;
#[cfg(test)]
mod games;
#[cfg(test)]
mod lanes_at_once;
#[cfg(test)]
mod plain;
#[cfg(test)]
mod steps;
#[cfg(test)]
mod table;
