//! The search as a machine of events, over any work on nodes.
#![tactic(auto)]

mod best;
mod bound;
mod branch;
mod cap;
mod choose;
mod end;
mod event;
mod growth;
mod lanes;
mod nodes;
mod ready;
mod record;
mod ripe;
mod start;
mod stick;
mod take;
mod tops;

pub use end::End;
pub use lanes::Lanes;
pub use ripe::Ripe;
