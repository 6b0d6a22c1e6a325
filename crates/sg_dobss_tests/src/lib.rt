//! Tests of `sg_dobss`, over public calls alone, and what they and timings share: nodes of games, and what a legal play costs and has in a row.
#![tactic(auto)]

mod asking;
mod nodes;

pub use asking::{answer_of, cost_of, entry_of};
pub use nodes::{listed_of, node_of};

#[cfg(test)]
mod games;
#[cfg(test)]
mod prices;
#[cfg(test)]
mod tables;
