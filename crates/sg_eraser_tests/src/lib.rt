//! Tests of `sg_eraser`, over public calls alone, and what they and timings share: what a column of a node costs and has in a row, and what pricing answers.
#![tactic(auto)]

mod asking;

pub use asking::{answer_of, cost_of, cover_of, entry_of};

#[cfg(test)]
mod games;
#[cfg(test)]
mod prices;
#[cfg(test)]
mod tables;
