//! Tests of `sg_cover_fact`, over public calls alone, and what they and timings share: nodes, and facts so small that their sums fit.
#![tactic(auto)]

mod asking;

pub use asking::{is_held, lines_of, node_of, small_holds};

#[cfg(test)]
mod asks;
#[cfg(test)]
mod held;
#[cfg(test)]
mod pairs;
