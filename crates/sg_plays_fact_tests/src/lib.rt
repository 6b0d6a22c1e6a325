//! Tests of `sg_plays_fact`, over public calls alone.
#![tactic(auto)]

mod nodes;

pub use nodes::{Said, node_of, said_of};

#[cfg(test)]
mod blocks;
#[cfg(test)]
mod random;
#[cfg(test)]
mod small;
