//! Tests of `sg_dual`, over public calls alone: nodes of small games, run to their ends. Their multipliers and points were worked out by hand, and
//! those of the largest by a script over fractions that shares nothing with the program.
#![tactic(auto)]

#[cfg(test)]
mod ends;
#[cfg(test)]
mod games;
#[cfg(test)]
mod runs;
