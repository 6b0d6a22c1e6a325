//! Tests of `sg_desk`, over public calls alone: nodes of small games, started, stepped to their ends, finished and cleared. What each comes to was
//! worked out by hand, and for the largest by a script over fractions that shares nothing with the program.
#![tactic(auto)]

#[cfg(test)]
mod causes;
#[cfg(test)]
mod games;
#[cfg(test)]
mod nodes;
#[cfg(test)]
mod results;
