//! The tests of commitments, of the splitting of counts and of fillings, over public calls alone.
//!
//! Expected values were worked out by hand, or by a script that shares nothing with the program. The tests stand apart
//! from the crates that they test (`sg_commit`, `sg_split`, `sg_origami`) so that each of those is proved
//! once: a crate with tests is proved a second time with them.
#![tactic(auto)]

#[cfg(test)]
mod answers;
#[cfg(test)]
mod cases;
#[cfg(test)]
mod fillings;
#[cfg(test)]
mod games;
#[cfg(test)]
mod making;
#[cfg(test)]
mod wraps;
