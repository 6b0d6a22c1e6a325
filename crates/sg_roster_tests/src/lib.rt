//! Tests of rosters: the places of tickets (`sg_tickets`), their order by a seed (`sg_seed`, `sg_roster`), and the rows of the days
//! (`sg_roster`).
//!
//! They go through public calls alone. They stand apart from the libraries, so that each library is proved once and this
//! crate proves the tests alone, over the libraries' statements.
#![tactic(auto)]

#[cfg(test)]
mod orders;
#[cfg(test)]
mod rows;
#[cfg(test)]
mod shares;
