//! Tests of the program's one call, `run` of `sg_cli`: whole runs over shelves and sinks in memory, with the status and the
//! two outputs of each.
//!
//! They go through public calls alone. They stand apart from the library, so that the library is proved once and this crate
//! proves the tests alone, over its statements.
#![tactic(auto)]

#[cfg(test)]
mod faults;
#[cfg(test)]
mod generated;
#[cfg(test)]
mod reports;
#[cfg(test)]
mod rosters;
#[cfg(test)]
mod scenes;
#[cfg(test)]
mod searches;
#[cfg(test)]
mod solving;
