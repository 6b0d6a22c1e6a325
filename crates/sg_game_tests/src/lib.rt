//! Tests of games and their files (`sg_game`, `sg_file`, `sg_game_text`), over their public calls alone.
//!
//! They stand apart so that the gate proves each of these libraries once: a crate with tests is proved a second time
//! with them.
#![tactic(auto)]

#[cfg(test)]
mod changed_lists;
#[cfg(test)]
mod changed_patrols;
#[cfg(test)]
mod changed_types;
#[cfg(test)]
mod changes;
#[cfg(test)]
mod faults;
#[cfg(test)]
mod files;
#[cfg(test)]
mod games;
#[cfg(test)]
mod large;
#[cfg(test)]
mod limits;
#[cfg(test)]
mod reasons;
#[cfg(test)]
mod samples;
#[cfg(test)]
mod shown;
