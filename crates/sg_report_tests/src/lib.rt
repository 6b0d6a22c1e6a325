//! Tests of reports: what they hold (`sg_tree`), their text (`sg_cert_reader`, `sg_cert_writer`), what the checker says of them
//! (`sg_check`), and how they are shown to people (`sg_report`).
//!
//! They go through public calls alone. They stand apart from the libraries, so that each library is proved once and this
//! crate proves the tests alone, over the libraries' statements.
#![tactic(auto)]

#[cfg(test)]
mod claims;
#[cfg(test)]
mod covered;
#[cfg(test)]
mod edits;
#[cfg(test)]
mod judged;
#[cfg(test)]
mod levels;
#[cfg(test)]
mod several;
#[cfg(test)]
mod tables;
#[cfg(test)]
mod texts;
#[cfg(test)]
mod tickets;
#[cfg(test)]
mod values;
#[cfg(test)]
mod verdicts;
