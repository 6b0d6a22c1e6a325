//! Tests of the reading of words (`sg_words`), over its public calls alone.
//!
//! They stand apart so that the gate proves the library once: a crate with tests is proved a second time with them.
#![tactic(auto)]

#[cfg(test)]
mod words;
