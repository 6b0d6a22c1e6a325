//! Tests of numbers and fractions (`sg_num`, `sg_frac`), over their public calls alone.
//!
//! They stand apart so that the gate proves each of these libraries once: a crate with tests is proved a second time
//! with them.
#![tactic(auto)]

#[cfg(test)]
mod frac;
#[cfg(test)]
mod num;
