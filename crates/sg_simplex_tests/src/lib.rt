//! Tests of `sg_rows`, `sg_pool`, `sg_lp` and `sg_simplex`, over public calls alone, and a family for them: a [`Table`] is a program by the costs and
//! entries of its columns.
#![tactic(auto)]

mod pricing;
mod table;

pub use table::Table;

#[cfg(test)]
mod ends;
#[cfg(test)]
mod numbers;
#[cfg(test)]
mod pools;
#[cfg(test)]
mod running;
#[cfg(test)]
mod turns;
