//! Fills a game of identical patrols: the least level of the attacker's best payoff, and the coverage that reaches it.
//!
//! [`water`] takes a game that declares a scale and gives its [`Filling`]:
//!
//! ```text
//! let filling = water(alloc, &game)?;
//! filling.level      // 4/3: no commitment leaves the attacker less
//! filling.reason     // Level::Resources: the patrols are spent on the targets that pay as much
//! filling.counts     // 2, 1: the first target is covered in 2 of 3 tickets, the second in 1
//! filling.total      // 3
//! ```
//!
//! What it promises is `IsFilling` in `specs/Fillings.antt`. The method is ORIGAMI (Kiekintveld, Jain, Tsai, Pita,
//! Ordóñez and Tambe, 2009), in exact numbers and without a sort: `rate` reads the targets, `level` lets the level rise
//! from below all payoffs to where the patrols suffice, `floor` stops it at what a covered target pays, and `count`
//! turns it into counts in lowest terms.
#![tactic(auto)]

mod count;
mod filling;
mod floor;
mod height;
mod level;
mod rate;

pub use filling::{Filling, water};
