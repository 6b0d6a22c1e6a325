//! The test of a fact over plays, for the types that any node fixes, in any game; and of the size sum of any fact.
//!
//! [`holds`] says whether a fact over plays holds, by its definition in `sg_bounds` (`IsPlaysFact`); [`size_fits`] whether each number under
//! its size sum fits 128 bits. Both take the numbers that all facts of a game are measured by ([`Measures`]), which are found once.
//!
//! In matrix form the rows are gone through. In security form the legal plays are never listed: the sum of a play is that of
//! the idle play and a weight for each covered target, and a search over the resources leaves out each choice behind which no play can exceed `mu`.
//! Nothing takes memory.
//!
//! ```text
//! let measures = measures_of(&game);
//! if size_fits(&game, &measures, &fix, &fact) && holds(&game, &measures, &fix, rho, mu, marks) {
//!     ..
//! }
//! ```
#![tactic(auto)]

mod bounding;
mod fact;
mod fixed;
mod marks;
mod measures;
mod play;
mod plays;
mod rows;
mod search;
mod size;
mod spread;
mod stated;
mod step;
mod weights;

pub use fact::holds;
pub use measures::{Measures, measures_of};
pub use size::size_fits;
