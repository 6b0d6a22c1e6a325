//! Whole numbers of 128 bits, exact or refused.
//!
//! [`sum`], [`less`] and [`times`] are the single steps: the exact result where it fits an `i128`,
//! else a [`Wide`] that names the operation and its operands. [`dot_step`] and [`mul_sub`] are made
//! of these steps and tell the first one that does not fit. [`gcd`] and [`lcm`] are the greatest
//! common divisor and the least common multiple.
//!
//! ```
//! sum(2, 3)                  // Ok(5)
//! sum(1, i128::MAX)          // Err(Wide { op: Op::Sum, left: 1, right: i128::MAX })
//! lcm(4, 6)                  // Some(12)
//! ```
//!
//! No call takes memory, and none asks anything of its caller.
//!
//! The meaning of each call stands in `specs/`: `Exact` says when an operation fits, `Operations`
//! which of several in order is told, `Multiples` what a least common multiple is.
#![tactic(auto)]

mod divisor;
mod operation_laws;
mod step;

pub use divisor::{gcd, lcm};
pub use operation_laws::first_wide_is_first;
pub use step::{Op, Wide, dot_step, less, mul_sub, sum, times};
