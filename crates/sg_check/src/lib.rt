//! The checker of reports, of every game.
//!
//! [`check`] says whether a report is accepted for a game, and with which bounds, or names the first of its tests that
//! fails, by line and reason. Its contract speaks of `IsAccepted` and `IsRefused` of `sg_bounds`, whoever wrote the report;
//! `specs/Verdicts.antt` says what each verdict means. The checker forms its own sums and decides each fact by its own
//! means: nothing of the solver is used. It takes no memory.
//!
//! ```text
//! match check(alloc, &game, &report)? {
//!     Verdict::YesOptimal(value) => ..
//!     Verdict::YesGap(value, upper) => ..
//!     Verdict::No { line, reason } => ..
//! }
//! ```
#![tactic(auto)]

mod bound;
mod caps;
mod checking;
mod ending;
mod fact;
mod fork;
mod height;
mod numbers;
mod quotient;
mod refusal;
mod root;
mod step;
mod sums;
mod tally;
mod tickets;
mod top;
mod tree;
mod value;
mod verdict;
mod water;

pub use checking::check;
pub use verdict::Verdict;
