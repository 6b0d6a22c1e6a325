//! The solver: tickets for a game, their value, and what shows that no commitment can better them, or how far they are from that.
#![tactic(auto)]

mod answer;
mod ending;
mod laws;
mod searching;
mod solution;
mod solver;

pub use answer::Answer;
pub use laws::{right_report_is_one, right_tickets_are_few, value_sums_agree};
pub use solver::solve;
