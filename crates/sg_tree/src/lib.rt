//! What a report says: its tickets, the caps of types, the tree of facts with its bounds, and how it ends.
//!
//! The types are plain public data, so that a contract sees a report as what it holds. [`Claim`] alone keeps a rule:
//! its tickets stand in strictly rising order. Nothing here says that a fact or a report is true.
#![tactic(auto)]

mod claim;
mod fact;
mod fix;
mod report;
mod tree;
mod worked;

pub use claim::{Claim, precedes};
pub use fact::{Fact, Line, Mark};
pub use fix::Fix;
pub use report::{Cap, Cause, Ending, Report};
pub use tree::Tree;
pub use worked::Worked;
