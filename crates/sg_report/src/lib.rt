//! A report as a table for people.
//!
//! [`show_text`] takes a game, the tickets of a report and its upper bound, and gives lines such as these:
//!
//! ```text
//! value 2/3
//! upper 2/3
//! tickets 3
//! target gate 2
//! target hall 1
//! type thief attacks gate
//! ```
//!
//! What they say is `IsReportTable` in `specs/Tables.antt`: the value of the tickets in lowest terms, the upper bound as it was
//! handed in, the number of tickets, for each target the tickets that cover it (in matrix form for each row its
//! tickets), and for each type of attacker the first of its best actions that give the defender the most. All counts are
//! made in one pass over the tickets, and the answers are those of `sg_commit::answer`.
#![tactic(auto)]

mod laws;
mod show;
mod text;

pub use laws::{table_is_one, tables_are_worked};
pub use show::{ShowFault, show_text};
