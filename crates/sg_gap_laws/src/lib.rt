//! What the report of a search says: laws that join the end of a search (`sg_search`) with the causes of a gap (`sg_programs`).
//!
//! The definitions stand in `specs/Ends.antt`: an end (`HasEnded`), the cause that is due there (`cause_due`) and the report of it (`IsEndReport`).
//! The functions below carry the laws: each has an empty body, and its contract is a statement of `specs/GapLaws.antt` or `specs/EnoughLaws.antt`.
#![tactic(auto)]

mod enough_laws;
mod examples;
mod gap_laws;

pub use enough_laws::{enough_leaves_wide, no_gap_of_looks, no_gap_of_nodes, no_gap_of_pivots};
pub use examples::worked_ends;
pub use gap_laws::{
    end_is_accepted, gap_is_caused, points_are_not_above, stuck_are_nodes, value_is_below,
    worked_are_results,
};
