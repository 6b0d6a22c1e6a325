//! The search for an optimal commitment, branch and bound over the actions of the types, as a machine of events.
//!
//! The definitions stand in `specs/`: `Searches` (the state, and the places of nodes), `Bounding` (what is read off it:
//! incumbent, caps, tree, bounds), `Changes` (its changes), `Events` (what may be asked of a lane, and how it is
//! answered) and `Results` (what a node's work gives). The functions below carry laws about them: each has an empty body,
//! and its contract is a statement of a module of `specs/`.
#![tactic(auto)]

mod choice_laws;
mod count_laws;
mod end_laws;
mod event;
mod examples;
mod held;
mod place_laws;
mod ready_laws;
mod tree_laws;

pub use choice_laws::{choices_are_one, incumbent_is_best, open_where_prefix_waits};
pub use count_laws::{taken_at_most, worked_at_most};
pub use end_laws::{end_means, runs_are_sound};
pub use event::{Event, Outcome, Ready};
pub use examples::worked_searches;
pub use held::{Held, Stuck};
pub use place_laws::{
    budget_kept, known_in_one_place, split_when_caps_are_done, taken_from_last_split, worked_differ,
};
pub use ready_laws::{choices_are_there, enabled_means, end_is_still, lanes_are_told};
pub use tree_laws::{cap_is_least, caps_hold, proved_are_worked, report_is_accepted, tree_holds};
