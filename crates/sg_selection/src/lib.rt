//! Which event of a search comes next, by the order that was chosen.
//!
//! ```
//! let mut selection = Selection::new(&order);
//! while let Some(e) = selection.event(&ready, &lanes) {
//!     // The machine makes `e`, and tells anew what each lane may do.
//! }
//! ```
//!
//! The lanes take turns, or a seed draws one. A lane that begins a node takes the first choice, the first of those with
//! the greatest bound, or one that the seed draws. `specs/Selections.antt` says which event that is (`Selects`),
//! `specs/SelectedRuns.antt` what a search is whose events are all named so, and `specs/Handing.antt` what
//! [`Selection::event`] is handed.
#![tactic(auto)]

mod laws;
mod ranked;
mod ranking;
mod readiness;
mod selection;

pub use laws::{order_names_one, selected_are_runs, words_are_in_turn};
pub use ranked::Ranked;
pub use selection::Selection;
