//! The linear programs of the nodes of a game, and what holds of them; no code.
//!
//! The definitions stand in `specs/`: `Plays` (the program over all legal plays), `Marks` (the fact that multipliers are), `Points` (the point of a state and what is formed under it), `Shown` (what is formed at the end of a run), `NodeTests` (when a run ends, what closes a node and what stops it), `CauseRows` (what each cause of a gap says),
//! `Enough` (how many nodes, looks and pivots are enough) and `Sparse` (products of rows with many zeros). The functions
//! below carry laws about them: each has an empty body, and its contract is a statement of `specs/Laws.antt`.
#![tactic(auto)]

mod cover_laws;
mod cover_point_laws;
mod examples;
mod fact_laws;
mod laws;
mod node_laws;
mod point_laws;

pub use cover_laws::{
    columns_are_table, cover_is_bounded, cover_is_sized, cover_looks_are_enough,
    final_is_cover_fact, lines_rise, region_is_allowed,
};
pub use cover_point_laws::{
    counts_are_choice_counts, matched_reaches_fact, no_cover_means_empty, point_has_counts,
    point_keeps_table,
};
pub use examples::{worked_cover, worked_programs, worked_refusals};
pub use fact_laws::{final_is_fact, marks_rise};
pub use laws::{
    columns_are_plays, looks_are_enough, program_is_bounded, program_is_sized,
    rows_are_comparisons, zeros_change_nothing,
};
pub use node_laws::{
    closed_is_result, listing_is_method, node_end_is_one, node_stop_is_one, pivots_are_few,
    stop_is_cause,
};
pub use point_laws::{
    formed_point_has_no_fault, kept_reaches, multiples_are_least, no_point_means_empty,
    point_reaches_fact, point_reaches_value, weights_are_shares,
};
