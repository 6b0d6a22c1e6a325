//! What a report's certificate says and proves: facts about regions of commitments, caps, trees of bounds, accepted
//! reports, and the tests of a report in order.
//!
//! The definitions stand in `specs/`, one module a subject: `Regions`, `Coverage`, `Facts`, `Caps`, `Trees`, `Leaves`,
//! `Sizes` (the sums that a report states), `Accepted` (when a report is accepted) and `Checking` (its tests in order,
//! with line and reason). The functions below carry laws about them: each has an empty body, and its contract is a
//! statement of a module of `specs/`.
#![tactic(auto)]

mod check_laws;
mod examples;
mod fact_laws;
mod report_laws;
mod size_laws;

pub use check_laws::{each_is_answered, first_is_one, passing_is_acceptance, refusal_is_one};
pub use examples::{worked_orders, worked_reports, worked_sizes};
pub use fact_laws::{
    cap_bounds, columns_are_all, cover_is_plays, empty_region, fact_bounds, play_rows_are_counted,
    rows_in_order, worked_rows,
};
pub use report_laws::{
    accepted_means, leaf_is_met, level_report_is_accepted, small_totals_fit, tree_bounds,
};
pub use size_laws::{column_sums_are_small, play_sums_are_small, sums_are_results};
