//! What the product's words mean: games, commitments, best responses, optimal, upper bounds and water levels.
//!
//! The definitions stand in `specs/`, one module a subject, and every other crate cites them. The functions below
//! carry laws about the definitions: each has an empty body, and its contract is a statement of one of the modules
//! `GameLaws`, `LimitLaws`, `Orders`, `PlayLaws`, `PlayListLaws`, `PayoffLaws`, `OptimalityLaws` and `OrigamiLaws` of `specs/`. `worked_examples` carries
//! small games with their answers, `worked_edges` cases at the edges.
#![tactic(auto)]

mod examples;
mod fault;
mod game_laws;
mod kind;
mod level;
pub mod limit;
mod optimality_laws;
mod origami_laws;
mod payoff_laws;
mod play_laws;
mod play_list_laws;
pub mod reason;
mod ticket;

pub use examples::{worked_edges, worked_examples};
pub use fault::{GameFault, Place};
pub use game_laws::{
    game_is_peopled, game_is_small, limits_are_exact, payoffs_are_in_range, scale_means_origami,
};
pub use kind::Kind;
pub use level::Level;
pub use optimality_laws::{
    bound_is_above, optimal_is_bound, optimal_is_least_bound, optimal_value_is_one,
    order_and_joining_keep_mix, same_mix_keeps, scaling_keeps, value_is_mean,
};
pub use origami_laws::{
    level_is_best, level_is_least, level_is_minimax, level_is_reached, level_tickets_are_optimal,
    no_level_is_above, water_bounds,
};
pub use payoff_laws::{
    greatest_is_bound, payoffs_are_bounded, payoffs_are_listed, take_is_bounded,
    take_is_of_best_responses,
};
pub use play_laws::{
    covers_are_few, covers_where_held, held_pays_covered, patrols_cover_choices,
    same_cover_pays_same,
};
pub use play_list_laws::{
    legal_plays_are_all, legal_plays_are_counted, legal_plays_rise, plays_are_counted,
    test_is_order, worked_plays,
};
pub use ticket::{Play, Ticket};
