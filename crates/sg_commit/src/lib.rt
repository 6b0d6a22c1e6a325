//! Commitments: lists of plays with weights, what they pay, and how each type of attacker answers them.
#![tactic(auto)]

mod commitment;
mod coverage;
mod joining;
mod laws;
mod legality;
mod parts;
mod response;
mod rising;
mod side;
mod sums;
mod tally;
mod values;

pub use commitment::Commitment;
pub use coverage::{cover_count, played_count};
pub use laws::{
    answers_are_first, kept_is_commitment, legal_parts_stay_legal, scaled_is_small,
    shares_fix_kept, small_is_formed, sums_are_formed, worked_sums,
};
pub use legality::are_legal;
pub use parts::PartFault;
pub use response::{answer, is_best, take};
pub use sg_model::Ticket;
pub use sums::{sum_a, sum_d};
pub use tally::count_covers;
pub use values::{value, worth};
