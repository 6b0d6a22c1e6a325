//! The tickets of a commitment, one by one.
//!
//! A commitment says how many tickets each play has. [`expand`] lists them: the place of each ticket's play, as often
//! as its weight, in rising order, where there are at most a million. The list is `places_of` in
//! `specs/Expansion.antt`; what such a list is, in plain words, is the law [`places_are_listed`].
#![tactic(auto)]

mod expansion;
mod laws;

pub use expansion::{LongFault, expand};
pub use laws::{days_cover_as_tickets, places_are_listed};
