//! Games, which contracts see as the plain data of the definitions in `sg_model`.
#![tactic(auto)]

mod build;
mod cell;
mod convert;
mod counting;
mod counts;
mod draft;
mod entries;
mod fault;
mod fields;
mod game;
mod laws;
mod lists;
mod made;
mod names;
mod parts;
mod play;
mod spread;

pub use cell::Cell;
pub use counting::{is_single, least_play, plays_count, program_rows};
pub use fault::BuildFault;
pub use game::Game;
pub use laws::no_fault_is_a_game;
pub use parts::{ListParts, Parts, TypeParts};
pub use play::{covers, is_origami, legal, pay_a, pay_d, prior_total};
pub use sg_model::{GameFault, Kind, Level, Place, Play};
pub use spread::{greatest, shift};
