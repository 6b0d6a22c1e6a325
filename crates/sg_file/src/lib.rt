//! Reads game files.
//!
//! `read_game` answers exactly what the definition of a game file in `sg_format` gives: the game, or the first reason
//! for which the bytes are none, with its place. Each step of the definition is
//! a small function here.
#![tactic(auto)]

mod document;
mod fault;
mod game;
mod keys;
mod limits;
mod lists;
mod names;
mod types;
mod value;

pub use fault::GameError;
pub use game::read_game;
