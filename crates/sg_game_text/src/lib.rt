//! The canonical text of a game, written.
//!
//! [`write_game`] gives exactly the text that `sg_format/specs/GameText.antt` defines (`game_text`): its keys in one order, each
//! list once, each schedule and each resource with its members by name. Equal games have equal texts. `write` has the top
//! lines, `listed` the schedules and the resources, `tables` the types of attacker, and `text` the pieces that they are made of.
#![tactic(auto)]

mod listed;
mod tables;
mod text;
mod write;

pub use write::write_game;
