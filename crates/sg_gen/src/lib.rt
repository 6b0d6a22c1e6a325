//! Generated games: for each shape and each seed one game.
//!
//! [`Shape::read`] reads a shape from its text, and [`make_game`] makes the game of a shape and a seed:
//!
//! ```text
//! let shape = Shape::read("blocks-2-3-10")?;
//! let game = make_game(alloc, shape, 7)?;
//! ```
//!
//! Which game that is stands in `specs/Generated.antt`: the numbers of the shape give its names and lists, and each payoff
//! is made of words at stated places of the key stream of ChaCha with 20 rounds (`specs/Draws.antt`). That each generated
//! game keeps every promise of a game file is a law.
#![tactic(auto)]

mod block;
mod draws;
mod laws;
mod made;
mod names;
mod reading;
mod row;
mod shape;

pub use laws::{made_games_are_accepted, texts_are_apart};
pub use made::make_game;
pub use shape::Shape;
