//! Making a game of parts that are known to be a game.

ghost use Rattle.std.specs.Prelude.{◌≡◌, IfOk};
ghost use Rattle.sg_model.specs.Limits.{IsGame};
ghost use Rattle.sg_game.specs.Seen.{game_of};

use crate::build::game_from;
use crate::draft::draft_from;
use crate::game::Game;
use crate::parts::Parts;
use std::alloc::{AllocError, Global};

impl Game {
    /// The game of parts that are known to keep every promise of a game file, with no test made again.
    ///
    /// # Errors
    ///
    /// An error only where memory ran out.
    pub fn made(alloc: Global, parts: Parts) -> Result<Game, AllocError>
        requires { IsGame (game_of parts) }
        ensures { IfOk result (λ game. game ≡ game_of parts) }
    {
        let draft = draft_from(alloc, parts)?;
        game_from(alloc, draft)
    }
}
