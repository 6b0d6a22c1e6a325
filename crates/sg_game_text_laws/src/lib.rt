//! The canonical text of a game reads back: it is a game file of just that game.
//!
//! `sg_format` says which bytes are a game file, and of which game, by what `toml` states for its reading; it also says what
//! the canonical text of a game is. The laws of this crate join the two, for every game that keeps the promises of a game
//! file. `GameTextFiles` of `specs/` states them.
//!
//! The functions have empty bodies: the contract of each is a statement of a module of `specs/`.
#![tactic(auto)]

ghost use Rattle.sg_game_text_laws.specs.GameTextFiles.{GameTextIsDocument, GameTextIsFile, GameTextTellsGame};

/// TOML reads the text of a game as the document that spells the game.
pub fn game_text_is_document()
    ensures { GameTextIsDocument }
{}

/// The text of a game is a file of that game.
pub fn game_text_is_file()
    ensures { GameTextIsFile }
{}

/// Games with the same text are the same.
pub fn game_text_tells_game()
    ensures { GameTextTellsGame }
{}
