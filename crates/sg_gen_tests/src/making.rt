//! Games of shapes, as their texts.
use sg_file::read_game;
use sg_game_text::write_game;
use sg_gen::{Shape, make_game};
use std::alloc::{AllocError, Global};

/// What came of a shape and a seed.
#[derive(Drop)]
pub(crate) enum Made {
    /// The text of the game.
    Text(Vec<u8>),
    /// The text spells no shape.
    NoShape,
    /// Memory ran out.
    Memory,
}

/// The text of the game of a shape.
fn text_of(alloc: Global, shape: &str, seed: u64) -> Result<Option<Vec<u8>>, AllocError> {
    match Shape::read(shape) {
        None => Ok(None),
        Some(shape) => {
            let game = make_game(alloc, shape, seed)?;
            Ok(Some(write_game(alloc, &game)?))
        }
    }
}

/// The text of the game of the shape that a text spells.
pub(crate) fn made_text(alloc: Global, shape: &str, seed: u64) -> Made {
    match text_of(alloc, shape, seed) {
        Ok(Some(text)) => Made::Text(text),
        Ok(None) => Made::NoShape,
        Err(_) => Made::Memory,
    }
}

/// Whether a text is a game file whose game is written as that text again.
pub(crate) fn reads_back(alloc: Global, text: &[u8]) -> bool {
    match read_game(alloc, text) {
        Err(_) => false,
        Ok(game) => match write_game(alloc, &game) {
            Err(_) => false,
            Ok(again) => again.as_slice() == text,
        },
    }
}
