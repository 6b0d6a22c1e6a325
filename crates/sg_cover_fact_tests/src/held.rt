//! Which facts hold: each row of the tables.
use crate::asks::{ALONE, Ask, OF_ALONE, OF_SQUARE, OF_TWO_TARGETS, SQUARE, TWO_TARGETS};
use crate::is_held;
use crate::pairs::{OF_TWO_TYPES, TWO_TYPES};
use sg_file::read_game;
use sg_game::Game;
use std::alloc::{AllocError, Global};

/// The first fact of a game, counted from 0, that is answered otherwise.
fn first_of_game(alloc: Global, game: &Game, asks: &[Ask]) -> Result<Option<usize>, AllocError> {
    for k in 0..asks.len() {
        let (acts, rho, mu, lines, holds) = asks[k];
        let held = is_held(alloc, game, acts, rho, mu, lines)?;
        if held != Some(holds) {
            return Ok(Some(k));
        }
    }
    Ok(None)
}

/// The first fact on the game of a file, counted from 0, that is answered otherwise; 0 where the file is none.
fn first_other(alloc: Global, text: &str, asks: &[Ask]) -> Option<usize> {
    match read_game(alloc, text.as_bytes()) {
        Err(_) => Some(0),
        Ok(game) => match first_of_game(alloc, &game, asks) {
            Err(_) => Some(0),
            Ok(other) => other,
        },
    }
}

#[test]
fn answers_on_two_targets(rt: HostRuntime) {
    assert_eq!(rt; first_other(rt.alloc(), TWO_TARGETS, &OF_TWO_TARGETS), None);
}

#[test]
fn answers_on_a_square(rt: HostRuntime) {
    assert_eq!(rt; first_other(rt.alloc(), SQUARE, &OF_SQUARE), None);
}

#[test]
fn answers_on_one_target(rt: HostRuntime) {
    assert_eq!(rt; first_other(rt.alloc(), ALONE, &OF_ALONE), None);
}

#[test]
fn answers_on_two_types(rt: HostRuntime) {
    assert_eq!(rt; first_other(rt.alloc(), TWO_TYPES, &OF_TWO_TYPES), None);
}
