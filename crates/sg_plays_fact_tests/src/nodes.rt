//! Nodes of games, and what is said of a fact at one.

ghost use Rattle.std.specs.Prelude.{◌≡◌, ◌<◌, ◌≤◌, ◌+◌, length, slice_index, IfOk, IfSome, IsTrue};
ghost use Rattle.sg_model.specs.Games.{action_count};
ghost use Rattle.sg_bounds.specs.Regions.{IsFix};

use sg_fixed::FixedTypes;
use sg_game::Game;
use sg_plays_fact::{holds, measures_of, size_fits};
use sg_tree::{Fact, Mark};
use sqlite_items::Items;
use std::alloc::{AllocError, Global};

/// Whether the i-th action, from 0, is one of its type.
fn is_action(game: &Game, first: u8, acts: &[u16], i: usize) -> bool
    requires from_one { 1 ≤ first }
    requires in_range { first + length acts.now ≤ length game.now.types + 1 }
    requires inside { i < length acts.now }
    ensures { IsTrue result → (1 ≤ slice_index acts.now i) × (slice_index acts.now i ≤ action_count game.now (first + i)) }
{
    let _types = game.types();
    if acts[i] == 0 {
        return false;
    }
    acts[i] <= game.actions(first + i as u8)
}

/// The first types, or one type alone, fixed to these actions; `None` where they are others.
fn fixed(first: u8, acts: &[u16]) -> Option<FixedTypes>
    requires some { 1 ≤ length acts.now }
    requires few { length acts.now ≤ 8 }
    ensures { IfSome result (λ f. f ≡ record { first = first; acts = acts.now }) }
{
    if first == 1 {
        return Some(FixedTypes::prefix(acts));
    }
    if acts.len() == 1 {
        return Some(FixedTypes::alone(first, acts[0]));
    }
    None
}

/// The node that fixes the types from `first` on to these actions; `None` where the game has none such.
pub fn node_of(game: &Game, first: u8, acts: &[u16]) -> Option<FixedTypes>
    ensures { IfSome result (λ f. IsFix game.now f) }
{
    if acts.len() == 0 || acts.len() > 8 || first == 0 {
        return None;
    }
    if first as usize + acts.len() > game.types() as usize + 1 {
        return None;
    }
    for i in 0..acts.len() {
        if !is_action(game, first, acts, i) {
            return None;
        }
    }
    fixed(first, acts)
}

/// What is said of a fact over plays.
#[derive(Clone, Copy, Debug, PartialEq, Eq)]
pub enum Said {
    /// The game has no such node.
    NoNode,
    /// A number under the size sum doesn't fit.
    TooLarge,
    /// The fact doesn't hold.
    Fails,
    /// It holds.
    Holds,
}

/// What is said of a fact over plays at the node that fixes the types from `first` on to these actions.
pub fn said_of(
    alloc: Global,
    game: &Game,
    node: (u8, &[u16]),
    rho: i128,
    mu: i128,
    marks: &[Mark],
) -> Result<Said, AllocError> {
    let Some(fix) = node_of(game, node.0, node.1) else {
        return Ok(Said::NoNode);
    };
    let measures = measures_of(game);
    let fact = Fact::Plays {
        rho,
        mu,
        marks: Items::from_slice(alloc, marks)?,
    };
    if !size_fits(game, &measures, &fix, &fact) {
        return Ok(Said::TooLarge);
    }
    if holds(game, &measures, &fix, rho, mu, marks) {
        Ok(Said::Holds)
    } else {
        Ok(Said::Fails)
    }
}
