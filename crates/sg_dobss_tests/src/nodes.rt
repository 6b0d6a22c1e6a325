//! Nodes of games, and their listed families.

ghost use Rattle.std.specs.Prelude.{◌≡◌, ◌<◌, ◌≤◌, ◌+◌, length, slice_index, pos, IfOk, IfSome, IsTrue};
ghost use Rattle.sg_model.specs.Games.{action_count};
ghost use Rattle.sg_model.specs.PlayLists.{play_count};
ghost use Rattle.sg_bounds.specs.Regions.{IsFix};

use sg_dobss::Listed;
use sg_game::{Game, plays_count};
use sg_tree::Fix;
use sqlite_items::Items;
use std::alloc::{AllocError, Global};

/// Whether the i-th action, from 0, is one of its type.
fn is_action(game: &Game, first: u8, acts: &[u16], i: usize) -> bool
    requires from_one { 1 ≤ first }
    requires in_range { first + length acts.now ≤ length game.now.types + 1 }
    requires inside { i < length acts.now }
    ensures { IsTrue result → (1 ≤ slice_index acts.now i) × (slice_index acts.now i ≤ action_count game.now (first + i)) }
{
    let _types = game.types();
    if acts[i] == 0 {
        return false;
    }
    acts[i] <= game.actions(first + i as u8)
}

/// The node that fixes the types from `first` on to these actions; `None` where the game has none such.
pub fn node_of(
    alloc: Global,
    game: &Game,
    first: u8,
    acts: &[u16],
) -> Result<Option<Fix>, AllocError>
    ensures { IfOk result (λ fix. IfSome fix (λ f. IsFix game.now f)) }
{
    if acts.len() == 0 || acts.len() > 8 || first == 0 {
        return Ok(None);
    }
    if first as usize + acts.len() > game.types() as usize + 1 {
        return Ok(None);
    }
    for i in 0..acts.len() {
        if !is_action(game, first, acts, i) {
            return Ok(None);
        }
    }
    let acts = Items::from_slice(alloc, acts)?;
    Ok(Some(Fix { first, acts }))
}

/// The listed family of the node that fixes the types from `first` on to these actions; `None` where the game has no such node, a scale, or more
/// than 4,096 plays.
pub fn listed_of<'a>(
    alloc: Global,
    game: &'a Game,
    first: u8,
    acts: &[u16],
) -> Result<Option<Listed<'a>>, AllocError>
    ensures { IfOk result (λ listed. IfSome listed (λ l. (l.game ≡ game.now) × (game.now.scale ≡ pos 0))) }
{
    if game.scale() != 0 {
        return Ok(None);
    }
    let few = match plays_count(game) {
        Some(count) => count <= 4096,
        None => false,
    };
    if !few {
        return Ok(None);
    }
    match node_of(alloc, game, first, acts)? {
        Some(fix) => Ok(Some(Listed::new(alloc, game, &fix)?)),
        None => Ok(None),
    }
}
