//! Nodes of games, run in a lane of a desk.
ghost use Rattle.std.specs.Prelude.{◌≡◌, ◌⊎◌, ◌≤◌, length, pos, true, false, if◌then◌else◌, IsTrue};
ghost use Rattle.sg_model.specs.PlayLists.{play_count};
ghost use Rattle.sg_bounds.specs.Regions.{IsNode};
ghost use Rattle.sg_work.specs.Works.{IsLoaded};

use sg_desk::Desk;
use sg_dobss_tests::node_of;
use sg_game::{Game, plays_count};
use sg_tree::Fix;
use sg_work::{Ended, Step, Work};
use std::alloc::{AllocError, Global};

/// How many moves a node may make, and with how many looks each time that it prices.
#[derive(Clone, Copy)]
pub struct Budgets {
    pub pivots: u64,
    pub looks: u64,
}

/// A step of the second lane.
fn steps_on(desk: &mut Desk<'_>) -> bool
    requires { IsLoaded desk.old.loads 2 false }
    ensures { IsLoaded desk.new.loads 2 (if result then false else true) }
{
    match desk.step(2) {
        Step::Moved => true,
        Step::Ended => false,
    }
}

/// Whether the second lane's node ends after at most 200 steps.
fn ends(desk: &mut Desk<'_>) -> bool
    requires { IsLoaded desk.old.loads 2 false }
    ensures { IsTrue result → IsLoaded desk.new.loads 2 true }
{
    for _ in 0..200u32 {
        if !steps_on(desk) {
            return true;
        }
    }
    false
}

/// What a node comes to in the second lane of two, or nothing where it doesn't end.
fn outcome(
    alloc: Global,
    game: &Game,
    fix: &Fix,
    budgets: Budgets,
) -> Result<Option<Ended>, AllocError>
    requires unscaled { game.now.scale ≡ pos 0 }
    requires few { play_count game.now ≤ 4096 }
    requires node { IsNode game.now fix.now }
{
    let mut desk = Desk::new(alloc, game, 2, budgets.pivots, budgets.looks)?;
    desk.start(alloc, 2, fix)?;
    if !ends(&mut desk) {
        return Ok(None);
    }
    let ended = desk.finish(alloc, 2)?;
    desk.clear(2);
    Ok(Some(ended))
}

/// Whether a node fixes the first types, or one later type alone.
fn is_node(fix: &Fix) -> bool
    ensures { IsTrue result → (fix.now.first ≡ 1) ⊎ ((2 ≤ fix.now.first) × (length fix.now.acts ≡ 1)) }
{
    if fix.first == 1 {
        return true;
    }
    fix.first >= 2 && fix.acts.len() == 1
}

/// What the node that fixes the types from `first` on to these actions comes to; nothing where the game has no such node, a scale, or more than
/// 4,096 plays, or where the node doesn't end.
pub fn outcome_of(
    alloc: Global,
    game: &Game,
    first: u8,
    acts: &[u16],
    budgets: Budgets,
) -> Result<Option<Ended>, AllocError> {
    if game.scale() != 0 {
        return Ok(None);
    }
    let few = match plays_count(game) {
        Some(count) => count <= 4096,
        None => false,
    };
    if !few {
        return Ok(None);
    }
    match node_of(alloc, game, first, acts)? {
        Some(fix) => {
            if is_node(&fix) {
                outcome(alloc, game, &fix, budgets)
            } else {
                Ok(None)
            }
        }
        None => Ok(None),
    }
}
