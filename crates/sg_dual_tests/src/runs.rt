//! Nodes of listed families, run to their ends.
ghost use Rattle.std.specs.Prelude.{◌≡◌, ◌<ℤ◌, pos, IsTrue};
ghost use Rattle.sg_rows.specs.Rows.{place};
ghost use Rattle.sg_lp.specs.Moves.{IsFinal};
ghost use Rattle.sg_programs.specs.Plays.{plays_program};

use sg_dobss::Listed;
use sg_lp::Family;
use sg_pool::Pool;
use sg_simplex::{Node, Turn};
use std::alloc::{AllocError, Global};

/// A node that stands at the slacks, in a pool of its own; none where it has more than 64 rows.
pub fn start<'a>(
    alloc: Global,
    listed: Listed<'a>,
) -> Result<Option<Node<Listed<'a>>>, AllocError> {
    let height = listed.rows();
    if height == 0 || height > 64 {
        return Ok(None);
    }
    let mut pool = Pool::new(alloc, height, height + 1)?;
    Ok(Some(Node::start(alloc, listed, 1000, 100000, &mut pool)?))
}

/// Whether a node is done after at most 200 turns.
pub fn is_done(node: &mut Node<Listed<'_>>) -> bool
    ensures { IsTrue result → IsFinal (plays_program node.new.family.game node.new.family.fix) node.new.tableau }
{
    for _ in 0..200u32 {
        match node.turn() {
            Turn::Moved => {}
            Turn::Done => return true,
            _ => return false,
        }
    }
    false
}

/// Whether the multiplier of the whole is above 0.
pub fn has_whole(node: &Node<Listed<'_>>) -> bool
    ensures { IsTrue result → pos 0 <ℤ place node.now.tableau.y 0 }
{
    let y = node.state().multipliers();
    !y.is_empty() && y[0] > 0
}
