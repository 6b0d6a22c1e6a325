// From counts by resource and choice to a commitment.
ghost use Rattle.std.specs.Prelude.{IfOk};
ghost use Rattle.sg_split.specs.Matched.{AreChoiceCounts, IsMatched, counts_of};

use crate::serving::tickets_for;
use crate::table::Table;
use crate::targeting::rows_of;
use crate::wrapping::joined;
use sg_commit::Commitment;
use sg_game::Game;
use sg_matchings::decompose;
use std::alloc::{AllocError, Global};

/// Makes a commitment of legal plays that covers each target in exactly what the table asks for it, out of `total` tickets.
///
/// The table says for each resource and each of its choices on how many of the tickets the resource is to take it. What
/// is asked for a target is the sum over the choices that hold it. No resource and no target has more than `total`, and each
/// schedule has one target. The commitment's total divides `total`, and it has no more plays than the table has counts above
/// 0, the game resources, and targets, together.
///
/// The counts by resource and target are taken apart into matchings (Birkhoff 1946, von Neumann 1953): one play at a time
/// serves every resource and every target that has no ticket to spare.
///
/// # Errors
///
/// Want of memory, and nothing else.
pub fn matchings(
    alloc: Global,
    game: &Game,
    table: &Table,
    total: i128,
) -> Result<Commitment, AllocError>
    requires { AreChoiceCounts game.now (counts_of table.now) total }
    ensures { IfOk result (IsMatched game.now (counts_of table.now) total) }
{
    game.promises();
    let rows = rows_of(alloc, game, table, total)?;
    let parts = decompose(alloc, rows.as_slice(), game.targets() as usize, total)?;
    let tickets = tickets_for(alloc, game, parts.as_slice())?;
    Ok(joined(tickets))
}
