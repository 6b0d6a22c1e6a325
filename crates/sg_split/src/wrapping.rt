// From counts to a commitment.
ghost use Rattle.std.specs.Prelude.{◌≡◌, All, IfOk, None, length, pos, ◌≤ℤ◌};
ghost use Rattle.sg_model.specs.Limits.{IsGame, IsWithin};
ghost use Rattle.sg_commit.specs.Committed.{IsCommitted};
ghost use Rattle.sg_commit.specs.Parts.{AreMultiple, part_fault};
ghost use Rattle.sg_split.specs.Laying.{AreCounts};
ghost use Rattle.sg_split.specs.Wraps.{AreMomentParts, IsPatrolLine, IsWrap};

use crate::laying::tickets_of;
use crate::line::Line;
use crate::place::ends_of;
use sg_commit::Commitment;
use sg_game::Game;
use sg_model::Ticket;
use std::alloc::{AllocError, Global};

/// The patrols of a game, with counts laid on them.
pub(crate) fn line_of(
    alloc: Global,
    game: &Game,
    counts: &[i128],
    total: i128,
) -> Result<Line, AllocError>
    requires game { IsGame game.now }
    requires positive { pos 1 ≤ℤ total }
    requires one_each { length counts.now ≡ length game.now.goals }
    requires within { All (IsWithin (pos 0) total) counts.now }
    ensures { IfOk result (IsPatrolLine game.now counts.now total) }
{
    let ends = ends_of(alloc, counts, total)?;
    Ok(Line {
        patrols: game.resources(),
        moments: total,
        ends,
    })
}

/// The tickets that cover each target in its count.
fn parts_of(
    alloc: Global,
    game: &Game,
    counts: &[i128],
    total: i128,
) -> Result<Vec<Ticket>, AllocError>
    requires game { IsGame game.now }
    requires counts { AreCounts game.now counts.now total }
    ensures { IfOk result (λ parts. AreMomentParts game.now counts.now total parts.items) }
{
    let line = line_of(alloc, game, counts, total)?;
    tickets_of(alloc, &line)
}

/// The commitment of parts that have no fault.
pub(crate) fn joined(parts: Vec<Ticket>) -> Commitment
    requires { part_fault parts.items ≡ None }
    ensures shares { AreMultiple parts.items result.tickets }
    ensures rules { IsCommitted result }
{
    match Commitment::of(parts) {
        Ok(commitment) => {
            let _ = commitment.tickets();
            commitment
        }
        Err(_) => unreachable!(),
    }
}

/// Spreads the coverage of targets over identical patrols, as plays, so that each target is covered in its count out of
/// `total` tickets.
///
/// The counts are laid end to end in the order of the targets, along patrol 1 from 0 to `total`, then patrol 2, and so
/// on. At each moment from 0 to below `total` every patrol stands at the target whose count is there, or is idle. A play
/// stands from one cut place to the next, and its weight is the number of moments between: cut places are 0 and the ends
/// of the counts, modulo `total`. Weights are divided by their common divisor, so the commitment's total divides `total`.
/// The method is the wrap-around rule of McNaughton (1959).
///
/// It takes a sort of the cut places, and a step for each patrol and play: 10,000 targets and 200 patrols take some 20
/// milliseconds.
///
/// # Errors
///
/// Want of memory, and nothing else.
pub fn wrap(
    alloc: Global,
    game: &Game,
    counts: &[i128],
    total: i128,
) -> Result<Commitment, AllocError>
    requires { AreCounts game.now counts.now total }
    ensures { IfOk result (IsWrap game.now counts.now total) }
{
    game.promises();
    let parts = parts_of(alloc, game, counts, total)?;
    Ok(joined(parts))
}
