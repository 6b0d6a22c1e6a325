//! The commitment of a node that is done, and its values.

ghost use Rattle.std.specs.Prelude.{◌≡◌, ◌<ℤ◌, pos, IfOk, None};
ghost use Rattle.sg_model.specs.Commitments.{AreLegal};
ghost use Rattle.sg_commit.specs.Committed.{IsCommitted};
ghost use Rattle.sg_commit.specs.Parts.{AreMultiple, part_fault};
ghost use Rattle.sg_bounds.specs.Regions.{IsFix};
ghost use Rattle.sg_rows.specs.Rows.{place};
ghost use Rattle.sg_lp.specs.Moves.{IsFinal, first_shown};
ghost use Rattle.sg_search.specs.Results.{Reaches};
ghost use Rattle.sg_programs.specs.Plays.{play_of, plays_program};
ghost use Rattle.sg_programs.specs.Points.{point_steps};
ghost use Rattle.sg_programs.specs.Shown.{IsCommitmentAt, commitment_values, fact_at};
ghost use Rattle.sg_dual.specs.Parts.{FormOr, tickets_of};
ghost use Rattle.sg_desk.specs.Ending.{shown_of};

use sg_commit::{Commitment, Ticket, worth};
use sg_dobss::Listed;
use sg_dual::{Part, PointFault, point_of};
use sg_game::{Game, prior_total};
use sg_lp::Column;
use sg_model::Play;
use sg_num::{Wide, times};
use sg_simplex::Node;
use sqlite_items::Items;
use std::alloc::{AllocError, Global};

/// A value that doesn't fit: its number, and its first operation that doesn't.
#[derive(Clone, Copy)]
pub(crate) struct Misfit {
    pub(crate) name: u8,
    pub(crate) wide: Wide,
}

/// The play of a column.
fn play(alloc: Global, col: &Column) -> Result<Play, AllocError>
    ensures { IfOk result (λ play. play.code ≡ play_of col.now) }
{
    let len = (col.len as usize).min(32);
    let code = Items::from_slice(alloc, &col.code[..len])?;
    Ok(Play { code })
}

/// The parts of a point as tickets.
fn tickets(alloc: Global, parts: &[Part]) -> Result<Vec<Ticket>, AllocError>
    ensures { IfOk result (λ tickets. tickets.items ≡ tickets_of parts.now) }
{
    let mut tickets = Vec::with_capacity(alloc, parts.len())?;
    for part in parts {
        let play = play(alloc, &part.col)?;
        tickets.push(Ticket {
            play,
            weight: part.weight,
        })?;
    }
    Ok(tickets)
}

/// The commitment of tickets without a fault.
fn committed(tickets: Vec<Ticket>) -> Commitment
    requires { part_fault tickets.items ≡ None }
    ensures rules { IsCommitted result }
    ensures shares { AreMultiple tickets.items result.tickets }
{
    match Commitment::of(tickets) {
        Ok(k) => {
            let _tickets = k.tickets();
            k
        }
        Err(_) => unreachable!(),
    }
}

/// The commitment of the point of a node that is done and whose first multiplier isn't 0, or the first operation under its point that doesn't fit.
pub(crate) fn commitment_at(
    alloc: Global,
    game: &Game,
    node: &Node<Listed<'_>>,
) -> Result<Commitment, PointFault>
    requires game { node.now.family.game ≡ game.now }
    requires unscaled { game.now.scale ≡ pos 0 }
    requires is_fix { IsFix game.now node.now.family.fix }
    requires done { IsFinal (plays_program game.now node.now.family.fix) node.now.tableau }
    requires some { pos 0 <ℤ place node.now.tableau.y 0 }
    ensures formed { FormOr (point_steps (plays_program game.now node.now.family.fix) node.now.tableau) (λ k. IsCommitmentAt game.now node.now.family.fix node.now.tableau k) result }
    ensures reaches { IfOk result (λ k. Reaches game.now node.now.family.fix (fact_at game.now node.now.family.fix node.now.tableau) k.tickets) }
{
    game.promises();
    let parts = match point_of(alloc, node) {
        Ok(parts) => parts,
        Err(fault) => return Err(fault),
    };
    match tickets(alloc, parts.as_slice()) {
        Ok(tickets) => Ok(committed(tickets)),
        Err(_) => Err(PointFault::Memory),
    }
}

/// The first value of a commitment that doesn't fit: its worth, or its total times the priors.
pub(crate) fn commitment_misfit(game: &Game, k: &Commitment) -> Option<Misfit>
    requires { AreLegal game.now k.now.tickets }
    ensures { shown_of result ≡ first_shown (commitment_values game.now k.now.tickets) }
{
    let _tickets = k.tickets();
    match worth(game, k) {
        Ok(_) => {}
        Err(wide) => return Some(Misfit { name: 6, wide }),
    }
    match times(k.total(), i128::from(prior_total(game))) {
        Ok(_) => None,
        Err(wide) => Some(Misfit { name: 7, wide }),
    }
}
