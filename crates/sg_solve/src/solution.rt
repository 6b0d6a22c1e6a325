//! The right report on a game of identical patrols.

ghost use Rattle.std.specs.Prelude.{◌≡◌, ◌^◌, true, pos, ◌≤ℤ◌, IfOk};
ghost use Rattle.sg_model.specs.Limits.{is_scaled};
ghost use Rattle.sg_model.specs.Commitments.{IsValue, AreLegal};
ghost use Rattle.sg_frac.specs.Fractions.{IsReduced};
ghost use Rattle.sg_commit.specs.Committed.{IsCommitted};
ghost use Rattle.sg_origami.specs.Fillings.{IsFilling};
ghost use Rattle.sg_split.specs.Wraps.{IsWrap};
ghost use Rattle.sg_solve.specs.Solutions.{IsOptimalReport};

use sg_commit::{Commitment, value};
use sg_frac::Frac;
use sg_game::Game;
use sg_origami::{Filling, water};
use sg_split::wrap;
use sg_tree::{Claim, Ending, Fact, Report, Tree};
use sqlite_items::Items;
use std::alloc::{AllocError, Global};

/// The commitment that covers each target as often as the filling counts.
fn tickets_of(alloc: Global, game: &Game, filling: &Filling) -> Result<Commitment, AllocError>
    requires scaled { is_scaled game.now ≡ true }
    requires filling { IsFilling game.now filling.now }
    ensures wrap { IfOk result (IsWrap game.now filling.now.counts filling.now.total) }
    ensures rules { IfOk result IsCommitted }
{
    game.promises();
    let commitment = wrap(alloc, game, filling.counts.as_slice(), filling.total)?;
    let _rules = commitment.tickets();
    Ok(commitment)
}

/// The defender value of tickets that a filling allows: nothing that it is formed of leaves 128 bits.
fn value_of(game: &Game, commitment: &Commitment) -> Frac
    requires scaled { is_scaled game.now ≡ true }
    requires legal { AreLegal game.now commitment.now.tickets }
    requires small { commitment.now.total ≤ℤ pos (2 ^ 78) }
    ensures value { IsValue game.now commitment.now.tickets result.num result.den }
    ensures reduced { IsReduced result }
{
    game.promises();
    let _rules = commitment.tickets();
    match value(game, commitment) {
        Ok(value) => value,
        Err(_) => unreachable!(),
    }
}

/// The right report on a game that declares a scale: tickets that no commitment betters, with their value, and the level
/// that shows why.
///
/// # Errors
///
/// Want of memory, and nothing else.
pub(crate) fn level_solution(alloc: Global, game: &Game) -> Result<Report, AllocError>
    requires { is_scaled game.now ≡ true }
    ensures { IfOk result (IsOptimalReport game.now) }
{
    game.promises();
    let filling = water(alloc, game)?;
    let commitment = tickets_of(alloc, game, &filling)?;
    let value = value_of(game, &commitment);
    let fact = Fact::Water {
        level: filling.level,
        reason: filling.reason,
    };
    Ok(Report {
        tickets: Claim::of(commitment),
        value,
        caps: Items::new(alloc),
        tree: Tree::Closed(fact),
        upper: value,
        ending: Ending::Optimal,
    })
}
