// Fillings of games, from the game to its level and its coverage.
ghost use Rattle.std.specs.Prelude.{◌≡◌, ◌^◌, true, pos, ◌-ℤ◌, ◌≤ℤ◌, IfOk};
ghost use Rattle.sg_model.specs.Limits.{is_scaled};
ghost use Rattle.sg_frac.specs.Fractions.{IsReducedForm};
ghost use Rattle.sg_origami.specs.Fillings.{IsFilling};
ghost use Rattle.sg_origami.specs.Heights.{IsHeight};
ghost use Rattle.sg_model.specs.Fillable.{IsFillable};

use crate::count::coverage_of;
use crate::floor::level_of;
use crate::height::Height;
use crate::rate::rates_of;
use sg_frac::Frac;
use sg_game::Game;
use sg_model::Level;
use sqlite_items::Items;
use std::alloc::{AllocError, Global};

/// The least level of a game, why it is the least, and the coverage that reaches it.
#[derive(Drop)]
pub struct Filling {
    /// The least that the attacker's best payoff can be made, in the attacker's payoff.
    pub level: Frac,
    /// Why it can't be less.
    pub reason: Level,
    /// How many out of `total` tickets cover each target, in the order of the targets: from 0 to `total`.
    pub counts: Items<i128>,
    /// How many tickets there are, from 1 to 2^78.
    pub total: i128,
}

/// A level in lowest terms.
fn lowest_terms(level: &Height) -> Frac
    ensures lowest { IsReducedForm level.now.num level.now.den result }
    ensures range { IsHeight level.now }
{
    match Frac::of(level.num(), level.den()) {
        Some(level) => level,
        None => unreachable!(),
    }
}

/// The filling of a game within the limits.
fn filling_of(alloc: Global, game: &Game) -> Result<Filling, AllocError>
    requires { IsFillable game.now }
    ensures { IfOk result (IsFilling game.now) }
{
    let rates = rates_of(alloc, game)?;
    let found = level_of(game, rates.as_slice());
    let level = lowest_terms(&found.level);
    let height = Height::of(level.num(), level.den());
    let coverage = coverage_of(alloc, game, &height)?;
    Ok(Filling {
        level,
        reason: found.reason,
        counts: coverage.counts,
        total: coverage.total,
    })
}

/// Fills a game that declares a scale: brings the attacker's best payoff down to the least level that its patrols can.
///
/// Any number of patrols serves, none and more than targets too. It takes a pass over the targets for each rise of the
/// level, which are some tens at most: a game of 10,000 targets takes about a millisecond.
///
/// # Errors
///
/// Want of memory, and nothing else.
pub fn water(alloc: Global, game: &Game) -> Result<Filling, AllocError>
    requires { is_scaled game.now ≡ true }
    ensures { IfOk result (IsFilling game.now) }
{
    game.promises();
    filling_of(alloc, game)
}
