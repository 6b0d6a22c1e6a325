//! The numbers of a game that its bounds are formed of.

ghost use Rattle.std.specs.Prelude.{◌≡◌};
ghost use Rattle.sg_check.specs.Placing.{AreNumbersOf};

use sg_game::{Game, prior_total, shift};
use sg_plays_fact::{Measures, measures_of};

/// Numbers of a game, found once.
#[derive(Clone, Copy)]
pub(crate) struct Numbers {
    /// What makes each payoff of the defender at least 1.
    pub(crate) shift: i128,
    /// The sum of the priors.
    pub(crate) priors: i128,
    /// What the facts are measured by.
    pub(crate) measures: Measures,
}

/// The numbers of a game.
pub(crate) fn numbers_of(game: &Game) -> Numbers
    ensures { AreNumbersOf game.now result }
{
    Numbers {
        shift: i128::from(shift(game)),
        priors: i128::from(prior_total(game)),
        measures: measures_of(game),
    }
}
