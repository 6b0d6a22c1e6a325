//! A game and weights of its targets.

ghost use Rattle.std.specs.Prelude.{◌≡◌, length, pos};
ghost use Rattle.sg_model.specs.Limits.{IsCount};
ghost use Rattle.sg_model.specs.Sums.{nth};

use sg_game::Game;

/// A game in security form, and a weight for each of its targets.
#[derive(Clone, Copy)]
pub(crate) struct Weighted<'a> {
    pub(crate) game: &'a Game,
    pub(crate) weights: &'a [i128],
}

/// The weight of a target.
pub(crate) fn weight_of(weights: &[i128], t: u16) -> i128
    requires { IsCount 1 (length weights.now) t }
    ensures { result ≡ nth weights.now t (pos 0) }
{
    weights[t as usize - 1]
}
