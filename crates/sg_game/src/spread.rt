//! The ends of the defender's payoffs.

ghost use Rattle.std.specs.Prelude.{◌≡◌, ◌≤◌, ◌++◌, ◌∷◌, [], List, ℤ, pos, ◌≤ℤ◌, ◌-ℤ◌, ◌+ℤ◌, flat_map, length, map, false, true};
ghost use Rattle.std.specs.Int.{int_max, int_min};
ghost use Rattle.sg_model.specs.Games.{is_matrix, payoff};
ghost use Rattle.sg_model.specs.Limits.{IsPay};
ghost use Rattle.sg_model.specs.Payoffs.{greatest_of, payoffs_at, payoffs_of, shift_of};
ghost use Rattle.sg_model.specs.Sums.{greatest, least, numbers};
ghost use Rattle.sg_model.specs.declared.limit.TheConstants.{PAYOFF_LIMIT};
ghost use Rattle.sg_game.specs.Counts.{IsActionOf, IsGoalOf, IsTypeOf, leader_pay};
ghost use Rattle.sg_game.specs.Spreads.{IsSpread};

use crate::game::Game;
use sg_model::Kind;

/// The least and the greatest of some payoffs.
#[derive(Clone, Copy)]
pub(crate) struct Spread {
    pub(crate) least: i64,
    pub(crate) greatest: i64,
}

impl Spread {
    /// The ends of one payoff.
    fn of(pay: i64) -> Spread
        requires { IsPay pay }
        ensures { IsSpread result (pay ∷ []) }
    {
        Spread {
            least: pay,
            greatest: pay,
        }
    }

    /// The smaller of the least.
    fn least_with(&self, other: &Spread) -> i64
        ensures { result ≡ int_min self.now.least other.now.least }
    {
        if other.least < self.least {
            other.least
        } else {
            self.least
        }
    }

    /// The larger of the greatest.
    fn greatest_with(&self, other: &Spread) -> i64
        ensures { result ≡ int_max self.now.greatest other.now.greatest }
    {
        if other.greatest < self.greatest {
            self.greatest
        } else {
            other.greatest
        }
    }

    /// The ends of both.
    fn join(&self, other: &Spread) -> Spread
        ensures { (xs ys : List ℤ) → IsSpread self.now xs → IsSpread other.now ys → IsSpread result (xs ++ ys) }
    {
        Spread {
            least: self.least_with(other),
            greatest: self.greatest_with(other),
        }
    }
}

/// The ends of what the defender gets from row `i` where type `l` takes action `a`.
fn row_spread(game: &Game, l: u8, i: u16, a: u16) -> Spread
    requires matrix { is_matrix game.now ≡ true }
    requires known_type { IsTypeOf game.now l }
    requires known_row { IsGoalOf game.now i }
    requires known_action { IsActionOf game.now l a }
    ensures { IsSpread result (leader_pay game.now l i a ∷ []) }
{
    Spread::of(game.leader(l, i, a))
}

/// The ends of what the defender may get in the column of action `a` of type `l`.
fn column_spread(game: &Game, l: u8, a: u16) -> Spread
    requires matrix { is_matrix game.now ≡ true }
    requires known_type { IsTypeOf game.now l }
    requires known_action { IsActionOf game.now l a }
    ensures { IsSpread result (map (λ i. leader_pay game.now l i a) (numbers (length game.now.goals))) }
{
    let rows = game.rows();
    let mut spread = row_spread(game, l, 1, a);
    for i in 1..rows {
        spread = spread.join(&row_spread(game, l, i + 1, a));
    }
    spread
}

/// The ends of what the defender may get at target `a`.
fn target_spread(game: &Game, l: u8, a: u16) -> Spread
    requires security { is_matrix game.now ≡ false }
    requires known_type { IsTypeOf game.now l }
    requires known_target { IsGoalOf game.now a }
    ensures { IsSpread result ((payoff game.now l a).dc ∷ (payoff game.now l a).du ∷ []) }
{
    let [covered, uncovered, _, _] = game.payoffs(l, a);
    Spread::of(covered).join(&Spread::of(uncovered))
}

/// The ends of what the defender may get where type `l` takes action `a`.
fn action_spread(game: &Game, l: u8, a: u16) -> Spread
    requires known_type { IsTypeOf game.now l }
    requires known_action { IsActionOf game.now l a }
    ensures { IsSpread result (payoffs_at game.now l a) }
{
    match game.kind() {
        Kind::Security => target_spread(game, l, a),
        Kind::Matrix => column_spread(game, l, a),
    }
}

/// The ends of what the defender may get against type `l`.
fn type_spread(game: &Game, l: u8) -> Spread
    requires { IsTypeOf game.now l }
    ensures { IsSpread result (payoffs_of game.now l) }
{
    let actions = game.actions(l);
    let mut spread = action_spread(game, l, 1);
    for a in 1..actions {
        spread = spread.join(&action_spread(game, l, a + 1));
    }
    spread
}

/// The ends of what the defender may get.
fn spread_of(game: &Game) -> Spread
    ensures { IsSpread result (flat_map (payoffs_of game.now) (numbers (length game.now.types))) }
{
    let types = game.types();
    let mut spread = type_spread(game, 1);
    for l in 1..types {
        spread = spread.join(&type_spread(game, l + 1));
    }
    spread
}

/// The defender's greatest payoff against type `l`.
pub fn greatest(game: &Game, l: u8) -> i64
    requires { IsTypeOf game.now l }
    ensures greatest { result ≡ greatest_of game.now l }
    ensures within { IsPay result }
{
    type_spread(game, l).greatest
}

/// 1 less the defender's least payoff: what makes each payoff at least 1.
pub fn shift(game: &Game) -> i64
    ensures shift { result ≡ shift_of game.now }
    ensures low { (pos 1 -ℤ PAYOFF_LIMIT) ≤ℤ result }
    ensures high { result ≤ℤ (PAYOFF_LIMIT +ℤ pos 1) }
{
    1 - spread_of(game).least
}
