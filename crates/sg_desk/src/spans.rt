//! The ends of an attacker's payoffs.

ghost use Rattle.std.specs.Prelude.{◌≡◌, ◌≤◌, ◌++◌, ◌∷◌, [], List, ℤ, pos, ◌+◌, ◌^◌, ◌-ℤ◌, ◌≤ℤ◌, length, map, false, true};
ghost use Rattle.std.specs.Int.{int_max, int_min};
ghost use Rattle.sg_model.specs.Games.{is_matrix, payoff};
ghost use Rattle.sg_model.specs.Limits.{IsPay};
ghost use Rattle.sg_model.specs.Sums.{numbers};
ghost use Rattle.sg_game.specs.Counts.{IsActionOf, IsGoalOf, IsTypeOf, follower_pay};
ghost use Rattle.sg_bounds.specs.Sizes.{attacker_payoffs_at, attacker_payoffs_of, attacker_span};
ghost use Rattle.sg_game.specs.Spreads.{AreEnds};

use sg_game::{Game, Kind};

/// The least and the greatest of some payoffs.
#[derive(Clone, Copy)]
struct Spread {
    least: i64,
    greatest: i64,
}

impl Spread {
    /// The ends of one payoff.
    fn of(pay: i64) -> Spread
        requires { IsPay pay }
        ensures { AreEnds result.least result.greatest (pay ∷ []) }
    {
        Spread {
            least: pay,
            greatest: pay,
        }
    }

    /// The smaller of the least.
    fn least_with(&self, other: &Spread) -> i64
        ensures { result ≡ int_min self.now.least other.now.least }
    {
        if other.least < self.least {
            other.least
        } else {
            self.least
        }
    }

    /// The larger of the greatest.
    fn greatest_with(&self, other: &Spread) -> i64
        ensures { result ≡ int_max self.now.greatest other.now.greatest }
    {
        if other.greatest < self.greatest {
            self.greatest
        } else {
            other.greatest
        }
    }

    /// The ends of both.
    fn join(&self, other: &Spread) -> Spread
        ensures { (xs ys : List ℤ) → AreEnds self.now.least self.now.greatest xs → AreEnds other.now.least other.now.greatest ys → AreEnds result.least result.greatest (xs ++ ys) }
    {
        Spread {
            least: self.least_with(other),
            greatest: self.greatest_with(other),
        }
    }
}

/// The ends of what type `l` gets from action `a` where row `i` is played.
fn row_spread(game: &Game, l: u8, i: u16, a: u16) -> Spread
    requires matrix { is_matrix game.now ≡ true }
    requires known_type { IsTypeOf game.now l }
    requires known_row { IsGoalOf game.now i }
    requires known_action { IsActionOf game.now l a }
    ensures { AreEnds result.least result.greatest (follower_pay game.now l i a ∷ []) }
{
    Spread::of(game.follower(l, i, a))
}

/// The ends of what type `l` may get in the column of its action `a`.
fn column_spread(game: &Game, l: u8, a: u16) -> Spread
    requires matrix { is_matrix game.now ≡ true }
    requires known_type { IsTypeOf game.now l }
    requires known_action { IsActionOf game.now l a }
    ensures { AreEnds result.least result.greatest (map (λ i. follower_pay game.now l i a) (numbers (length game.now.goals))) }
{
    let rows = game.rows();
    let mut spread = row_spread(game, l, 1, a);
    for i in 1..rows {
        spread = spread.join(&row_spread(game, l, i + 1, a));
    }
    spread
}

/// The ends of what type `l` may get at target `a`.
fn target_spread(game: &Game, l: u8, a: u16) -> Spread
    requires security { is_matrix game.now ≡ false }
    requires known_type { IsTypeOf game.now l }
    requires known_target { IsGoalOf game.now a }
    ensures { AreEnds result.least result.greatest ((payoff game.now l a).ac ∷ (payoff game.now l a).au ∷ []) }
{
    let [_, _, covered, uncovered] = game.payoffs(l, a);
    Spread::of(covered).join(&Spread::of(uncovered))
}

/// The ends of what type `l` may get where it takes action `a`.
fn action_spread(game: &Game, l: u8, a: u16) -> Spread
    requires known_type { IsTypeOf game.now l }
    requires known_action { IsActionOf game.now l a }
    ensures { AreEnds result.least result.greatest (attacker_payoffs_at game.now l a) }
{
    match game.kind() {
        Kind::Security => target_spread(game, l, a),
        Kind::Matrix => column_spread(game, l, a),
    }
}

/// The ends of what type `l` may get.
fn type_spread(game: &Game, l: u8) -> Spread
    requires { IsTypeOf game.now l }
    ensures { AreEnds result.least result.greatest (attacker_payoffs_of game.now l) }
{
    let actions = game.actions(l);
    let mut spread = action_spread(game, l, 1);
    for a in 1..actions {
        spread = spread.join(&action_spread(game, l, a + 1));
    }
    spread
}

/// The greatest difference between two payoffs of type `l`.
pub(crate) fn attacker_span(game: &Game, l: u8) -> i64
    requires { IsTypeOf game.now l }
    ensures span { result ≡ attacker_span game.now l }
    ensures low { (pos 0 -ℤ pos (2 ^ 31)) ≤ℤ result }
    ensures high { result ≤ℤ pos (2 ^ 31) }
{
    let spread = type_spread(game, l);
    spread.greatest - spread.least
}
