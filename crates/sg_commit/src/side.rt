//! The two who get something where a target is attacked.

ghost use Rattle.std.specs.Prelude.{◌≡◌, false};
ghost use Rattle.sg_model.specs.Games.{is_matrix, payoff};
ghost use Rattle.sg_model.specs.Plays.{IsLegal};
ghost use Rattle.sg_game.specs.Counts.{IsActionOf, IsGoalOf, IsTypeOf};
ghost use Rattle.sg_commit.specs.Sides.{covered_to, pay_to, uncovered_to};

use sg_game::{Game, pay_a, pay_d};

/// Whose pay is meant.
#[derive(Clone, Copy)]
pub enum Side {
    /// The defender's, against a type of attacker.
    Defender,
    /// That type's own.
    Attacker,
}

/// What a target pays a side, covered and uncovered.
#[derive(Clone, Copy)]
pub struct Pays {
    pub covered: i64,
    pub uncovered: i64,
}

impl Side {
    /// What the side gets where `code` is played and type `l` takes action `a`.
    pub fn pay(self, game: &Game, l: u8, code: &[u16], a: u16) -> i64
        requires legal { IsLegal game.now code.now }
        requires known_type { IsTypeOf game.now l }
        requires known_action { IsActionOf game.now l a }
        ensures { result ≡ pay_to self game.now l code.now a }
    {
        match self {
            Side::Defender => pay_d(game, l, code, a),
            Side::Attacker => pay_a(game, l, code, a),
        }
    }

    /// What target `t` pays the side where type `l` attacks it.
    pub fn pays(self, game: &Game, l: u8, t: u16) -> Pays
        requires security { is_matrix game.now ≡ false }
        requires known_type { IsTypeOf game.now l }
        requires known_target { IsGoalOf game.now t }
        ensures covered { result.covered ≡ covered_to self (payoff game.now l t) }
        ensures uncovered { result.uncovered ≡ uncovered_to self (payoff game.now l t) }
    {
        let [d_covered, d_uncovered, a_covered, a_uncovered] = game.payoffs(l, t);
        match self {
            Side::Defender => Pays {
                covered: d_covered,
                uncovered: d_uncovered,
            },
            Side::Attacker => Pays {
                covered: a_covered,
                uncovered: a_uncovered,
            },
        }
    }
}
