//! Worked commitments: the sums of each action, the best ones, what they leave the defender, worth, value and counts.
//! Where weights are so great that something does not fit, it is the first such operation.
ghost use Rattle.sg_model.specs.Commitments.{AreLegal};
ghost use Rattle.std.specs.Prelude.{◌≡◌, false};
ghost use Rattle.sg_model.specs.Games.{is_matrix};
ghost use Rattle.sg_game.specs.Counts.{IsActionOf, IsTypeOf};

mod wide;
mod worked;

use crate::cases::{Wanted, are_met};
use crate::games::{Drawn, PAY, Player, Shares, commitment, game};
use sg_commit::{Commitment, are_legal, cover_count, is_best, sum_a, sum_d, take, value, worth};
use sg_game::{Game, Kind};
use sg_num::Wide;
use std::alloc::Global;
use std::test::Fail;

/// What an action gives: the defender's sum, that of the type, and whether it is best.
type Action = (Result<i128, Wide>, Result<i128, Wide>, Result<bool, Wide>);

/// Of a type its actions, and what it leaves the defender.
type Answers = (&'static [Action], Result<i128, Wide>);

/// A commitment, and what is wanted of it.
#[derive(Drop)]
struct Case {
    game: &'static Drawn,
    priors: &'static [i64],
    parts: Shares,
    types: &'static [Answers],
    worth: Result<i128, Wide>,
    /// The numerator and the denominator of the value.
    value: Result<(i128, i128), Wide>,
    /// The tickets that cover each target, in security form.
    counts: &'static [i128],
}

const TWO_BY_TWO: &'static [&'static [i64]] = &[&[2, 4], &[1, 3]];

/// Rows A and B against one type, which gets most from the action that the row leaves open.
const ONE_TYPE: &'static Drawn = &Drawn::Rows {
    goals: &["A", "B"],
    players: &[Player {
        name: "thief",
        actions: &["x", "y"],
        leader: TWO_BY_TWO,
        follower: &[&[1, 0], &[0, 2]],
    }],
};

/// The same with a second type, which gets most from the other actions.
const TWO_TYPES: &'static Drawn = &Drawn::Rows {
    goals: &["A", "B"],
    players: &[
        Player {
            name: "thief",
            actions: &["x", "y"],
            leader: TWO_BY_TWO,
            follower: &[&[1, 0], &[0, 2]],
        },
        Player {
            name: "spy",
            actions: &["x", "y"],
            leader: TWO_BY_TWO,
            follower: &[&[0, 1], &[2, 0]],
        },
    ],
};

/// Rows A and B against one type, which gets the same from its first three actions, and less from the fourth.
const ALIKE: &'static Drawn = &Drawn::Rows {
    goals: &["A", "B"],
    players: &[Player {
        name: "thief",
        actions: &["w", "x", "y", "z"],
        leader: &[&[-3, -1, -2, 9], &[0, 1, 4, 9]],
        follower: &[&[0, 0, 0, -1], &[0, 0, 0, -1]],
    }],
};

/// Four targets, and two resources that split them in two ways: three at most are covered at once.
const CROSSED: &'static Drawn = &Drawn::Guarded {
    goals: &["a", "b", "c", "d"],
    schedules: &[
        ("ab", &[1, 2]),
        ("cd", &[3, 4]),
        ("ac", &[1, 3]),
        ("bd", &[2, 4]),
    ],
    resources: &[("r1", &[1, 2]), ("r2", &[3, 4])],
    payoffs: &[PAY, PAY, PAY, PAY],
};

/// Whether action `a` of type `l` gives what is wanted.
fn gives(game: &Game, k: &Commitment, l: u8, a: u16, wanted: &Action) -> bool
    requires legal { AreLegal game.now k.now.tickets }
    requires known_type { IsTypeOf game.now l }
    requires known_action { IsActionOf game.now l a }
{
    let (defender, attacker, best) = wanted;
    sum_d(game, k, l, a) == *defender
        && sum_a(game, k, l, a) == *attacker
        && is_best(game, k, l, a) == *best
}

/// Whether type `l` answers as is wanted.
fn answers(game: &Game, k: &Commitment, l: u8, wanted: &Answers) -> bool
    requires legal { AreLegal game.now k.now.tickets }
    requires known_type { IsTypeOf game.now l }
{
    let (actions, taken) = wanted;
    for i in 0..game.actions(l) {
        match actions.get(i as usize) {
            Some(action) if gives(game, k, l, i + 1, action) => {}
            _ => return false,
        }
    }
    take(game, k, l) == *taken
}

/// Whether all types answer as is wanted.
fn all_answer(game: &Game, k: &Commitment, wanted: &[Answers]) -> bool
    requires legal { AreLegal game.now k.now.tickets }
{
    for i in 0..game.types() {
        match wanted.get(i as usize) {
            Some(wanted) if answers(game, k, i + 1, wanted) => {}
            _ => return false,
        }
    }
    true
}

/// Whether each target is covered in so many tickets.
fn are_covered(game: &Game, k: &Commitment, wanted: &[i128]) -> bool
    requires security { is_matrix game.now ≡ false }
    requires legal { AreLegal game.now k.now.tickets }
{
    for i in 0..game.targets() {
        match wanted.get(i as usize) {
            Some(count) if cover_count(game, k, i + 1) == *count => {}
            _ => return false,
        }
    }
    true
}

/// Whether the value is as is wanted.
fn is_worth(game: &Game, k: &Commitment, wanted: &Result<(i128, i128), Wide>) -> bool
    requires legal { AreLegal game.now k.now.tickets }
{
    match value(game, k) {
        Ok(value) => Ok((value.num(), value.den())) == *wanted,
        Err(wide) => Err(wide) == *wanted,
    }
}

/// Whether a commitment gives what is wanted.
fn gives_all(game: &Game, k: &Commitment, case: &Case) -> bool {
    if !are_legal(game, k.tickets()) {
        return false;
    }
    let is_covered = match game.kind() {
        Kind::Security => are_covered(game, k, case.counts),
        Kind::Matrix => case.counts.is_empty(),
    };
    is_covered
        && all_answer(game, k, case.types)
        && worth(game, k) == case.worth
        && is_worth(game, k, &case.value)
}

impl Wanted for Case {
    /// Whether the case is met.
    fn is_met(&self, alloc: Global) -> Result<bool, Fail> {
        let game = game(alloc, self.game, self.priors)?;
        let k = commitment(alloc, self.parts)?;
        Ok(gives_all(&game, &k, self))
    }
}

#[test]
fn commitments_are_answered_as_worked_out(rt: HostRuntime) -> Result<(), Fail> {
    for cases in [
        worked::ties_of_one_type(),
        worked::answers_of_one_type(),
        worked::two_types(),
        worked::ties(),
        worked::four_targets(),
        worked::one_patrol(),
        worked::edges(),
        worked::great_totals(),
    ] {
        assert!(rt; are_met(rt.alloc(), cases)?);
    }
    Ok(())
}

#[test]
fn operations_that_do_not_fit_are_told(rt: HostRuntime) -> Result<(), Fail> {
    for cases in [
        wide::wide_sums(),
        wide::wide_comparisons(),
        wide::wide_ties(),
        wide::wide_worths(),
        wide::great_worths(),
    ] {
        assert!(rt; are_met(rt.alloc(), cases)?);
    }
    Ok(())
}
