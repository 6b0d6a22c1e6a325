//! Games whose fillings were worked out by hand.

use crate::cases::{Wanted, are_met};
use crate::games::{Table, numbered, patrolled};
use sg_game::{Game, Level};
use sg_origami::{Filling, water};
use std::alloc::Global;
use std::test::Fail;

/// A game of patrols and what its filling is to be.
#[derive(Drop)]
struct Case {
    scale: i64,
    patrols: i64,
    payoffs: Table,
    level: (i128, i128),
    reason: Level,
    counts: &'static [i128],
    total: i128,
}

/// Games that the patrols do not fill.
fn few_patrols() -> &'static [Case] {
    const CASES: &'static [Case] = &[
        Case {
            scale: 4,
            patrols: 1,
            payoffs: &[&[2, -2, 0, 4], &[1, -1, 0, 2]],
            level: (4, 3),
            reason: Level::Resources,
            counts: &[2, 1],
            total: 3,
        },
        Case {
            scale: 1,
            patrols: 1,
            payoffs: &[&[1, -1, 0, 1]],
            level: (0, 1),
            reason: Level::Target(1),
            counts: &[1],
            total: 1,
        },
        Case {
            scale: 4,
            patrols: 0,
            payoffs: &[&[2, -2, 0, 4], &[1, -1, 0, 2]],
            level: (4, 1),
            reason: Level::Resources,
            counts: &[0, 0],
            total: 1,
        },
    ];
    CASES
}

/// Games of more patrols.
fn more_patrols() -> &'static [Case] {
    const CASES: &'static [Case] = &[
        Case {
            scale: 1,
            patrols: 2,
            payoffs: &[&[0, -1, 0, 1], &[0, -1, 0, 1], &[0, -1, 0, 1]],
            level: (1, 3),
            reason: Level::Resources,
            counts: &[2, 2, 2],
            total: 3,
        },
        Case {
            scale: 4,
            patrols: 3,
            payoffs: &[&[2, -2, 0, 4], &[1, -1, 1, 2]],
            level: (1, 1),
            reason: Level::Target(2),
            counts: &[3, 4],
            total: 4,
        },
    ];
    CASES
}

/// A game of many targets, and one whose patrols all stay.
fn many_targets() -> &'static [Case] {
    const CASES: &'static [Case] = &[
        Case {
            scale: 12,
            patrols: 3,
            payoffs: &[
                &[2, -8, -2, 10],
                &[1, -6, -4, 8],
                &[1, -5, 0, 6],
                &[1, -4, -2, 4],
                &[1, -3, -1, 3],
                &[0, -2, -2, 2],
                &[0, -1, -3, 1],
                &[0, -1, -4, 0],
            ],
            level: (17, 12),
            reason: Level::Resources,
            counts: &[103, 79, 110, 62, 57, 21, 0, 0],
            total: 144,
        },
        Case {
            scale: 2,
            patrols: 2,
            payoffs: &[&[1, 0, 1, 2], &[1, 0, 1, 3]],
            level: (1, 1),
            reason: Level::Target(1),
            counts: &[1, 1],
            total: 1,
        },
    ];
    CASES
}

/// Whether a filling is the one that is wanted.
fn is_wanted(filling: &Filling, case: &Case) -> bool {
    let (num, den) = case.level;
    filling.level.num() == num
        && filling.level.den() == den
        && filling.reason == case.reason
        && filling.counts.as_slice() == case.counts
        && filling.total == case.total
}

/// Whether a game is filled as is wanted.
fn is_filled(alloc: Global, game: &Game, case: &Case) -> bool {
    if game.scale() <= 0 {
        return false;
    }
    match water(alloc, game) {
        Ok(filling) => is_wanted(&filling, case),
        Err(_) => false,
    }
}

impl Wanted for Case {
    /// Whether the case is met.
    fn is_met(&self, alloc: Global) -> Result<bool, Fail> {
        let goals = numbered(alloc, self.payoffs.len())?;
        let game = patrolled(alloc, self.scale, self.patrols, goals, self.payoffs)?;
        Ok(is_filled(alloc, &game, self))
    }
}

#[test]
fn worked_games_are_filled(rt: HostRuntime) -> Result<(), Fail> {
    for cases in [few_patrols(), more_patrols(), many_targets()] {
        assert!(rt; are_met(rt.alloc(), cases)?);
    }
    Ok(())
}
