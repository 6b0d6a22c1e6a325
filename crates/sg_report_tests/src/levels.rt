//! Water levels worked out by hand.
//!
//! The one ticket leaves all patrols idle, so its value is below the bound of each level that a patrol helps to hold: where
//! the level holds, `upper` is right just where it is that bound. A level that doesn't hold is told at its line, the fifth.

use crate::judged::{Case, Says, is_right};
use std::test::*;

/// Two targets, the first worth twice the second, with 0, 1 and 2 patrols. One patrol has 12 of 12 at the level 4/3: 8 for
/// the gate and 4 for the hall.
const NO_PATROL: &str =
    "version = 1\nform = \"security\"\nscale = 4\npatrols = 0\ntargets = [\"t0\", \"t1\"]\n\n[[type]]\nname = \"one\"\nprior = 1\npayoffs = [[2, -2, 0, 4], [1, -1, 0, 2]]\n";

const ONE_PATROL: &str =
    "version = 1\nform = \"security\"\nscale = 4\npatrols = 1\ntargets = [\"t0\", \"t1\"]\n\n[[type]]\nname = \"one\"\nprior = 1\npayoffs = [[2, -2, 0, 4], [1, -1, 0, 2]]\n";

const TWO_PATROLS: &str =
    "version = 1\nform = \"security\"\nscale = 4\npatrols = 2\ntargets = [\"t0\", \"t1\"]\n\n[[type]]\nname = \"one\"\nprior = 1\npayoffs = [[2, -2, 0, 4], [1, -1, 0, 2]]\n";

/// One target that pays 0 where it is covered.
const GATE: &str =
    "version = 1\nform = \"security\"\nscale = 1\npatrols = 1\ntargets = [\"t0\"]\n\n[[type]]\nname = \"one\"\nprior = 1\npayoffs = [[1, -1, 0, 1]]\n";

/// One ticket of idle patrols, which leaves the first target uncovered.
const NONE_IDLE: &str = "patrol-report 1\ntickets 1 1\nt 1\nvalue -2 1\n";

const ONE_IDLE: &str = "patrol-report 1\ntickets 1 1\nt 1 0\nvalue -2 1\n";

const TWO_IDLE: &str = "patrol-report 1\ntickets 1 1\nt 1 0 0\nvalue -2 1\n";

const GATE_IDLE: &str = "patrol-report 1\ntickets 1 1\nt 1 0\nvalue -1 1\n";

/// Endings with these upper bounds.
const TWO_THIRDS: &str = "upper 2 3\nverdict gap nodes 1\nend\n";

const MINUS_TWO: &str = "upper -2 1\nverdict optimal\nend\n";

const ONE: &str = "upper 1 1\nverdict gap nodes 1\nend\n";

const CASES: [Case<'static>; 14] = [
    Case(
        ONE_PATROL,
        &[ONE_IDLE, "water 4 3 resources\n", TWO_THIRDS],
        Says::Gap(-2, 1, 2, 3),
    ),
    Case(
        ONE_PATROL,
        &[ONE_IDLE, "water 1 1 resources\n", ONE],
        Says::No(5, 6),
    ),
    Case(
        ONE_PATROL,
        &[ONE_IDLE, "water 3 1 resources\n", ONE],
        Says::No(5, 6),
    ),
    Case(
        TWO_PATROLS,
        &[TWO_IDLE, "water 4 3 resources\n", TWO_THIRDS],
        Says::No(5, 6),
    ),
    Case(
        NO_PATROL,
        &[NONE_IDLE, "water 4 1 resources\n", MINUS_TWO],
        Says::Optimal(-2, 1),
    ),
    Case(
        NO_PATROL,
        &[NONE_IDLE, "water 5 1 resources\n", MINUS_TWO],
        Says::No(5, 6),
    ),
    Case(
        ONE_PATROL,
        &[
            ONE_IDLE,
            "water 170141183460469231731687303715884105727 2 resources\n",
            ONE,
        ],
        Says::No(5, 6),
    ),
    Case(
        ONE_PATROL,
        &[
            ONE_IDLE,
            "water 1 170141183460469231731687303715884105727 resources\n",
            ONE,
        ],
        Says::No(5, 6),
    ),
    Case(
        ONE_PATROL,
        &[
            ONE_IDLE,
            "water -170141183460469231731687303715884105728 1 resources\n",
            ONE,
        ],
        Says::No(5, 6),
    ),
    Case(
        GATE,
        &[GATE_IDLE, "water 0 1 target 1\n", ONE],
        Says::Gap(-1, 1, 1, 1),
    ),
    Case(
        GATE,
        &[GATE_IDLE, "water 0 1 target 2\n", ONE],
        Says::No(5, 6),
    ),
    Case(
        GATE,
        &[GATE_IDLE, "water 1 1 target 1\n", ONE],
        Says::No(5, 6),
    ),
    Case(
        GATE,
        &[
            GATE_IDLE,
            "water 1 170141183460469231731687303715884105727 target 1\n",
            ONE,
        ],
        Says::No(5, 6),
    ),
    Case(
        GATE,
        &[GATE_IDLE, "water 0 1 resources\n", ONE],
        Says::Gap(-1, 1, 1, 1),
    ),
];

#[test]
fn judges_worked_levels(rt: HostRuntime) {
    for case in &CASES {
        assert!(rt; is_right(rt.alloc(), case));
    }
}
