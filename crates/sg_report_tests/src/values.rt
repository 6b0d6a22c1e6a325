//! Values of tickets worked out by hand.
//!
//! The trees are open, so where the tickets and the value are right the root is told, for it is no split: reason 5 at line 6.

use crate::judged::{Case, Says, is_right};
use std::test::*;

/// One patrol, and a thief of prior 3 who gets 4 at the gate or 2 at the hall where it isn't covered.
const GAME: &str =
    "version = 1\nform = \"security\"\npatrols = 1\ntargets = [\"gate\", \"hall\"]\n\n[[type]]\nname = \"thief\"\nprior = 3\npayoffs = [[2, -2, 0, 4], [1, -1, 0, 2]]\n";

/// Two of three tickets at the gate: the thief gets 4 of 3 at either. The gate gives the defender 2 of 3, the hall -1.
const TWO_OF_THREE: &str = "patrol-report 1\ntickets 2 3\nt 2 1\nt 1 2\n";

const ONE_OF_TWO: &str = "patrol-report 1\ntickets 2 2\nt 1 1\nt 1 2\n";

const ONE_OF_THREE: &str = "patrol-report 1\ntickets 2 3\nt 1 1\nt 2 2\n";

const FIVE_OF_SIX: &str = "patrol-report 1\ntickets 2 6\nt 5 1\nt 1 2\n";

/// 2^126 of 2^127 - 1.
const HALF: &str =
    "patrol-report 1\ntickets 2 170141183460469231731687303715884105727\nt 85070591730234615865843651857942052864 1\nt 85070591730234615865843651857942052863 2\n";

/// What stands behind the value.
const REST: &str = "open\nupper 1 1\nverdict optimal\nend\n";

const CASES: [Case<'static>; 8] = [
    Case(GAME, &[TWO_OF_THREE, "value 2 3\n", REST], Says::No(6, 5)),
    Case(GAME, &[TWO_OF_THREE, "value -1 3\n", REST], Says::No(5, 3)),
    Case(GAME, &[TWO_OF_THREE, "value 1 3\n", REST], Says::No(5, 3)),
    Case(GAME, &[ONE_OF_TWO, "value 0 1\n", REST], Says::No(6, 5)),
    Case(GAME, &[ONE_OF_TWO, "value 1 1\n", REST], Says::No(5, 3)),
    Case(GAME, &[ONE_OF_THREE, "value -2 3\n", REST], Says::No(6, 5)),
    Case(GAME, &[FIVE_OF_SIX, "value -2 3\n", REST], Says::No(6, 5)),
    Case(GAME, &[HALF, "value 0 1\n", REST], Says::No(5, 9)),
];

#[test]
fn judges_worked_values(rt: HostRuntime) {
    for case in &CASES {
        assert!(rt; is_right(rt.alloc(), case));
    }
}
