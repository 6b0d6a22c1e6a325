//! A report on a game of three types, worked out by hand, with changed lines.

use crate::edits::{Edited, are_told};
use crate::judged::Says;
use std::alloc::Global;
use std::test::*;

/// Two rows. At weights 2 and 1 both actions of the first type and of the second are best; the third takes its first
/// action whatever the defender plays.
const THREE_TYPES: &str =
    "version = 1\nform = \"matrix\"\nrows = [\"A\", \"B\"]\n\n[[type]]\nname = \"thief\"\nprior = 1\nactions = [\"x\", \"y\"]\nleader = [[2, 4], [1, 3]]\nfollower = [[1, 0], [0, 2]]\n\n[[type]]\nname = \"spy\"\nprior = 2\nactions = [\"x\", \"y\"]\nleader = [[2, 4], [1, 3]]\nfollower = [[0, 1], [2, 0]]\n\n[[type]]\nname = \"guest\"\nprior = 1\nactions = [\"x\", \"y\"]\nleader = [[2, 4], [1, 3]]\nfollower = [[1, 0], [1, 0]]\n";

/// A plain cap and a proved one, whose second fact shows that no commitment makes the third type take its second action; a
/// closed base, and below it an open one.
static LINES: [&str; 26] = [
    "patrol-report 1\n",
    "tickets 2 3\n",
    "t 2 1\n",
    "t 1 2\n",
    "value 19 6\n",
    "cap 2 plain 4\n",
    "cap 3 proved 2 2\n",
    "plays 1 2 0\n",
    "plays 1 0 1\n",
    "m 3 1 4\n",
    "split 1 2\n",
    "open\n",
    "plays 1 2 0\n",
    "split 2 2\n",
    "plays 3 11 1\n",
    "m 1 1 1\n",
    "plays 1 8 0\n",
    "split 3 2\n",
    "open\n",
    "plays 3 38 1\n",
    "m 1 1 4\n",
    "plays 1 0 1\n",
    "m 3 1 16\n",
    "upper 19 6\n",
    "verdict optimal\n",
    "end\n",
];

/// Accepted: as it is; with open parts, which have the bound of the closed base above the open one, of their own base, or
/// of the root; with a cap above what its facts show.
static ACCEPTED: [Edited; 5] = [
    Edited(&[], Says::Optimal(19, 6)),
    Edited(
        &[
            (22, "open\n"),
            (23, ""),
            (24, "upper 41 12\n"),
            (25, "verdict gap nodes 1\n"),
        ],
        Says::Gap(19, 6, 41, 12),
    ),
    Edited(
        &[
            (19, "plays 3 33 1\nm 1 1 3\n"),
            (22, "open\n"),
            (23, ""),
            (24, "upper 13 4\n"),
            (25, "verdict gap nodes 1\n"),
        ],
        Says::Gap(19, 6, 13, 4),
    ),
    Edited(
        &[
            (13, "open\n"),
            (24, "upper 4 1\n"),
            (25, "verdict gap nodes 1\n"),
        ],
        Says::Gap(19, 6, 4, 1),
    ),
    Edited(
        &[
            (7, "cap 3 proved 4 2\n"),
            (17, "open\n"),
            (24, "upper 47 12\n"),
            (25, "verdict gap nodes 1\n"),
        ],
        Says::Gap(19, 6, 47, 12),
    ),
];

/// The base of another prefix bounds no open part.
static BASES: [Edited; 2] = [
    Edited(
        &[
            (19, "plays 3 33 1\nm 1 1 3\n"),
            (22, "open\n"),
            (23, ""),
            (24, "upper 41 12\n"),
            (25, "verdict gap nodes 1\n"),
        ],
        Says::No(24, 7),
    ),
    Edited(
        &[
            (22, "open\n"),
            (23, ""),
            (24, "upper 13 4\n"),
            (25, "verdict gap nodes 1\n"),
        ],
        Says::No(23, 7),
    ),
];

/// Tickets and value, each with a later test that fails too.
static TICKETS: [Edited; 5] = [
    Edited(&[(2, "tickets 2 4\n"), (4, "t 1 3\n")], Says::No(4, 1)),
    Edited(
        &[(3, "t 170141183460469231731687303715884105727 1\n")],
        Says::No(2, 9),
    ),
    Edited(&[(2, "tickets 2 4\n"), (5, "value 4 1\n")], Says::No(2, 2)),
    Edited(
        &[
            (2, "tickets 2 6\n"),
            (3, "t 4 1\n"),
            (4, "t 2 2\n"),
            (6, "cap 2 plain 3\n"),
        ],
        Says::No(2, 2),
    ),
    Edited(
        &[(5, "value 4 1\n"), (6, "cap 2 plain 3\n")],
        Says::No(5, 3),
    ),
];

/// The form of caps: a plain one that is not the greatest payoff, one of another type, one too few, too few facts.
static CAP_FORMS: [Edited; 5] = [
    Edited(
        &[(6, "cap 2 plain 3\n"), (8, "plays 1 1 0\n")],
        Says::No(6, 4),
    ),
    Edited(&[(6, "")], Says::No(6, 4)),
    Edited(
        &[(7, ""), (8, ""), (9, ""), (10, ""), (11, "split 2 2\n")],
        Says::No(7, 4),
    ),
    Edited(
        &[(7, "cap 3 proved 2 1\n"), (9, ""), (10, "")],
        Says::No(7, 4),
    ),
    Edited(
        &[(10, "m 3 1 4\ncap 4 plain 4\n"), (11, "split 2 2\n")],
        Says::No(11, 4),
    ),
];

/// The facts of caps: all of them before the bound, each with its size sum first.
static CAP_FACTS: [Edited; 5] = [
    Edited(
        &[(7, "cap 3 proved 1 2\n"), (13, "plays 1 1 0\n")],
        Says::No(7, 4),
    ),
    Edited(
        &[(7, "cap 3 proved 1 2\n"), (10, "m 3 1 3\n")],
        Says::No(9, 6),
    ),
    Edited(
        &[
            (8, "plays 1 1 0\n"),
            (9, "plays 170141183460469231731687303715884105727 0 1\n"),
        ],
        Says::No(8, 6),
    ),
    Edited(
        &[
            (7, "cap 3 proved 1 2\n"),
            (9, "plays 170141183460469231731687303715884105727 0 1\n"),
        ],
        Says::No(9, 9),
    ),
    Edited(&[(10, "m 2 1 4\n")], Says::No(9, 6)),
];

/// Splits: a base of the root, another type than the next one, too few parts.
static SPLITS: [Edited; 5] = [
    Edited(
        &[(12, "plays 1 4 0\n"), (13, "plays 1 1 0\n")],
        Says::No(11, 5),
    ),
    Edited(&[(11, "split 2 2\n")], Says::No(11, 5)),
    Edited(
        &[(14, "split 3 2\n"), (15, "plays 3 10 1\n")],
        Says::No(14, 5),
    ),
    Edited(&[(14, "split 2 1\n"), (17, "")], Says::No(14, 5)),
    Edited(
        &[(13, "plays 1 1 0\n"), (14, "split 3 2\n")],
        Says::No(13, 6),
    ),
];

/// The facts of nodes: of a base, of parts, with marks of a type that isn't fixed, of the fixed action and of none.
static FACTS: [Edited; 7] = [
    Edited(
        &[(15, "plays 3 10 1\n"), (17, "plays 1 7 0\n")],
        Says::No(15, 6),
    ),
    Edited(&[(16, "m 2 1 1\n")], Says::No(15, 6)),
    Edited(
        &[(17, "plays 1 7 0\n"), (24, "upper 4 1\n")],
        Says::No(17, 6),
    ),
    Edited(&[(20, "plays 3 37 1\n")], Says::No(20, 6)),
    Edited(&[(23, "m 3 1 15\n")], Says::No(22, 6)),
    Edited(&[(23, "m 3 2 16\n")], Says::No(22, 6)),
    Edited(&[(23, "m 3 3 16\n")], Says::No(22, 6)),
];

/// Kinds of facts that are none here, and numbers that leave 128 bits: the size sum, and behind the inequalities the bound.
static WIDE: [Edited; 5] = [
    Edited(&[(13, "water 4 3 resources\n")], Says::No(13, 6)),
    Edited(&[(13, "cover 1 2 0\n")], Says::No(13, 6)),
    Edited(
        &[(
            13,
            "plays 20000000000000000000000000000000000000 40000000000000000000000000000000000000 0\n",
        )],
        Says::No(13, 9),
    ),
    Edited(
        &[(
            13,
            "plays 20000000000000000000000000000000000000 30000000000000000000000000000000000000 0\n",
        )],
        Says::No(13, 6),
    ),
    Edited(
        &[(13, "plays 50000000000000000000000000000000000000 0 0\n")],
        Says::No(13, 9),
    ),
];

/// The upper bound before the verdict.
static ENDINGS: [Edited; 3] = [
    Edited(
        &[(24, "upper 4 1\n"), (25, "verdict gap nodes 1\n")],
        Says::No(24, 7),
    ),
    Edited(&[(24, "upper 4 1\n")], Says::No(24, 7)),
    Edited(&[(25, "verdict gap nodes 1\n")], Says::No(25, 8)),
];

/// Whether the checker says so of each.
fn is_right(alloc: Global, cases: &[Edited]) -> bool {
    are_told(alloc, THREE_TYPES, &LINES, cases)
}

#[test]
fn accepts_caps_and_nested_bases(rt: HostRuntime) {
    assert!(rt; is_right(rt.alloc(), &ACCEPTED));
}

#[test]
fn refuses_bounds_of_other_bases(rt: HostRuntime) {
    assert!(rt; is_right(rt.alloc(), &BASES));
}

#[test]
fn tells_the_first_ticket_that_fails(rt: HostRuntime) {
    assert!(rt; is_right(rt.alloc(), &TICKETS));
}

#[test]
fn tells_the_first_cap_that_fails(rt: HostRuntime) {
    assert!(rt; is_right(rt.alloc(), &CAP_FORMS) && is_right(rt.alloc(), &CAP_FACTS));
}

#[test]
fn tells_the_first_node_that_fails(rt: HostRuntime) {
    assert!(rt; is_right(rt.alloc(), &SPLITS) && is_right(rt.alloc(), &FACTS));
}

#[test]
fn tells_numbers_that_leave_the_range(rt: HostRuntime) {
    assert!(rt; is_right(rt.alloc(), &WIDE));
}

#[test]
fn tells_the_ending_that_fails(rt: HostRuntime) {
    assert!(rt; is_right(rt.alloc(), &ENDINGS));
}
