//! Reports with facts of the coverage table, worked out by hand, with changed lines.

use crate::edits::{Edited, are_told};
use crate::judged::Says;
use std::alloc::Global;
use std::test::*;

/// One patrol that covers the one target for certain.
const ONE_TARGET: &str =
    "version = 1\nform = \"security\"\npatrols = 1\ntargets = [\"t\"]\n\n[[type]]\nname = \"one\"\nprior = 1\npayoffs = [[1, -1, 0, 1]]\n";

/// Its report: a `within` row bounds what covering the target adds.
static ONE_LINES: [&str; 11] = [
    "patrol-report 1\n",
    "tickets 1 1\n",
    "t 1 1\n",
    "value 1 1\n",
    "split 1 1\n",
    "open\n",
    "cover 1 3 1\n",
    "c 3 2\n",
    "upper 1 1\n",
    "verdict optimal\n",
    "end\n",
];

/// The column of the target has cost 2.
static ONE_CASES: [Edited; 4] = [
    Edited(&[], Says::Optimal(1, 1)),
    Edited(&[(8, "c 3 1\n")], Says::No(7, 6)),
    Edited(&[(7, "cover 1 2 1\n")], Says::No(7, 6)),
    Edited(&[(8, "c 4 2\n")], Says::No(7, 6)),
];

/// Two equal targets, one patrol, and two types.
const TWO_TARGETS: &str =
    "version = 1\nform = \"security\"\npatrols = 1\ntargets = [\"a\", \"b\"]\n\n[[type]]\nname = \"thief\"\nprior = 1\npayoffs = [[1, -1, 0, 1], [1, -1, 0, 1]]\n\n[[type]]\nname = \"spy\"\nprior = 2\npayoffs = [[1, -1, 0, 1], [1, -1, 0, 1]]\n";

/// Its report. Rows 1 to 5 are those of the patrol and the targets, row 6 compares the other action of the first fixed
/// type, and row 7 that of the second.
static TWO_LINES: [&str; 40] = [
    "patrol-report 1\n",
    "tickets 2 2\n",
    "t 1 1\n",
    "t 1 2\n",
    "value 0 1\n",
    "cap 2 proved 0 2\n",
    "cover 1 4 4\n",
    "c 1 2\n",
    "c 2 2\n",
    "c 3 2\n",
    "c 6 2\n",
    "cover 1 4 4\n",
    "c 1 2\n",
    "c 2 2\n",
    "c 3 2\n",
    "c 6 2\n",
    "split 1 2\n",
    "open\n",
    "split 2 2\n",
    "cover 1 2 4\n",
    "c 1 1\n",
    "c 2 1\n",
    "c 3 1\n",
    "c 6 1\n",
    "cover 1 6 5\n",
    "c 1 3\n",
    "c 2 3\n",
    "c 3 3\n",
    "c 6 1\n",
    "c 7 2\n",
    "cover 1 6 4\n",
    "c 1 3\n",
    "c 2 3\n",
    "c 3 3\n",
    "c 7 1\n",
    "plays 1 2 1\n",
    "m 1 1 1\n",
    "upper 0 1\n",
    "verdict optimal\n",
    "end\n",
];

/// Accepted: as it is; with another multiplier of the two types' rows; with an open part below a closed base, and below the
/// root.
static TWO_ACCEPTED: [Edited; 4] = [
    Edited(&[], Says::Optimal(0, 1)),
    Edited(
        &[(25, "cover 1 6 4\n"), (29, "c 6 3\n"), (30, "")],
        Says::Optimal(0, 1),
    ),
    Edited(
        &[
            (25, "open\n"),
            (26, ""),
            (27, ""),
            (28, ""),
            (29, ""),
            (30, ""),
        ],
        Says::Optimal(0, 1),
    ),
    Edited(
        &[
            (36, "open\n"),
            (37, ""),
            (38, "upper 1 1\n"),
            (39, "verdict gap nodes 1\n"),
        ],
        Says::Gap(0, 1, 1, 1),
    ),
];

/// Facts of caps: the bound, the column of the whole, a patrol's, a target's, and a row past the table of one type.
static TWO_CAPS: [Edited; 5] = [
    Edited(&[(6, "cap 2 proved -1 2\n")], Says::No(6, 4)),
    Edited(&[(7, "cover 1 3 4\n")], Says::No(7, 6)),
    Edited(&[(8, "c 1 1\n")], Says::No(7, 6)),
    Edited(
        &[(6, "cap 2 proved -1 2\n"), (16, "c 6 3\n")],
        Says::No(12, 6),
    ),
    Edited(&[(11, "c 7 2\n")], Says::No(7, 6)),
];

/// Facts of nodes: of a base, of two types, with a row of the other type in place of the one, and past the table.
static TWO_NODES: [Edited; 7] = [
    Edited(
        &[(20, "cover 1 1 4\n"), (25, "cover 1 5 5\n")],
        Says::No(20, 6),
    ),
    Edited(&[(24, "c 5 1\n")], Says::No(20, 6)),
    Edited(&[(24, "c 7 1\n")], Says::No(20, 6)),
    Edited(&[(30, "c 7 1\n")], Says::No(25, 6)),
    Edited(&[(30, "c 8 2\n")], Says::No(25, 6)),
    Edited(&[(35, "c 6 1\n")], Says::No(31, 6)),
    Edited(
        &[(25, "cover 170141183460469231731687303715884105727 6 5\n")],
        Says::No(25, 9),
    ),
];

/// A fact over plays beside them.
static TWO_PLAYS: [Edited; 3] = [
    Edited(&[(36, "plays 1 1 1\n")], Says::No(36, 6)),
    Edited(&[(37, "m 1 1 2\n")], Says::No(36, 6)),
    Edited(&[(37, "m 2 1 1\n")], Says::No(36, 6)),
];

/// Whether the checker says so of each report on two targets.
fn is_right(alloc: Global, cases: &[Edited]) -> bool {
    are_told(alloc, TWO_TARGETS, &TWO_LINES, cases)
}

#[test]
fn judges_coverage_of_one_target(rt: HostRuntime) {
    assert!(rt; are_told(rt.alloc(), ONE_TARGET, &ONE_LINES, &ONE_CASES));
}

#[test]
fn accepts_coverage_of_two_types(rt: HostRuntime) {
    assert!(rt; is_right(rt.alloc(), &TWO_ACCEPTED));
}

#[test]
fn judges_coverage_in_caps(rt: HostRuntime) {
    assert!(rt; is_right(rt.alloc(), &TWO_CAPS));
}

#[test]
fn judges_coverage_at_nodes(rt: HostRuntime) {
    assert!(rt; is_right(rt.alloc(), &TWO_NODES) && is_right(rt.alloc(), &TWO_PLAYS));
}
