//! Reports worked out by hand, with one change each.

use crate::judged::{Case, Says, is_judged_on, is_right, report_of};
use sg_frac::Frac;
use sg_model::Level;
use sg_tree::{Fact, Mark, Tree};
use sqlite_items::Items;
use std::alloc::{AllocError, Global};
use std::test::*;

/// Two rows and two actions: at weights 2 and 1 both actions are best, and the tie goes to the second.
const MATRIX: &str =
    "version = 1\nform = \"matrix\"\nrows = [\"A\", \"B\"]\n\n[[type]]\nname = \"thief\"\nprior = 1\nactions = [\"x\", \"y\"]\nleader = [[2, 4], [1, 3]]\nfollower = [[1, 0], [0, 2]]\n";

/// Four targets, and two resources that split them in two ways: three at most are covered at once.
const CROSSED: &str =
    "version = 1\nform = \"security\"\ntargets = [\"a\", \"b\", \"c\", \"d\"]\n\n[[schedule]]\nname = \"ab\"\ntargets = [\"a\", \"b\"]\n\n[[schedule]]\nname = \"cd\"\ntargets = [\"c\", \"d\"]\n\n[[schedule]]\nname = \"ac\"\ntargets = [\"a\", \"c\"]\n\n[[schedule]]\nname = \"bd\"\ntargets = [\"b\", \"d\"]\n\n[[resource]]\nname = \"r1\"\nschedules = [\"ab\", \"cd\"]\n\n[[resource]]\nname = \"r2\"\nschedules = [\"ac\", \"bd\"]\n\n[[type]]\nname = \"thief\"\nprior = 1\npayoffs = [[0, -1, 0, 1], [0, -1, 0, 1], [0, -1, 0, 1], [0, -1, 0, 1]]\n";

/// One target that pays 0 where it is covered.
const GATE: &str =
    "version = 1\nform = \"security\"\nscale = 1\npatrols = 1\ntargets = [\"t0\"]\n\n[[type]]\nname = \"one\"\nprior = 1\npayoffs = [[1, -1, 0, 1]]\n";

/// The tickets of the matrix game with their value, on the first five lines.
const HEAD: &str = "patrol-report 1\ntickets 2 3\nt 2 1\nt 1 2\nvalue 11 3\n";

/// The tree, on the next five lines.
const TREE: &str = "split 1 2\nopen\nplays 1 2 0\nplays 3 11 1\nm 1 1 1\n";

/// Its front, without the mark of its second fact.
const SPLIT: &str = "split 1 2\nopen\nplays 1 2 0\nplays 3 11 1\n";

/// The ending.
const MET: &str = "upper 11 3\nverdict optimal\nend\n";

/// One ticket of row A, with its value, and a tree whose second part is open.
const OPEN: &str =
    "patrol-report 1\ntickets 1 1\nt 1 1\nvalue 2 1\nsplit 1 2\nopen\nplays 1 2 0\nopen\n";

/// The tickets of the crossed game, with their value, and the head of its split.
const FOUR: &str =
    "patrol-report 1\ntickets 4 4\nt 1 1 1\nt 1 1 2\nt 1 2 1\nt 1 2 2\nvalue -1 4\nsplit 1 4\nopen\n";

/// Its ending.
const QUARTER: &str = "upper -1 4\nverdict optimal\nend\n";

/// Its facts, and the same with a `mu` that is too small.
const SEVEN: &str =
    "plays 4 7 3\nm 1 2 1\nm 1 3 1\nm 1 4 1\nplays 4 7 3\nm 1 1 1\nm 1 3 1\nm 1 4 1\nplays 4 7 3\nm 1 1 1\nm 1 2 1\nm 1 4 1\nplays 4 7 3\nm 1 1 1\nm 1 2 1\nm 1 3 1\n";

const SIX: &str =
    "plays 4 6 3\nm 1 2 1\nm 1 3 1\nm 1 4 1\nplays 4 6 3\nm 1 1 1\nm 1 3 1\nm 1 4 1\nplays 4 6 3\nm 1 1 1\nm 1 2 1\nm 1 4 1\nplays 4 6 3\nm 1 1 1\nm 1 2 1\nm 1 3 1\n";

const CASES: [Case<'static>; 21] = [
    Case(MATRIX, &[HEAD, TREE, MET], Says::Optimal(11, 3)),
    // Changed numbers: the mark of the second fact, the total, the upper bound.
    Case(MATRIX, &[HEAD, SPLIT, "m 1 1 2\n", MET], Says::No(9, 6)),
    Case(MATRIX, &[HEAD, SPLIT, "m 1 2 1\n", MET], Says::No(9, 6)),
    Case(MATRIX, &[HEAD, SPLIT, "m 1 3 1\n", MET], Says::No(9, 6)),
    Case(
        MATRIX,
        &[
            HEAD,
            SPLIT,
            "m 1 1 170141183460469231731687303715884105727\n",
            MET,
        ],
        Says::No(9, 9),
    ),
    Case(
        MATRIX,
        &[
            "patrol-report 1\ntickets 2 4\nt 2 1\nt 1 2\nvalue 11 3\n",
            TREE,
            MET,
        ],
        Says::No(2, 2),
    ),
    Case(
        MATRIX,
        &[HEAD, TREE, "upper 10 3\nverdict optimal\nend\n"],
        Says::No(11, 7),
    ),
    // Changed tickets, and a changed value.
    Case(
        MATRIX,
        &[
            "patrol-report 1\ntickets 2 6\nt 4 1\nt 2 2\nvalue 11 3\n",
            TREE,
            MET,
        ],
        Says::No(2, 2),
    ),
    Case(
        MATRIX,
        &[
            "patrol-report 1\ntickets 2 3\nt 2 1\nt 1 3\nvalue 11 3\n",
            TREE,
            MET,
        ],
        Says::No(4, 1),
    ),
    Case(
        MATRIX,
        &[
            "patrol-report 1\ntickets 2 0\nt 170141183460469231731687303715884105727 1\nt 1 2\nvalue 11 3\n",
            TREE,
            MET,
        ],
        Says::No(2, 9),
    ),
    Case(
        MATRIX,
        &[
            "patrol-report 1\ntickets 2 3\nt 2 1\nt 1 2\nvalue 10 3\n",
            TREE,
            MET,
        ],
        Says::No(5, 3),
    ),
    // Changed trees: a part is missing, no split, a second split by the same type, a cap of no type.
    Case(
        MATRIX,
        &[HEAD, "split 1 1\nopen\nplays 3 11 1\nm 1 1 1\n", MET],
        Says::No(6, 5),
    ),
    Case(MATRIX, &[HEAD, "plays 1 4 0\n", MET], Says::No(6, 5)),
    Case(
        MATRIX,
        &[
            HEAD,
            "split 1 2\nopen\nopen\nsplit 1 2\nopen\nopen\nopen\n",
            MET,
        ],
        Says::No(9, 5),
    ),
    Case(
        MATRIX,
        &[
            HEAD,
            "cap 2 plain 4\nsplit 1 2\nopen\nopen\nsplit 1 2\nopen\nopen\nopen\n",
            MET,
        ],
        Says::No(6, 4),
    ),
    // The second fact holds for row B, which is printed, and not for row A.
    Case(
        MATRIX,
        &[
            "patrol-report 1\ntickets 1 1\nt 1 2\nvalue 3 1\nsplit 1 2\nopen\nplays 1 2 0\nplays 1 3 0\n",
            "upper 3 1\nverdict optimal\nend\n",
        ],
        Says::No(8, 6),
    ),
    // An open part has the bound of all commitments.
    Case(
        MATRIX,
        &[OPEN, "upper 4 1\nverdict gap nodes 1\nend\n"],
        Says::Gap(2, 1, 4, 1),
    ),
    Case(
        MATRIX,
        &[OPEN, "upper 4 1\nverdict optimal\nend\n"],
        Says::No(10, 8),
    ),
    Case(
        MATRIX,
        &[OPEN, "upper 2 1\nverdict optimal\nend\n"],
        Says::No(9, 7),
    ),
    // Joint schedules.
    Case(CROSSED, &[FOUR, SEVEN, QUARTER], Says::Optimal(-1, 4)),
    Case(CROSSED, &[FOUR, SIX, QUARTER], Says::No(10, 6)),
];

#[test]
fn judges_changed_reports(rt: HostRuntime) {
    for case in &CASES {
        assert!(rt; is_right(rt.alloc(), case));
    }
}

/// The tree of the matrix game's report, with this multiplier of the mark of its second fact.
fn marked(alloc: Global, v: i128) -> Result<Tree, AllocError> {
    let mark = Mark { l: 1, a: 1, v };
    let first = Fact::Plays {
        rho: 1,
        mu: 2,
        marks: Items::new(alloc),
    };
    let second = Fact::Plays {
        rho: 3,
        mu: 11,
        marks: Items::from_slice(alloc, &[mark])?,
    };
    let mut parts = Items::new(alloc);
    parts.push(Tree::Closed(first))?;
    parts.push(Tree::Closed(second))?;
    Ok(Tree::Split {
        l: 1,
        base: None,
        parts,
    })
}

/// A tree that no text has: with a multiplier below 1, or with the level 0 for target 0.
fn unwritten(alloc: Global, multiplier: Option<i128>) -> Result<Tree, AllocError> {
    match (multiplier, Frac::of(0, 1)) {
        (None, Some(level)) => Ok(Tree::Closed(Fact::Water {
            level,
            reason: Level::Target(0),
        })),
        (Some(v), _) => marked(alloc, v),
        (None, None) => Ok(Tree::Unproved),
    }
}

/// Whether the checker says this of the report with another tree, which no text has.
fn is_judged_with(alloc: Global, case: &Case, tree: Tree) -> bool {
    let Case(game, parts, expected) = case;
    match report_of(alloc, parts) {
        Ok(mut report) => {
            report.tree = tree;
            is_judged_on(alloc, game, &report, *expected)
        }
        Err(_) => false,
    }
}

/// A ticket of no patrol at the gate, and a right ending.
const IDLE: &str =
    "patrol-report 1\ntickets 1 1\nt 1 0\nvalue -1 1\nwater 0 1 target 1\nupper 1 1\nverdict gap nodes 1\nend\n";

/// A report with a right tree, the multiplier of another tree, and what the checker says then.
const UNWRITTEN: [(Case<'static>, Option<i128>); 3] = [
    (Case(MATRIX, &[HEAD, TREE, MET], Says::No(9, 6)), Some(-1)),
    (Case(MATRIX, &[HEAD, TREE, MET], Says::No(9, 6)), Some(0)),
    (Case(GATE, &[IDLE], Says::No(5, 6)), None),
];

#[test]
fn judges_numbers_out_of_their_ranges(rt: HostRuntime) -> Result<(), AllocError> {
    for (case, multiplier) in &UNWRITTEN {
        let tree = unwritten(rt.alloc(), *multiplier)?;
        assert!(rt; is_judged_with(rt.alloc(), case, tree));
    }
    Ok(())
}
