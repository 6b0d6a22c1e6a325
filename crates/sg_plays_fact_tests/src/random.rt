//! Random games of each form, and facts at their nodes, each with the least `mu` for which it holds, found by an independent program over the list
//! of all plays.

use crate::{Said, said_of};
use sg_file::read_game;
use sg_game::Game;
use sg_tree::Mark;
use std::alloc::Global;
use std::test::Fail;

/// A fact at a node, and the least `mu` for which it holds.
struct Case {
    first: u8,
    acts: &'static [u16],
    rho: i128,
    least: i128,
    marks: &'static [Mark],
}

/// Six rows against three types of four actions.
const TABLES: &str =
    "version = 1\nform = \"matrix\"\nrows = [\"r1\", \"r2\", \"r3\", \"r4\", \"r5\", \"r6\"]\n\n[[type]]\nname = \"l1\"\nprior = 2\nactions = [\"x1\", \"x2\", \"x3\", \"x4\"]\nleader = [[0, -9, -5, 7], [-2, 8, -2, -9], [0, 6, 8, -8], [1, -5, -5, -7], [8, -7, 1, 0], [2, 6, 4, -2]]\nfollower = [[5, 8, 0, 4], [-6, 3, 8, 9], [-5, 3, 6, -4], [2, -3, -1, 6], [6, -3, 4, 1], [-2, -7, -6, -1]]\n\n[[type]]\nname = \"l2\"\nprior = 3\nactions = [\"x1\", \"x2\", \"x3\", \"x4\"]\nleader = [[4, 2, 3, 5], [-1, -1, 5, -5], [-1, 5, -9, 3], [-3, 5, 0, -4], [3, 8, -6, -6], [-7, 8, 1, -4]]\nfollower = [[8, 8, -7, 5], [9, -2, -2, 3], [1, -7, -5, 4], [5, -4, 7, -3], [4, 1, -7, 3], [4, 3, 7, -7]]\n\n[[type]]\nname = \"l3\"\nprior = 1\nactions = [\"x1\", \"x2\", \"x3\", \"x4\"]\nleader = [[9, 0, -1, -5], [-3, -7, 4, -8], [6, 5, -4, -9], [-6, -2, 6, 1], [4, -4, 4, -1], [0, 3, 7, -3]]\nfollower = [[-9, 9, -1, 2], [-8, 9, -1, -9], [0, 3, 3, 4], [-7, 3, 2, 1], [8, 4, -2, 5], [-9, -4, -8, 1]]\n";

/// Facts at nodes of it.
static TABLES_FACTS: [Case; 9] = [
    Case {
        first: 1,
        acts: &[2],
        rho: 5,
        least: 190,
        marks: &[
            Mark { l: 1, a: 1, v: 5 },
            Mark { l: 1, a: 3, v: 4 },
            Mark { l: 1, a: 3, v: 3 },
        ],
    },
    Case {
        first: 1,
        acts: &[1],
        rho: 1,
        least: 105,
        marks: &[
            Mark { l: 1, a: 3, v: 4 },
            Mark { l: 1, a: 4, v: 1 },
            Mark { l: 1, a: 2, v: 6 },
            Mark { l: 1, a: 3, v: 1 },
        ],
    },
    Case {
        first: 3,
        acts: &[4],
        rho: 7,
        least: 119,
        marks: &[
            Mark { l: 3, a: 2, v: 3 },
            Mark { l: 3, a: 3, v: 5 },
            Mark { l: 3, a: 2, v: 2 },
        ],
    },
    Case {
        first: 1,
        acts: &[3],
        rho: 1,
        least: 163,
        marks: &[
            Mark { l: 1, a: 4, v: 3 },
            Mark { l: 1, a: 2, v: 3 },
            Mark { l: 1, a: 1, v: 5 },
            Mark { l: 1, a: 1, v: 3 },
        ],
    },
    Case {
        first: 2,
        acts: &[3],
        rho: 7,
        least: 315,
        marks: &[],
    },
    Case {
        first: 3,
        acts: &[1],
        rho: 2,
        least: 92,
        marks: &[Mark { l: 3, a: 3, v: 6 }, Mark { l: 3, a: 2, v: 1 }],
    },
    Case {
        first: 3,
        acts: &[2],
        rho: 7,
        least: 105,
        marks: &[Mark { l: 3, a: 3, v: 1 }],
    },
    Case {
        first: 2,
        acts: &[2],
        rho: 5,
        least: 360,
        marks: &[
            Mark { l: 2, a: 4, v: 5 },
            Mark { l: 2, a: 3, v: 1 },
            Mark { l: 2, a: 3, v: 4 },
            Mark { l: 2, a: 4, v: 6 },
        ],
    },
    Case {
        first: 1,
        acts: &[3],
        rho: 1,
        least: 129,
        marks: &[
            Mark { l: 1, a: 2, v: 4 },
            Mark { l: 1, a: 1, v: 1 },
            Mark { l: 1, a: 4, v: 1 },
            Mark { l: 1, a: 4, v: 5 },
            Mark { l: 1, a: 4, v: 1 },
        ],
    },
];

/// Seven targets, three resources with schedules that overlap, two types.
const ROUTES: &str =
    "version = 1\nform = \"security\"\ntargets = [\"t1\", \"t2\", \"t3\", \"t4\", \"t5\", \"t6\", \"t7\"]\n\n[[schedule]]\nname = \"s1\"\ntargets = [\"t2\", \"t7\", \"t6\", \"t4\"]\n\n[[schedule]]\nname = \"s2\"\ntargets = [\"t7\", \"t1\", \"t5\", \"t6\"]\n\n[[schedule]]\nname = \"s3\"\ntargets = [\"t7\", \"t5\", \"t1\", \"t3\"]\n\n[[schedule]]\nname = \"s4\"\ntargets = [\"t2\"]\n\n[[schedule]]\nname = \"s5\"\ntargets = [\"t6\", \"t5\"]\n\n[[schedule]]\nname = \"s6\"\ntargets = [\"t1\", \"t4\", \"t3\", \"t7\"]\n\n[[resource]]\nname = \"r1\"\nschedules = [\"s5\", \"s6\"]\n\n[[resource]]\nname = \"r2\"\nschedules = [\"s5\", \"s1\", \"s4\", \"s2\"]\n\n[[resource]]\nname = \"r3\"\nschedules = [\"s3\", \"s2\", \"s1\", \"s6\", \"s4\", \"s5\"]\n\n[[type]]\nname = \"l1\"\nprior = 3\npayoffs = [[3, 1, -5, 1], [1, -5, 1, 5], [5, 0, -2, -4], [1, 3, 1, 0], [2, -2, 2, -1], [3, -1, 3, -5], [3, -6, 3, -2]]\n\n[[type]]\nname = \"l2\"\nprior = 3\npayoffs = [[5, -7, -4, -5], [-2, 1, 4, 0], [-3, -7, -4, -1], [1, -4, 1, -2], [-3, 2, -1, 3], [6, 3, -5, -4], [2, -8, 3, 5]]\n";

/// Facts at nodes of it.
static ROUTES_FACTS: [Case; 10] = [
    Case {
        first: 2,
        acts: &[1],
        rho: 5,
        least: 172,
        marks: &[
            Mark { l: 2, a: 6, v: 6 },
            Mark { l: 2, a: 7, v: 5 },
            Mark { l: 2, a: 5, v: 1 },
            Mark { l: 2, a: 5, v: 2 },
        ],
    },
    Case {
        first: 1,
        acts: &[2, 7],
        rho: 1,
        least: 63,
        marks: &[],
    },
    Case {
        first: 2,
        acts: &[2],
        rho: 5,
        least: 155,
        marks: &[Mark { l: 2, a: 5, v: 5 }],
    },
    Case {
        first: 2,
        acts: &[5],
        rho: 1,
        least: 83,
        marks: &[
            Mark { l: 2, a: 6, v: 2 },
            Mark { l: 2, a: 2, v: 5 },
            Mark { l: 2, a: 3, v: 3 },
            Mark { l: 2, a: 7, v: 5 },
        ],
    },
    Case {
        first: 1,
        acts: &[4, 4],
        rho: 1,
        least: 86,
        marks: &[
            Mark { l: 2, a: 5, v: 1 },
            Mark { l: 2, a: 5, v: 6 },
            Mark { l: 2, a: 6, v: 4 },
            Mark { l: 1, a: 7, v: 6 },
        ],
    },
    Case {
        first: 2,
        acts: &[3],
        rho: 1,
        least: 64,
        marks: &[
            Mark { l: 2, a: 2, v: 2 },
            Mark { l: 2, a: 6, v: 5 },
            Mark { l: 2, a: 1, v: 6 },
            Mark { l: 2, a: 4, v: 4 },
            Mark { l: 2, a: 6, v: 3 },
        ],
    },
    Case {
        first: 2,
        acts: &[4],
        rho: 3,
        least: 121,
        marks: &[
            Mark { l: 2, a: 6, v: 2 },
            Mark { l: 2, a: 5, v: 2 },
            Mark { l: 2, a: 3, v: 3 },
        ],
    },
    Case {
        first: 1,
        acts: &[4],
        rho: 1,
        least: 78,
        marks: &[
            Mark { l: 1, a: 1, v: 2 },
            Mark { l: 1, a: 2, v: 6 },
            Mark { l: 1, a: 6, v: 2 },
            Mark { l: 1, a: 1, v: 4 },
        ],
    },
    Case {
        first: 2,
        acts: &[4],
        rho: 1,
        least: 66,
        marks: &[Mark { l: 2, a: 1, v: 6 }],
    },
    Case {
        first: 2,
        acts: &[2],
        rho: 7,
        least: 278,
        marks: &[
            Mark { l: 2, a: 6, v: 6 },
            Mark { l: 2, a: 4, v: 5 },
            Mark { l: 2, a: 1, v: 1 },
            Mark { l: 2, a: 5, v: 4 },
            Mark { l: 2, a: 6, v: 2 },
        ],
    },
];

/// Six targets, three patrols, two types.
const PATROLS: &str =
    "version = 1\nform = \"security\"\npatrols = 3\ntargets = [\"t1\", \"t2\", \"t3\", \"t4\", \"t5\", \"t6\"]\n\n[[type]]\nname = \"l1\"\nprior = 1\npayoffs = [[6, -9, 5, -1], [9, -3, -5, 3], [5, -6, -3, 0], [1, 1, -1, -2], [6, -1, 0, -2], [5, -5, -5, 1]]\n\n[[type]]\nname = \"l2\"\nprior = 1\npayoffs = [[-3, -4, -5, -3], [5, -8, -3, -1], [0, -4, -4, -1], [0, 2, -1, 4], [-3, 0, 4, 4], [3, -7, 5, -5]]\n";

/// Facts at nodes of it.
static PATROLS_FACTS: [Case; 8] = [
    Case {
        first: 1,
        acts: &[5],
        rho: 1,
        least: 65,
        marks: &[
            Mark { l: 1, a: 1, v: 1 },
            Mark { l: 1, a: 6, v: 2 },
            Mark { l: 1, a: 6, v: 5 },
            Mark { l: 1, a: 1, v: 3 },
            Mark { l: 1, a: 6, v: 2 },
        ],
    },
    Case {
        first: 2,
        acts: &[1],
        rho: 7,
        least: 0,
        marks: &[
            Mark { l: 2, a: 2, v: 5 },
            Mark { l: 2, a: 2, v: 3 },
            Mark { l: 2, a: 5, v: 6 },
        ],
    },
    Case {
        first: 1,
        acts: &[3, 3],
        rho: 2,
        least: 42,
        marks: &[Mark { l: 2, a: 5, v: 1 }],
    },
    Case {
        first: 1,
        acts: &[6, 5],
        rho: 7,
        least: 223,
        marks: &[
            Mark { l: 2, a: 3, v: 2 },
            Mark { l: 2, a: 4, v: 5 },
            Mark { l: 2, a: 3, v: 2 },
            Mark { l: 1, a: 5, v: 3 },
        ],
    },
    Case {
        first: 1,
        acts: &[3, 1],
        rho: 2,
        least: 44,
        marks: &[],
    },
    Case {
        first: 2,
        acts: &[3],
        rho: 1,
        least: 10,
        marks: &[],
    },
    Case {
        first: 1,
        acts: &[3],
        rho: 3,
        least: 57,
        marks: &[Mark { l: 1, a: 6, v: 6 }],
    },
    Case {
        first: 2,
        acts: &[3],
        rho: 1,
        least: 46,
        marks: &[
            Mark { l: 2, a: 1, v: 3 },
            Mark { l: 2, a: 1, v: 2 },
            Mark { l: 2, a: 6, v: 1 },
            Mark { l: 2, a: 6, v: 3 },
            Mark { l: 2, a: 1, v: 1 },
        ],
    },
];

/// Five targets, two patrols, and a scale.
const SCALED: &str =
    "version = 1\nform = \"security\"\nscale = 12\npatrols = 2\ntargets = [\"t1\", \"t2\", \"t3\", \"t4\", \"t5\"]\n\n[[type]]\nname = \"l1\"\nprior = 1\npayoffs = [[4, -4, 2, 5], [4, -3, 2, 8], [7, -7, -2, 10], [5, -8, 5, 9], [2, -2, -3, 3]]\n";

/// Facts at nodes of it.
static SCALED_FACTS: [Case; 4] = [
    Case {
        first: 1,
        acts: &[4],
        rho: 1,
        least: 71,
        marks: &[Mark { l: 1, a: 1, v: 4 }, Mark { l: 1, a: 2, v: 6 }],
    },
    Case {
        first: 1,
        acts: &[4],
        rho: 3,
        least: 42,
        marks: &[],
    },
    Case {
        first: 1,
        acts: &[1],
        rho: 7,
        least: 51,
        marks: &[
            Mark { l: 1, a: 4, v: 6 },
            Mark { l: 1, a: 2, v: 1 },
            Mark { l: 1, a: 3, v: 2 },
        ],
    },
    Case {
        first: 1,
        acts: &[3],
        rho: 2,
        least: 57,
        marks: &[Mark { l: 1, a: 2, v: 6 }, Mark { l: 1, a: 4, v: 1 }],
    },
];

/// Whether a fact holds with its least `mu`, and doesn't with a smaller one.
fn is_right(alloc: Global, game: &Game, case: &Case) -> Result<bool, Fail> {
    let node = (case.first, case.acts);
    if said_of(alloc, game, node, case.rho, case.least, case.marks)? != Said::Holds {
        return Ok(false);
    }
    let less = case.least.saturating_sub(1);
    Ok(said_of(alloc, game, node, case.rho, less, case.marks)? == Said::Fails)
}

/// The first fact, counted from 0, of which something else is said.
fn first_wrong(alloc: Global, text: &str, cases: &[Case]) -> Result<Option<usize>, Fail> {
    let game = read_game(alloc, text.as_bytes())?;
    for k in 0..cases.len() {
        if !is_right(alloc, &game, &cases[k])? {
            return Ok(Some(k));
        }
    }
    Ok(None)
}

#[test]
fn tables(rt: HostRuntime) -> Result<(), Fail> {
    assert_eq!(rt;
        first_wrong(rt.alloc(), TABLES, TABLES_FACTS.as_slice())?,
        None
    );
    Ok(())
}

#[test]
fn routes(rt: HostRuntime) -> Result<(), Fail> {
    assert_eq!(rt;
        first_wrong(rt.alloc(), ROUTES, ROUTES_FACTS.as_slice())?,
        None
    );
    Ok(())
}

#[test]
fn patrols(rt: HostRuntime) -> Result<(), Fail> {
    assert_eq!(rt;
        first_wrong(rt.alloc(), PATROLS, PATROLS_FACTS.as_slice())?,
        None
    );
    assert_eq!(rt;
        first_wrong(rt.alloc(), SCALED, SCALED_FACTS.as_slice())?,
        None
    );
    Ok(())
}
