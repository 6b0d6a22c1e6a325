//! Facts that were worked out by hand: two rows against two types, and the edges of what may stand at a node.

use crate::{Said, said_of};
use sg_file::read_game;
use sg_game::Game;
use sg_tree::Mark;
use std::alloc::Global;
use std::test::Fail;

/// Two rows, against two types of two actions.
const TWO_PLAYERS: &str =
    "version = 1\nform = \"matrix\"\nrows = [\"A\", \"B\"]\n\n[[type]]\nname = \"one\"\nprior = 1\nactions = [\"x\", \"y\"]\nleader = [[2, 4], [1, 3]]\nfollower = [[1, 0], [0, 2]]\n\n[[type]]\nname = \"two\"\nprior = 1\nactions = [\"x\", \"y\"]\nleader = [[2, 4], [1, 3]]\nfollower = [[0, 1], [2, 0]]\n";

/// A fact and what is said of it.
struct Case {
    first: u8,
    acts: &'static [u16],
    rho: i128,
    mu: i128,
    marks: &'static [Mark],
    said: Said,
}

/// The greatest number of 128 bits, and a third of it.
const MOST: i128 = 170_141_183_460_469_231_731_687_303_715_884_105_727;

const THIRD: i128 = 56_713_727_820_156_410_577_229_101_238_628_035_242;

/// Facts of a report on this game.
static OF_REPORT: [Case; 5] = [
    Case {
        first: 2,
        acts: &[1],
        rho: 3,
        mu: 5,
        marks: &[Mark { l: 2, a: 2, v: 1 }],
        said: Said::Holds,
    },
    Case {
        first: 2,
        acts: &[2],
        rho: 1,
        mu: 4,
        marks: &[],
        said: Said::Holds,
    },
    Case {
        first: 1,
        acts: &[2, 1],
        rho: 3,
        mu: 16,
        marks: &[Mark { l: 2, a: 2, v: 2 }],
        said: Said::Holds,
    },
    Case {
        first: 1,
        acts: &[2, 2],
        rho: 3,
        mu: 22,
        marks: &[Mark { l: 1, a: 1, v: 2 }],
        said: Said::Holds,
    },
    Case {
        first: 1,
        acts: &[2, 2],
        rho: 3,
        mu: 22,
        marks: &[Mark { l: 1, a: 1, v: 1 }],
        said: Said::Fails,
    },
];

/// Marks that may not stand at their node, and multipliers out of range.
static OF_MARKS: [Case; 5] = [
    Case {
        first: 2,
        acts: &[1],
        rho: 1,
        mu: 90,
        marks: &[Mark { l: 1, a: 2, v: 1 }],
        said: Said::Fails,
    },
    Case {
        first: 2,
        acts: &[1],
        rho: 1,
        mu: 90,
        marks: &[Mark { l: 2, a: 1, v: 1 }],
        said: Said::Fails,
    },
    Case {
        first: 2,
        acts: &[1],
        rho: 1,
        mu: 90,
        marks: &[Mark { l: 2, a: 3, v: 1 }],
        said: Said::Fails,
    },
    Case {
        first: 2,
        acts: &[1],
        rho: 1,
        mu: 90,
        marks: &[Mark { l: 2, a: 2, v: 0 }],
        said: Said::Fails,
    },
    Case {
        first: 2,
        acts: &[1],
        rho: 0,
        mu: 90,
        marks: &[],
        said: Said::Fails,
    },
];

/// Nodes that the game hasn't, and size sums at the ends of 128 bits: the most of the defender is 4, that of an attacker 2.
static OF_SIZES: [Case; 5] = [
    Case {
        first: 3,
        acts: &[1],
        rho: 1,
        mu: 1,
        marks: &[],
        said: Said::NoNode,
    },
    Case {
        first: 1,
        acts: &[3],
        rho: 1,
        mu: 1,
        marks: &[],
        said: Said::NoNode,
    },
    Case {
        first: 2,
        acts: &[1],
        rho: THIRD,
        mu: MOST,
        marks: &[],
        said: Said::TooLarge,
    },
    Case {
        first: 2,
        acts: &[1],
        rho: 28_356_863_910_078_205_288_614_550_619_314_017_621,
        mu: MOST,
        marks: &[Mark {
            l: 2,
            a: 2,
            v: 14_178_431_955_039_102_644_307_275_309_657_008_810,
        }],
        said: Said::Holds,
    },
    Case {
        first: 2,
        acts: &[1],
        rho: 1,
        mu: MOST,
        marks: &[Mark {
            l: 2,
            a: 2,
            v: MOST,
        }],
        said: Said::TooLarge,
    },
];

/// Whether this is said of a fact.
fn is_right(alloc: Global, game: &Game, case: &Case) -> Result<bool, Fail> {
    let said = said_of(
        alloc,
        game,
        (case.first, case.acts),
        case.rho,
        case.mu,
        case.marks,
    )?;
    Ok(said == case.said)
}

/// The first fact, counted from 0, of which something else is said.
fn first_wrong(alloc: Global, cases: &[Case]) -> Result<Option<usize>, Fail> {
    let game = read_game(alloc, TWO_PLAYERS.as_bytes())?;
    for k in 0..cases.len() {
        if !is_right(alloc, &game, &cases[k])? {
            return Ok(Some(k));
        }
    }
    Ok(None)
}

#[test]
fn by_hand(rt: HostRuntime) -> Result<(), Fail> {
    assert_eq!(rt; first_wrong(rt.alloc(), OF_REPORT.as_slice())?, None);
    assert_eq!(rt; first_wrong(rt.alloc(), OF_MARKS.as_slice())?, None);
    assert_eq!(rt; first_wrong(rt.alloc(), OF_SIZES.as_slice())?, None);
    Ok(())
}
