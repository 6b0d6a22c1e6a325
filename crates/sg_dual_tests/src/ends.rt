//! What nodes come to: their multipliers and points.
ghost use Rattle.std.specs.Prelude.{◌≡◌, pos};
ghost use Rattle.sg_lp.specs.Moves.{IsFinal};
ghost use Rattle.sg_programs.specs.Plays.{plays_program};

use crate::games::{ALIKE, CROSSED, NEIGHBOURS, NEVER, ONE_TYPE, TWO_TYPES, UNEVEN};
use crate::runs::{has_whole, is_done, start};
use sg_dobss::Listed;
use sg_dobss_tests::listed_of;
use sg_dual::{Part, dual_of, point_of};
use sg_file::read_game;
use sg_simplex::Node;
use std::alloc::Global;
use std::test::Fail;

/// Plays, each with its weight.
type Shares = &'static [(&'static [u16], i128)];

/// A node of a game, by the first type that it fixes and the actions from it on; its multipliers at the end, and its point.
struct Case {
    game: &'static str,
    first: u8,
    acts: &'static [u16],
    rho: i128,
    y: &'static [i128],
    point: Shares,
}

/// The games of rows.
static ROWS: [Case; 5] = [
    Case {
        game: ONE_TYPE,
        first: 1,
        acts: &[1],
        rho: 1,
        y: &[2, 0],
        point: &[(&[1], 1)],
    },
    Case {
        game: ONE_TYPE,
        first: 1,
        acts: &[2],
        rho: 3,
        y: &[11, 1],
        point: &[(&[2], 1), (&[1], 2)],
    },
    Case {
        game: NEVER,
        first: 1,
        acts: &[2],
        rho: 1,
        y: &[0, 1],
        point: &[],
    },
    Case {
        game: ALIKE,
        first: 1,
        acts: &[1],
        rho: 1,
        y: &[1, 0],
        point: &[(&[1], 1)],
    },
    Case {
        game: ALIKE,
        first: 1,
        acts: &[2],
        rho: 1,
        y: &[3, 0],
        point: &[(&[2], 1), (&[1], 1)],
    },
];

/// Two types.
static TYPES: [Case; 4] = [
    Case {
        game: TWO_TYPES,
        first: 2,
        acts: &[1],
        rho: 3,
        y: &[5, 1],
        point: &[(&[2], 1), (&[1], 2)],
    },
    Case {
        game: TWO_TYPES,
        first: 2,
        acts: &[2],
        rho: 1,
        y: &[4, 0],
        point: &[(&[1], 1)],
    },
    Case {
        game: TWO_TYPES,
        first: 1,
        acts: &[2, 1],
        rho: 3,
        y: &[16, 0, 2],
        point: &[(&[2], 1), (&[1], 2)],
    },
    Case {
        game: TWO_TYPES,
        first: 1,
        acts: &[2, 2],
        rho: 3,
        y: &[22, 2, 0],
        point: &[(&[2], 1), (&[1], 2)],
    },
];

/// Joint schedules.
static SCHEDULES: [Case; 5] = [
    Case {
        game: CROSSED,
        first: 1,
        acts: &[1],
        rho: 4,
        y: &[7, 1, 1, 1],
        point: &[(&[1, 1], 1), (&[2, 2], 1), (&[1, 2], 1), (&[2, 1], 1)],
    },
    Case {
        game: CROSSED,
        first: 1,
        acts: &[4],
        rho: 4,
        y: &[7, 1, 1, 1],
        point: &[(&[1, 2], 1), (&[1, 1], 1), (&[2, 1], 1), (&[2, 2], 1)],
    },
    Case {
        game: NEIGHBOURS,
        first: 1,
        acts: &[1],
        rho: 2,
        y: &[3, 0, 1],
        point: &[(&[2], 1), (&[1], 1)],
    },
    Case {
        game: NEIGHBOURS,
        first: 1,
        acts: &[2],
        rho: 1,
        y: &[1, 1, 1],
        point: &[(&[0], 1)],
    },
    Case {
        game: NEIGHBOURS,
        first: 1,
        acts: &[3],
        rho: 2,
        y: &[3, 1, 0],
        point: &[(&[1], 1), (&[2], 1)],
    },
];

/// The game of uneven payoffs.
static FAR_APART: [Case; 1] = [Case {
    game: UNEVEN,
    first: 1,
    acts: &[1],
    rho: 45444552472664941188714089,
    y: &[
        1499204154496585998658779249,
        405708542175541869233,
        0,
        466077101357060568785688,
        55393718470057075,
        32911535624007631179409,
        0,
    ],
    point: &[
        (&[1], 1311285214860263214),
        (&[4], 27220903875938397108953),
        (&[2], 590584733114929893396370716),
        (&[7], 17503745855505338),
        (&[5], 167226797049442944034936),
    ],
}];

/// Whether a part is this play with this weight.
fn is_part(part: &Part, play: &[u16], weight: i128) -> bool {
    if part.weight != weight || part.col.len as usize != play.len() {
        return false;
    }
    for i in 0..32 {
        let choice = match play.get(i) {
            Some(choice) => *choice,
            None => 0,
        };
        if part.col.code[i] != choice {
            return false;
        }
    }
    true
}

/// Whether these are the parts.
fn are_parts(parts: &[Part], point: &[(&[u16], i128)]) -> bool {
    if parts.len() != point.len() {
        return false;
    }
    for i in 0..parts.len() {
        match point.get(i) {
            Some((play, weight)) if is_part(&parts[i], play, *weight) => {}
            _ => return false,
        }
    }
    true
}

/// Whether a node that is done has these multipliers and this point.
fn has_end(alloc: Global, node: &Node<Listed<'_>>, case: &Case) -> bool
    requires { IsFinal (plays_program node.now.family.game node.now.family.fix) node.now.tableau }
{
    let dual = dual_of(node);
    if dual.rho != case.rho || dual.y != case.y {
        return false;
    }
    if !has_whole(node) {
        return case.point.is_empty();
    }
    match point_of(alloc, node) {
        Ok(parts) => are_parts(parts.as_slice(), case.point),
        Err(_) => false,
    }
}

/// Whether the run of a family ends so.
fn ends_so(alloc: Global, listed: Listed<'_>, case: &Case) -> Result<bool, Fail> {
    match start(alloc, listed)? {
        Some(node) => {
            let mut node = node;
            if is_done(&mut node) {
                Ok(has_end(alloc, &node, case))
            } else {
                Ok(false)
            }
        }
        None => Ok(false),
    }
}

/// Whether the case comes out.
fn is_met(alloc: Global, case: &Case) -> Result<bool, Fail> {
    let game = read_game(alloc, case.game.as_bytes())?;
    match listed_of(alloc, &game, case.first, case.acts)? {
        Some(listed) => ends_so(alloc, listed, case),
        None => Ok(false),
    }
}

/// Whether all of these do.
fn are_met(alloc: Global, cases: &[Case]) -> Result<bool, Fail> {
    for case in cases {
        if !is_met(alloc, case)? {
            return Ok(false);
        }
    }
    Ok(true)
}

#[test]
fn final_states_give_multipliers_and_points(rt: HostRuntime) -> Result<(), Fail> {
    assert!(rt; are_met(rt.alloc(), &ROWS)?);
    assert!(rt; are_met(rt.alloc(), &TYPES)?);
    assert!(rt; are_met(rt.alloc(), &SCHEDULES)?);
    assert!(rt; are_met(rt.alloc(), &FAR_APART)?);
    Ok(())
}
