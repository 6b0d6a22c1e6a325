//! Nodes that are closed: their facts and commitments.
use crate::games::{CROSSED, NEVER, ONE_TYPE, TWO_TYPES, UNEVEN};
use crate::nodes::{Budgets, outcome_of};
use sg_commit::{Commitment, Ticket};
use sg_file::read_game;
use sg_tree::{Fact, Mark};
use sg_work::Ended;
use std::alloc::Global;
use std::test::Fail;

/// A node of a game, by the first type that it fixes and the actions from it on; the fact that closes it, with its marks by type and action, and
/// the tickets of its commitment, if its region isn't empty.
struct Case {
    game: &'static str,
    first: u8,
    acts: &'static [u16],
    rho: i128,
    mu: i128,
    marks: &'static [(u8, u16, i128)],
    point: &'static [(&'static [u16], i128)],
}

/// Rows, against one type and against two.
static ROWS: [Case; 5] = [
    Case {
        game: ONE_TYPE,
        first: 1,
        acts: &[1],
        rho: 1,
        mu: 2,
        marks: &[],
        point: &[(&[1], 1)],
    },
    Case {
        game: ONE_TYPE,
        first: 1,
        acts: &[2],
        rho: 3,
        mu: 11,
        marks: &[(1, 1, 1)],
        point: &[(&[1], 2), (&[2], 1)],
    },
    Case {
        game: NEVER,
        first: 1,
        acts: &[2],
        rho: 1,
        mu: 0,
        marks: &[(1, 1, 1)],
        point: &[],
    },
    Case {
        game: TWO_TYPES,
        first: 2,
        acts: &[1],
        rho: 3,
        mu: 5,
        marks: &[(2, 2, 1)],
        point: &[(&[1], 2), (&[2], 1)],
    },
    Case {
        game: TWO_TYPES,
        first: 1,
        acts: &[2, 1],
        rho: 3,
        mu: 16,
        marks: &[(2, 2, 2)],
        point: &[(&[1], 2), (&[2], 1)],
    },
];

/// Joint schedules, and uneven payoffs.
static LARGER: [Case; 2] = [
    Case {
        game: CROSSED,
        first: 1,
        acts: &[4],
        rho: 4,
        mu: 7,
        marks: &[(1, 1, 1), (1, 2, 1), (1, 3, 1)],
        point: &[(&[1, 1], 1), (&[1, 2], 1), (&[2, 1], 1), (&[2, 2], 1)],
    },
    Case {
        game: UNEVEN,
        first: 1,
        acts: &[1],
        rho: 45444552472664941188714089,
        mu: 1499204154496585998658779249,
        marks: &[
            (1, 2, 405708542175541869233),
            (1, 4, 466077101357060568785688),
            (1, 5, 55393718470057075),
            (1, 6, 32911535624007631179409),
        ],
        point: &[
            (&[1], 1311285214860263214),
            (&[2], 590584733114929893396370716),
            (&[4], 27220903875938397108953),
            (&[5], 167226797049442944034936),
            (&[7], 17503745855505338),
        ],
    },
];

/// Whether these are the marks.
fn are_marks(marks: &[Mark], wanted: &[(u8, u16, i128)]) -> bool {
    if marks.len() != wanted.len() {
        return false;
    }
    for i in 0..marks.len() {
        match wanted.get(i) {
            Some((l, a, v)) if marks[i].l == *l && marks[i].a == *a && marks[i].v == *v => {}
            _ => return false,
        }
    }
    true
}

/// Whether these are the tickets.
fn are_tickets(tickets: &[Ticket], wanted: &[(&[u16], i128)]) -> bool {
    if tickets.len() != wanted.len() {
        return false;
    }
    for i in 0..tickets.len() {
        match wanted.get(i) {
            Some((code, weight))
                if tickets[i].play.code.as_slice() == *code && tickets[i].weight == *weight => {}
            _ => return false,
        }
    }
    true
}

/// Whether this is the fact.
fn is_fact(fact: &Fact, case: &Case) -> bool {
    match fact {
        Fact::Plays { rho, mu, marks } => {
            *rho == case.rho && *mu == case.mu && are_marks(marks.as_slice(), case.marks)
        }
        _ => false,
    }
}

/// Whether this is the commitment.
fn is_point(point: &Option<Commitment>, case: &Case) -> bool {
    match point {
        Some(k) => are_tickets(k.tickets(), case.point),
        None => case.point.is_empty(),
    }
}

/// Whether the case comes out.
fn is_met(alloc: Global, case: &Case) -> Result<bool, Fail> {
    let game = read_game(alloc, case.game.as_bytes())?;
    let budgets = Budgets {
        pivots: 1000,
        looks: 100000,
    };
    match outcome_of(alloc, &game, case.first, case.acts, budgets)? {
        Some(Ended::Worked(fact, point)) => Ok(is_fact(&fact, case) && is_point(&point, case)),
        _ => Ok(false),
    }
}

/// Whether all of these do.
fn are_met(alloc: Global, cases: &[Case]) -> Result<bool, Fail> {
    for case in cases {
        if !is_met(alloc, case)? {
            return Ok(false);
        }
    }
    Ok(true)
}

#[test]
fn closed_nodes_give_facts_and_commitments(rt: HostRuntime) -> Result<(), Fail> {
    assert!(rt; are_met(rt.alloc(), &ROWS)?);
    assert!(rt; are_met(rt.alloc(), &LARGER)?);
    Ok(())
}
