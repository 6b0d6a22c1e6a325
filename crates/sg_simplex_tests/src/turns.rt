//! Small programs, turn by turn. Each state was worked out by solving the equations of its basis over fractions, which shares nothing with the
//! method of the program.
use crate::running::{Columns, Member, Stand, first_wrong_turn, rows_of, table_of};
use sg_pool::Pool;
use sg_simplex::{Node, Turn};
use std::alloc::Global;
use std::test::Fail;

/// A program and its run, from the first turn on.
struct Case {
    height: usize,
    columns: Columns,
    stands: &'static [Stand],
}

/// The two rows of a game of one player, whose second action is fixed.
static TWO_ROWS: Case = Case {
    height: 2,
    columns: &[(4, &[1, 1]), (3, &[1, -2])],
    stands: &[
        Stand {
            turn: Turn::Moved,
            basis: &[Member::Slack(0), Member::Column(0)],
            rows: &[&[1, -1], &[0, 1]],
            y: &[0, 4],
            rho: 1,
        },
        Stand {
            turn: Turn::Moved,
            basis: &[Member::Column(1), Member::Column(0)],
            rows: &[&[1, -1], &[2, 1]],
            y: &[11, 1],
            rho: 3,
        },
        Stand {
            turn: Turn::Done,
            basis: &[Member::Column(1), Member::Column(0)],
            rows: &[&[1, -1], &[2, 1]],
            y: &[11, 1],
            rho: 3,
        },
        Stand {
            turn: Turn::Done,
            basis: &[Member::Column(1), Member::Column(0)],
            rows: &[&[1, -1], &[2, 1]],
            y: &[11, 1],
            rho: 3,
        },
    ],
};

/// One row: each column that enters takes the place of the one before.
static ONE_ROW: Case = Case {
    height: 1,
    columns: &[(5, &[2]), (9, &[3]), (3, &[1])],
    stands: &[
        Stand {
            turn: Turn::Moved,
            basis: &[Member::Column(0)],
            rows: &[&[1]],
            y: &[5],
            rho: 2,
        },
        Stand {
            turn: Turn::Moved,
            basis: &[Member::Column(1)],
            rows: &[&[1]],
            y: &[3],
            rho: 1,
        },
        Stand {
            turn: Turn::Done,
            basis: &[Member::Column(1)],
            rows: &[&[1]],
            y: &[3],
            rho: 1,
        },
        Stand {
            turn: Turn::Done,
            basis: &[Member::Column(1)],
            rows: &[&[1]],
            y: &[3],
            rho: 1,
        },
    ],
};

/// The greatest cost is 0, and a column enters all the same.
static NOTHING_GAINED: Case = Case {
    height: 2,
    columns: &[(1, &[1, 1])],
    stands: &[
        Stand {
            turn: Turn::Moved,
            basis: &[Member::Slack(0), Member::Column(0)],
            rows: &[&[1, -1], &[0, 1]],
            y: &[0, 1],
            rho: 1,
        },
        Stand {
            turn: Turn::Done,
            basis: &[Member::Slack(0), Member::Column(0)],
            rows: &[&[1, -1], &[0, 1]],
            y: &[0, 1],
            rho: 1,
        },
        Stand {
            turn: Turn::Done,
            basis: &[Member::Slack(0), Member::Column(0)],
            rows: &[&[1, -1], &[0, 1]],
            y: &[0, 1],
            rho: 1,
        },
    ],
};

/// A slack leaves, and enters again.
static SLACK_AGAIN: Case = Case {
    height: 2,
    columns: &[(1, &[1, 1]), (3, &[1, -1])],
    stands: &[
        Stand {
            turn: Turn::Moved,
            basis: &[Member::Slack(0), Member::Column(0)],
            rows: &[&[1, -1], &[0, 1]],
            y: &[0, 1],
            rho: 1,
        },
        Stand {
            turn: Turn::Moved,
            basis: &[Member::Column(1), Member::Column(0)],
            rows: &[&[1, -1], &[1, 1]],
            y: &[2, -1],
            rho: 1,
        },
        Stand {
            turn: Turn::Moved,
            basis: &[Member::Column(1), Member::Slack(1)],
            rows: &[&[1, 0], &[1, 1]],
            y: &[3, 0],
            rho: 1,
        },
        Stand {
            turn: Turn::Done,
            basis: &[Member::Column(1), Member::Slack(1)],
            rows: &[&[1, 0], &[1, 1]],
            y: &[3, 0],
            rho: 1,
        },
        Stand {
            turn: Turn::Done,
            basis: &[Member::Column(1), Member::Slack(1)],
            rows: &[&[1, 0], &[1, 1]],
            y: &[3, 0],
            rho: 1,
        },
    ],
};

/// Three rows whose lists have equal first places, three times; a slack enters again.
static EQUAL_FIRST_PLACES: Case = Case {
    height: 4,
    columns: &[(4, &[1, 1, 1, 2]), (3, &[1, 1, 2, 1]), (4, &[1, 0, 2, -1])],
    stands: &[
        Stand {
            turn: Turn::Moved,
            basis: &[
                Member::Slack(0),
                Member::Slack(1),
                Member::Slack(2),
                Member::Column(0),
            ],
            rows: &[
                &[2, 0, 0, -1],
                &[0, 2, 0, -1],
                &[0, 0, 2, -1],
                &[0, 0, 0, 1],
            ],
            y: &[0, 0, 0, 2],
            rho: 1,
        },
        Stand {
            turn: Turn::Moved,
            basis: &[
                Member::Slack(0),
                Member::Slack(1),
                Member::Slack(2),
                Member::Column(1),
            ],
            rows: &[
                &[1, 0, 0, -1],
                &[0, 1, 0, -1],
                &[0, 0, 1, -2],
                &[0, 0, 0, 1],
            ],
            y: &[0, 0, 0, 3],
            rho: 1,
        },
        Stand {
            turn: Turn::Moved,
            basis: &[
                Member::Slack(0),
                Member::Slack(1),
                Member::Column(2),
                Member::Column(1),
            ],
            rows: &[
                &[2, 0, -1, 0],
                &[0, 4, -1, -2],
                &[0, 0, 1, -2],
                &[0, 0, 1, 2],
            ],
            y: &[0, 0, 7, -2],
            rho: 4,
        },
        Stand {
            turn: Turn::Moved,
            basis: &[
                Member::Slack(0),
                Member::Slack(1),
                Member::Column(2),
                Member::Slack(3),
            ],
            rows: &[&[2, 0, -1, 0], &[0, 1, 0, 0], &[0, 0, 1, 0], &[0, 0, 1, 2]],
            y: &[0, 0, 2, 0],
            rho: 1,
        },
        Stand {
            turn: Turn::Moved,
            basis: &[
                Member::Slack(0),
                Member::Slack(1),
                Member::Column(2),
                Member::Column(0),
            ],
            rows: &[
                &[5, 0, -3, -1],
                &[0, 5, -1, -2],
                &[0, 0, 2, -1],
                &[0, 0, 1, 2],
            ],
            y: &[0, 0, 12, 4],
            rho: 5,
        },
        Stand {
            turn: Turn::Done,
            basis: &[
                Member::Slack(0),
                Member::Slack(1),
                Member::Column(2),
                Member::Column(0),
            ],
            rows: &[
                &[5, 0, -3, -1],
                &[0, 5, -1, -2],
                &[0, 0, 2, -1],
                &[0, 0, 1, 2],
            ],
            y: &[0, 0, 12, 4],
            rho: 5,
        },
        Stand {
            turn: Turn::Done,
            basis: &[
                Member::Slack(0),
                Member::Slack(1),
                Member::Column(2),
                Member::Column(0),
            ],
            rows: &[
                &[5, 0, -3, -1],
                &[0, 5, -1, -2],
                &[0, 0, 2, -1],
                &[0, 0, 1, 2],
            ],
            y: &[0, 0, 12, 4],
            rho: 5,
        },
    ],
};

/// The first turn of a case, counted from 0, that is otherwise.
fn first_wrong(alloc: Global, case: &Case) -> Result<Option<usize>, Fail> {
    let height = rows_of(case.height).ok_or("too many rows, or none")?;
    let mut pool = Pool::new(alloc, height, height + 1)?;
    let table = table_of(alloc, height, case.columns)?.ok_or("no table")?;
    let mut node = Node::start(alloc, table, 100, 100, &mut pool)?;
    Ok(first_wrong_turn(&mut node, case.stands))
}

/// Whether all turns of a case are as they should be.
fn is_right(alloc: Global, case: &Case) -> Result<bool, Fail> {
    Ok(first_wrong(alloc, case)? == None)
}

#[test]
fn turns(rt: HostRuntime) -> Result<(), Fail> {
    assert!(rt; is_right(rt.alloc(), &TWO_ROWS)?);
    assert!(rt; is_right(rt.alloc(), &ONE_ROW)?);
    assert!(rt; is_right(rt.alloc(), &NOTHING_GAINED)?);
    assert!(rt; is_right(rt.alloc(), &SLACK_AGAIN)?);
    assert!(rt; is_right(rt.alloc(), &EQUAL_FIRST_PLACES)?);
    Ok(())
}
