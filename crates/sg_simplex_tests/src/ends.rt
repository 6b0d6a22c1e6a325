//! How runs end, by their budgets and by the first value that doesn't fit 128 bits, worked out by hand.
ghost use Rattle.std.specs.Prelude.{◌≡◌};

use crate::Table;
use crate::running::{Columns, end_of, rows_of, table_of};
use sg_num::{Op, Wide};
use sg_pool::Pool;
use sg_simplex::{Node, Turn};
use std::alloc::Global;
use std::test::Fail;

/// A program, how many moves and looks may be, how many moves are made, and the answer behind them.
struct Case {
    height: usize,
    columns: Columns,
    pivots: u64,
    looks: u64,
    moves: u64,
    end: Turn,
}

/// The two rows of a game of one player, whose second action is fixed: two moves to the end, and six bases.
const TWO_ROWS: Columns = &[(4, &[1, 1]), (3, &[1, -2])];

/// Two moves to the end, where three columns are tested.
const THREE_COLUMNS: Columns = &[(4, &[1, 1]), (3, &[1, -2]), (2, &[1, 0])];

const TOP: i64 = 2147483648; // 2^31

const HUGE: i128 = 21267647932558653966460912964485513216; // 2^124

/// After four moves the list of row 5 is 0, 2^124, 2^93, 2^62, 2^31, 1, and the fifth column has -9 in row 1.
const LONG_PRODUCTS: Columns = &[
    (1, &[1, 1, -TOP, 0, 0, 0]),
    (1, &[1, 0, 1, -TOP, 0, 0]),
    (1, &[1, 0, 0, 1, -TOP, 0]),
    (1, &[1, 0, 0, 0, 1, -TOP]),
    (1, &[1, -9, 0, 0, 0, 0]),
];

/// The same list in row 5; the fifth column has 1 there and -2^31 in row 6, whose list is to become -(-2^31) times it.
const LONG_COMBINATION: Columns = &[
    (1, &[1, 1, -TOP, 0, 0, 0, 0]),
    (1, &[1, 0, 1, -TOP, 0, 0, 0]),
    (1, &[1, 0, 0, 1, -TOP, 0, 0]),
    (1, &[1, 0, 0, 0, 1, -TOP, 0]),
    (1, &[1, 0, 0, 0, 0, 1, -TOP]),
];

/// After five moves the multiplier of row 1 is 1 + 2^31 + 2^62 + 2^93 + 2^124, and the sixth column has 9 there.
const LONG_PRICE: Columns = &[
    (1, &[1, 1, -TOP, 0, 0, 0]),
    (1, &[1, 0, 1, -TOP, 0, 0]),
    (1, &[1, 0, 0, 1, -TOP, 0]),
    (1, &[1, 0, 0, 0, 1, -TOP]),
    (1, &[1, 0, 0, 0, 0, 1]),
    (1, &[1, 9, 0, 0, 0, 0]),
];

/// Ends by budgets.
static BUDGETS: [Case; 5] = [
    Case {
        height: 2,
        columns: TWO_ROWS,
        pivots: 1,
        looks: 100,
        moves: 1,
        end: Turn::PivotsSpent,
    },
    Case {
        height: 2,
        columns: TWO_ROWS,
        pivots: 2,
        looks: 100,
        moves: 2,
        end: Turn::Done,
    },
    Case {
        height: 2,
        columns: TWO_ROWS,
        pivots: 6,
        looks: 2,
        moves: 2,
        end: Turn::Done,
    },
    Case {
        height: 2,
        columns: THREE_COLUMNS,
        pivots: 100,
        looks: 2,
        moves: 2,
        end: Turn::LooksSpent,
    },
    Case {
        height: 2,
        columns: THREE_COLUMNS,
        pivots: 100,
        looks: 3,
        moves: 2,
        end: Turn::Done,
    },
];

/// Ends where budgets come together: pricing is asked before the moves are counted, unless a slack enters.
static ORDERS: [Case; 5] = [
    Case {
        height: 2,
        columns: TWO_ROWS,
        pivots: 1,
        looks: 1,
        moves: 1,
        end: Turn::LooksSpent,
    },
    Case {
        height: 2,
        columns: TWO_ROWS,
        pivots: 0,
        looks: 0,
        moves: 0,
        end: Turn::LooksSpent,
    },
    Case {
        height: 2,
        columns: TWO_ROWS,
        pivots: 0,
        looks: 1,
        moves: 0,
        end: Turn::PivotsSpent,
    },
    Case {
        height: 2,
        columns: &[(1, &[1, 1]), (3, &[1, -1])],
        pivots: 2,
        looks: 2,
        moves: 2,
        end: Turn::PivotsSpent,
    },
    Case {
        height: 6,
        columns: LONG_PRODUCTS,
        pivots: 4,
        looks: 100,
        moves: 4,
        end: Turn::PivotsSpent,
    },
];

/// Ends by a value that doesn't fit.
static MISFITS: [Case; 4] = [
    Case {
        height: 6,
        columns: LONG_PRODUCTS,
        pivots: 100,
        looks: 100,
        moves: 4,
        end: Turn::Wide(
            2,
            Wide {
                op: Op::Times,
                left: HUGE,
                right: -9,
            },
        ),
    },
    Case {
        height: 7,
        columns: LONG_COMBINATION,
        pivots: 100,
        looks: 100,
        moves: 4,
        end: Turn::Wide(
            3,
            Wide {
                op: Op::Times,
                left: -2147483648,
                right: HUGE,
            },
        ),
    },
    Case {
        height: 6,
        columns: LONG_PRICE,
        pivots: 100,
        looks: 100,
        moves: 5,
        end: Turn::Wide(
            2,
            Wide {
                op: Op::Times,
                left: 21267647942462174285355641184253378561,
                right: 9,
            },
        ),
    },
    Case {
        height: 6,
        columns: LONG_PRICE,
        pivots: 100,
        looks: 5,
        moves: 5,
        end: Turn::LooksSpent,
    },
];

/// Whether a node makes so many moves and then answers so, now and again.
fn ends_so(node: &mut Node<Table>, case: &Case) -> bool {
    let (moves, end) = end_of(node);
    if moves != case.moves || end != case.end || node.steps() != case.moves {
        return false;
    }
    node.turn() == case.end && node.turn() == case.end && node.steps() == case.moves
}

/// Whether a run ends as it should.
fn is_right(alloc: Global, case: &Case) -> Result<bool, Fail> {
    let height = rows_of(case.height).ok_or("too many rows, or none")?;
    let mut pool = Pool::new(alloc, height, height + 1)?;
    let table = table_of(alloc, height, case.columns)?.ok_or("no table")?;
    let mut node = Node::start(alloc, table, case.pivots, case.looks, &mut pool)?;
    Ok(ends_so(&mut node, case))
}

/// The first case, counted from 0, that ends otherwise.
fn first_wrong(alloc: Global, cases: &[Case]) -> Result<Option<usize>, Fail> {
    for k in 0..cases.len() {
        if !is_right(alloc, &cases[k])? {
            return Ok(Some(k));
        }
    }
    Ok(None)
}

#[test]
fn ends_by_budgets(rt: HostRuntime) -> Result<(), Fail> {
    assert_eq!(rt; first_wrong(rt.alloc(), BUDGETS.as_slice())?, None);
    assert_eq!(rt; first_wrong(rt.alloc(), ORDERS.as_slice())?, None);
    Ok(())
}

#[test]
fn ends_by_misfits(rt: HostRuntime) -> Result<(), Fail> {
    assert_eq!(rt; first_wrong(rt.alloc(), MISFITS.as_slice())?, None);
    Ok(())
}
