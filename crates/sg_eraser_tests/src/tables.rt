//! Columns, costs and entries of small games, worked out by hand.
use crate::games::{LINE, ONE_GUARD, ONE_PATROL, TWO_THIEVES, UNGUARDED};
use crate::{cost_of, cover_of, entry_of};
use sg_eraser::Cover;
use sg_file::read_game;
use sg_lp::Family;
use std::alloc::Global;
use std::test::Fail;

/// A cost, and the entries by row.
type Column = (i64, &'static [i64]);

/// A game, a node of it by the first type and the targets, and its columns in order.
struct Case {
    game: &'static str,
    first: u8,
    acts: &'static [u16],
    columns: &'static [Column],
}

/// One target: the whole, the choice, the target.
static OF_ONE: [Case; 2] = [
    Case {
        game: ONE_GUARD,
        first: 1,
        acts: &[1],
        columns: &[
            (1, &[1, -1, 0, -1]),
            (0, &[0, 1, -1, 0]),
            (2, &[0, 0, 1, 1]),
        ],
    },
    Case {
        game: ONE_PATROL,
        first: 1,
        acts: &[1],
        columns: &[
            (1, &[1, -1, 0, -1]),
            (0, &[0, 1, -1, 0]),
            (2, &[0, 0, 1, 1]),
        ],
    },
];

/// Two types: both fixed, and the second alone.
static OF_THIEVES: [Case; 2] = [
    Case {
        game: TWO_THIEVES,
        first: 1,
        acts: &[1, 2],
        columns: &[
            (26, &[1, -1, -1, 0, 0, -1, -1, -2, -3]),
            (0, &[0, 1, 0, 0, -1, 0, 0, 0, 0]),
            (0, &[0, 0, 1, -1, 0, 0, 0, 0, 0]),
            (0, &[0, 0, 1, 0, -1, 0, 0, 0, 0]),
            (8, &[0, 0, 0, 1, 0, 1, 0, 5, -4]),
            (15, &[0, 0, 0, 0, 1, 0, 1, -4, 6]),
        ],
    },
    Case {
        game: TWO_THIEVES,
        first: 2,
        acts: &[1],
        columns: &[
            (27, &[1, -1, -1, 0, 0, -1, -1, 3]),
            (0, &[0, 1, 0, 0, -1, 0, 0, 0]),
            (0, &[0, 0, 1, -1, 0, 0, 0, 0]),
            (0, &[0, 0, 1, 0, -1, 0, 0, 0]),
            (3, &[0, 0, 0, 1, 0, 1, 0, 4]),
            (0, &[0, 0, 0, 0, 1, 0, 1, -6]),
        ],
    },
];

/// Schedules of two targets, and no resource at all.
static OF_OTHERS: [Case; 2] = [
    Case {
        game: LINE,
        first: 1,
        acts: &[2],
        columns: &[
            (1, &[1, -1, 0, 0, 0, -1, -1, -1, 0, 0]),
            (0, &[0, 1, -1, -1, 0, 0, 0, 0, 0, 0]),
            (0, &[0, 1, 0, -1, -1, 0, 0, 0, 0, 0]),
            (0, &[0, 0, 1, 0, 0, 1, 0, 0, -1, 0]),
            (1, &[0, 0, 0, 1, 0, 0, 1, 0, 1, 1]),
            (0, &[0, 0, 0, 0, 1, 0, 0, 1, 0, -1]),
        ],
    },
    Case {
        game: UNGUARDED,
        first: 1,
        acts: &[2],
        columns: &[
            (1, &[1, 0, 0, -1, -1, -2]),
            (0, &[0, 1, 0, 1, 0, -1]),
            (2, &[0, 0, 1, 0, 1, 3]),
        ],
    },
];

/// Whether the column of a number has that cost and those entries, and no more rows.
fn is_column(cover: &Cover, n: u16, column: Column) -> bool {
    let (cost, entries) = column;
    if cost_of(cover, n) != Some(cost) || cover.rows() != entries.len() {
        return false;
    }
    for row in 0..entries.len() {
        if entry_of(cover, n, row) != Some(entries[row]) {
            return false;
        }
    }
    true
}

/// Whether these are the columns.
fn are_columns(cover: &Cover, columns: &[Column]) -> bool {
    if cover.count() != columns.len() || columns.len() > 1000 {
        return false;
    }
    for k in 0..columns.len() {
        if !is_column(cover, k as u16 + 1, columns[k]) {
            return false;
        }
    }
    true
}

/// Whether the family of a node has these columns.
fn is_right(alloc: Global, case: &Case) -> Result<bool, Fail> {
    let game = read_game(alloc, case.game.as_bytes())?;
    let cover = cover_of(alloc, &game, case.first, case.acts)?.ok_or("no such node")?;
    Ok(are_columns(&cover, case.columns))
}

/// The first case, counted from 0, that is otherwise.
fn first_wrong(alloc: Global, cases: &[Case]) -> Result<Option<usize>, Fail> {
    for k in 0..cases.len() {
        if !is_right(alloc, &cases[k])? {
            return Ok(Some(k));
        }
    }
    Ok(None)
}

#[test]
fn columns(rt: HostRuntime) -> Result<(), Fail> {
    assert_eq!(rt; first_wrong(rt.alloc(), OF_ONE.as_slice())?, None);
    assert_eq!(rt; first_wrong(rt.alloc(), OF_THIEVES.as_slice())?, None);
    assert_eq!(rt; first_wrong(rt.alloc(), OF_OTHERS.as_slice())?, None);
    Ok(())
}
