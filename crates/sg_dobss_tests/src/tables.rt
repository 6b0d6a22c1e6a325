//! Columns, costs and entries of small games, worked out by hand.
ghost use Rattle.std.specs.Prelude.{◌≡◌, pos};

use crate::games::{LINE, ONE_PLAYER, SQUARE, TWO_PLAYERS};
use crate::{cost_of, entry_of, listed_of};
use sg_dobss::Listed;
use sg_file::read_game;
use sg_game::Game;
use sg_lp::Family;
use std::alloc::Global;
use std::test::Fail;

/// A play, its cost, and its entries by row.
type Column = (&'static [u16], i64, &'static [i64]);

/// A game, a node of it by the first type and the actions, and its columns.
struct Case {
    game: &'static str,
    first: u8,
    acts: &'static [u16],
    columns: &'static [Column],
}

/// The two rows of matrix games.
static OF_ROWS: [Case; 4] = [
    Case {
        game: ONE_PLAYER,
        first: 1,
        acts: &[1],
        columns: &[(&[1], 2, &[1, -1]), (&[2], 1, &[1, 2])],
    },
    Case {
        game: ONE_PLAYER,
        first: 1,
        acts: &[2],
        columns: &[(&[1], 4, &[1, 1]), (&[2], 3, &[1, -2])],
    },
    Case {
        game: TWO_PLAYERS,
        first: 1,
        acts: &[2, 2],
        columns: &[(&[1], 8, &[1, 1, -1]), (&[2], 6, &[1, -2, 2])],
    },
    Case {
        game: TWO_PLAYERS,
        first: 2,
        acts: &[1],
        columns: &[(&[1], 2, &[1, 1]), (&[2], 1, &[1, -2])],
    },
];

/// Joint schedules; covered targets pay the thief nothing, others 1.
static OF_SCHEDULES: [Case; 2] = [
    Case {
        game: SQUARE,
        first: 1,
        acts: &[1],
        columns: &[
            (&[0, 0], 1, &[1, 0, 0, 0]),
            (&[0, 1], 2, &[1, 1, 0, 1]),
            (&[0, 2], 1, &[1, -1, 0, -1]),
            (&[1, 0], 2, &[1, 0, 1, 1]),
            (&[1, 1], 2, &[1, 0, 0, 1]),
            (&[1, 2], 2, &[1, 0, 1, 0]),
            (&[2, 0], 1, &[1, 0, -1, -1]),
            (&[2, 1], 2, &[1, 1, 0, 0]),
            (&[2, 2], 1, &[1, -1, -1, -1]),
        ],
    },
    Case {
        game: LINE,
        first: 1,
        acts: &[2],
        columns: &[
            (&[0], 1, &[1, 0, 0]),
            (&[1], 2, &[1, 0, 1]),
            (&[2], 2, &[1, 1, 0]),
        ],
    },
];

/// Whether a play has that cost and those entries, and no more rows.
fn is_column(game: &Game, listed: &Listed, column: Column) -> bool
    requires game { listed.now.game ≡ game.now }
    requires unscaled { game.now.scale ≡ pos 0 }
{
    let (play, cost, entries) = column;
    if cost_of(game, listed, play) != Some(cost) || listed.rows() != entries.len() {
        return false;
    }
    for row in 0..entries.len() {
        if entry_of(game, listed, play, row) != Some(entries[row]) {
            return false;
        }
    }
    true
}

/// The first column, counted from 0, that is otherwise.
fn first_wrong_column(game: &Game, listed: &Listed, columns: &[Column]) -> Option<usize>
    requires game { listed.now.game ≡ game.now }
    requires unscaled { game.now.scale ≡ pos 0 }
{
    for k in 0..columns.len() {
        if !is_column(game, listed, columns[k]) {
            return Some(k);
        }
    }
    None
}

/// Whether the family of a node has these columns.
fn is_right(alloc: Global, case: &Case) -> Result<bool, Fail> {
    let game = read_game(alloc, case.game.as_bytes())?;
    let listed = listed_of(alloc, &game, case.first, case.acts)?.ok_or("no such node")?;
    Ok(first_wrong_column(&game, &listed, case.columns) == None)
}

/// The first case, counted from 0, that is otherwise.
fn first_wrong(alloc: Global, cases: &[Case]) -> Result<Option<usize>, Fail> {
    for k in 0..cases.len() {
        if !is_right(alloc, &cases[k])? {
            return Ok(Some(k));
        }
    }
    Ok(None)
}

#[test]
fn columns(rt: HostRuntime) -> Result<(), Fail> {
    assert_eq!(rt; first_wrong(rt.alloc(), OF_ROWS.as_slice())?, None);
    assert_eq!(rt; first_wrong(rt.alloc(), OF_SCHEDULES.as_slice())?, None);
    Ok(())
}
