//! The family of a node's coverage table: what it says of a column, and what its pricing answers.

ghost use Rattle.std.specs.Prelude.{◌≡◌, IfOk, IfSome, pos};

use sg_dobss_tests::node_of;
use sg_eraser::{Cover, numbered};
use sg_game::{Game, Kind};
use sg_lp::{Column, Family, Priced};
use sg_programs::columns_are_table;
use std::alloc::{AllocError, Global};

/// The family of the node that fixes the types from `first` on to these targets; `None` where the game has no such node, a scale, or the matrix form.
pub fn cover_of<'a>(
    alloc: Global,
    game: &'a Game,
    first: u8,
    acts: &[u16],
) -> Result<Option<Cover<'a>>, AllocError>
    ensures { IfOk result (λ cover. IfSome cover (λ c. c.game ≡ game.now)) }
{
    if game.scale() != 0 {
        return Ok(None);
    }
    match game.kind() {
        Kind::Matrix => Ok(None),
        Kind::Security => match node_of(alloc, game, first, acts)? {
            Some(fix) => Ok(Some(Cover::new(alloc, game, &fix)?)),
            None => Ok(None),
        },
    }
}

/// What the column of a number costs; `None` where there is none.
pub fn cost_of(cover: &Cover, n: u16) -> Option<i64> {
    if n == 0 || n as usize > cover.count() {
        return None;
    }
    columns_are_table();
    Some(cover.cost(&numbered(n)))
}

/// The entry of the column of a number in a row, from 0; `None` where there is no such column or row.
pub fn entry_of(cover: &Cover, n: u16, row: usize) -> Option<i64> {
    if n == 0 || n as usize > cover.count() || row >= cover.rows() {
        return None;
    }
    columns_are_table();
    Some(cover.entry(&numbered(n), row))
}

/// What pricing answers, with the column that it leaves behind; `None` where there are not as many multipliers as rows.
pub fn answer_of(cover: &Cover, y: &[i128], rho: i128, budget: u64) -> Option<(Priced, Column)> {
    if y.len() != cover.rows() {
        return None;
    }
    let mut found = Column {
        len: 0,
        code: [0; 32],
    };
    let priced = cover.price(y, rho, budget, &mut found);
    Some((priced, found))
}
