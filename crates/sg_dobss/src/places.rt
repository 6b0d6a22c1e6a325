//! The places of plays in the list of all legal plays.
//!
//! In security form the place of a play is its number in mixed radix: the choices are its digits, that of the first
//! resource the greatest.

ghost use Rattle.std.specs.Prelude.{◌≡◌, ◌≤◌, ◌<◌, ◌∷◌, [], ◌++◌, length, map, false, true, pos};
ghost use Rattle.std.specs.List.{Contains};
ghost use Rattle.sg_model.specs.Games.{is_matrix};
ghost use Rattle.sg_model.specs.PlayLists.{legal_plays, play_count};
ghost use Rattle.sg_programs.specs.Plays.{column_of};
ghost use Rattle.sg_dobss.specs.Paying.{listed_play};

use sg_game::{Game, Kind};
use sg_lp::Column;

/// The column of the joint schedule at a place.
fn joint_column(game: &Game, count: usize, k: usize) -> Column
    requires security { is_matrix game.now ≡ false }
    requires unscaled { game.now.scale ≡ pos 0 }
    requires count { count ≡ play_count game.now }
    requires few { count ≤ 4096 }
    requires inside { k < count }
    ensures { result ≡ column_of (listed_play game.now k) }
{
    game.promises();
    let resources = game.resources();
    let mut code = [0u16; 32];
    let mut size = count;
    let mut rest = k;
    for r in 0..resources {
        size = size / (game.resource_schedules(r + 1).len() + 1);
        code[r as usize] = (rest / size) as u16;
        rest = rest % size;
    }
    Column {
        len: resources as u8,
        code,
    }
}

/// The column of a row.
fn row_column(row: u16) -> Column
    ensures { result ≡ column_of (row ∷ []) }
{
    let mut code = [0u16; 32];
    code[0] = row;
    Column { len: 1, code }
}

/// The column of the play at a place.
pub(crate) fn column_at(game: &Game, count: usize, k: usize) -> Column
    requires unscaled { game.now.scale ≡ pos 0 }
    requires count { count ≡ play_count game.now }
    requires few { count ≤ 4096 }
    requires inside { k < count }
    ensures { result ≡ column_of (listed_play game.now k) }
{
    match game.kind() {
        Kind::Security => joint_column(game, count, k),
        Kind::Matrix => row_column(k as u16 + 1),
    }
}

/// The place of a joint schedule.
fn joint_place(game: &Game, count: usize, col: &Column) -> usize
    requires security { is_matrix game.now ≡ false }
    requires unscaled { game.now.scale ≡ pos 0 }
    requires count { count ≡ play_count game.now }
    requires few { count ≤ 4096 }
    requires listed { Contains (map column_of (legal_plays game.now)) col.now }
    ensures inside { result < count }
    ensures there { column_of (listed_play game.now result) ≡ col.now }
{
    game.promises();
    let mut place = 0;
    for r in 0..game.resources() {
        let choices = game.resource_schedules(r + 1).len() + 1;
        place = place * choices + col.code[r as usize] as usize;
    }
    place
}

/// The place of a column.
pub(crate) fn place_of(game: &Game, count: usize, col: &Column) -> usize
    requires unscaled { game.now.scale ≡ pos 0 }
    requires count { count ≡ play_count game.now }
    requires few { count ≤ 4096 }
    requires listed { Contains (map column_of (legal_plays game.now)) col.now }
    ensures inside { result < count }
    ensures there { column_of (listed_play game.now result) ≡ col.now }
{
    match game.kind() {
        Kind::Security => joint_place(game, count, col),
        Kind::Matrix => col.code[0] as usize - 1,
    }
}
