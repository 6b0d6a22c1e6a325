//! What a listed family says of a legal play, and what its pricing answers.

ghost use Rattle.std.specs.Prelude.{◌≡◌, ◌≤◌, length, pos};
ghost use Rattle.sg_programs.specs.Plays.{column_of};

use sg_dobss::Listed;
use sg_game::{Game, legal};
use sg_lp::{Column, Family, Priced};
use sg_programs::columns_are_plays;

/// A play as a column.
fn column(play: &[u16]) -> Column
    requires { length play.now ≤ 32 }
    ensures { result ≡ column_of play.now }
{
    let mut code = [0u16; 32];
    for i in 0..play.len() {
        code[i] = play[i];
    }
    Column {
        len: play.len() as u8,
        code,
    }
}

/// What a play costs; `None` where it isn't legal.
pub fn cost_of(game: &Game, listed: &Listed, play: &[u16]) -> Option<i64>
    requires game { listed.now.game ≡ game.now }
    requires unscaled { game.now.scale ≡ pos 0 }
{
    game.promises();
    columns_are_plays();
    if play.len() > 32 || !legal(game, play) {
        return None;
    }
    Some(listed.cost(&column(play)))
}

/// The entry of a play in a row, from 0; `None` where it isn't legal or there is no such row.
pub fn entry_of(game: &Game, listed: &Listed, play: &[u16], row: usize) -> Option<i64>
    requires game { listed.now.game ≡ game.now }
    requires unscaled { game.now.scale ≡ pos 0 }
{
    game.promises();
    columns_are_plays();
    if play.len() > 32 || !legal(game, play) || row >= listed.rows() {
        return None;
    }
    Some(listed.entry(&column(play), row))
}

/// What pricing answers, with the column that it leaves behind; `None` where there are not as many multipliers as rows.
pub fn answer_of(listed: &Listed, y: &[i128], rho: i128, budget: u64) -> Option<(Priced, Column)> {
    if y.len() != listed.rows() {
        return None;
    }
    let mut found = Column {
        len: 0,
        code: [0; 32],
    };
    let priced = listed.price(y, rho, budget, &mut found);
    Some((priced, found))
}
