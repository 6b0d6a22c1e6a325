//! The text of a type of attacker.

ghost use Rattle.std.specs.Prelude.{◌≡◌, ◌++◌, [], pos, OnOk, codes, map, false, true};
ghost use Rattle.std.specs.Fmt.{signed_decimal};
ghost use Rattle.sg_model.specs.Games.{attacker, is_matrix};
ghost use Rattle.sg_model.specs.Sums.{nth};
ghost use Rattle.sg_model.specs.Limits.{IsPay};
ghost use Rattle.sg_game.specs.Counts.{IsActionOf, IsGoalOf, IsTypeOf};
ghost use Rattle.sg_format.specs.GameText.{four_pays, key_line, names_array, pay_lines, pays_array, table_array, type_table};
ghost use Rattle.sg_game_text.specs.Writing.{table_of_side};

use crate::text::{
    put_comma, put_head, put_key, put_name_line, put_number, put_number_line, put_quoted,
};
use sg_game::{Game, Kind};
use std::alloc::AllocError;

/// One of the two tables of a type.
#[derive(Clone, Copy, Debug, PartialEq, Eq)]
pub(crate) enum Side {
    /// What the defender gets.
    Leader,
    /// What the attacker gets.
    Follower,
}

/// Adds the names of the actions of type `l`.
fn put_actions(text: &mut Vec<u8>, game: &Game, l: u8) -> Result<(), AllocError>
    requires matrix { is_matrix game.now ≡ true }
    requires known_type { IsTypeOf game.now l }
    ensures { OnOk result (text.new.items ≡ text.old.items ++ names_array (attacker game.now l).actions) }
{
    text.push(b'[')?;
    for a in 0..game.actions(l) {
        put_comma(text, usize::from(a))?;
        put_quoted(text, game.action_name(l, a + 1))?;
    }
    text.push(b']')?;
    Ok(())
}

/// What stands in a table of type `l` at row `i` and action `a`.
fn pay(game: &Game, side: Side, l: u8, i: u16, a: u16) -> i64
    requires matrix { is_matrix game.now ≡ true }
    requires known_type { IsTypeOf game.now l }
    requires known_row { IsGoalOf game.now i }
    requires known_action { IsActionOf game.now l a }
    ensures { result ≡ nth (nth (table_of_side side (attacker game.now l)) i []) a (pos 0) }
{
    match side {
        Side::Leader => game.leader(l, i, a),
        Side::Follower => game.follower(l, i, a),
    }
}

/// Adds row `i` of a table of type `l`.
fn put_row(text: &mut Vec<u8>, game: &Game, side: Side, l: u8, i: u16) -> Result<(), AllocError>
    requires matrix { is_matrix game.now ≡ true }
    requires known_type { IsTypeOf game.now l }
    requires known_row { IsGoalOf game.now i }
    ensures { OnOk result (text.new.items ≡ text.old.items ++ pays_array (nth (table_of_side side (attacker game.now l)) i [])) }
{
    game.promises();
    text.push(b'[')?;
    for a in 0..game.actions(l) {
        put_comma(text, usize::from(a))?;
        put_number(text, pay(game, side, l, i, a + 1))?;
    }
    text.push(b']')?;
    Ok(())
}

/// Adds a table of type `l`.
fn put_table(text: &mut Vec<u8>, game: &Game, side: Side, l: u8) -> Result<(), AllocError>
    requires matrix { is_matrix game.now ≡ true }
    requires known_type { IsTypeOf game.now l }
    ensures { OnOk result (text.new.items ≡ text.old.items ++ table_array (table_of_side side (attacker game.now l))) }
{
    game.promises();
    text.push(b'[')?;
    for i in 0..game.rows() {
        put_comma(text, usize::from(i))?;
        put_row(text, game, side, l, i + 1)?;
    }
    text.push(b']')?;
    Ok(())
}

/// Adds an array of payoffs.
fn put_pays(text: &mut Vec<u8>, pays: &[i64]) -> Result<(), AllocError>
    ensures { OnOk result (text.new.items ≡ text.old.items ++ pays_array pays.now) }
{
    text.push(b'[')?;
    for (i, pay) in pays.iter().enumerate() {
        put_comma(text, i)?;
        put_number(text, *pay)?;
    }
    text.push(b']')?;
    Ok(())
}

/// Adds the payoffs of type `l`.
fn put_payoffs(text: &mut Vec<u8>, game: &Game, l: u8) -> Result<(), AllocError>
    requires security { is_matrix game.now ≡ false }
    requires known_type { IsTypeOf game.now l }
    ensures { OnOk result (text.new.items ≡ text.old.items ++ table_array (map four_pays (attacker game.now l).payoffs)) }
{
    game.promises();
    text.push(b'[')?;
    for t in 0..game.targets() {
        put_comma(text, usize::from(t))?;
        put_pays(text, &game.payoffs(l, t + 1))?;
    }
    text.push(b']')?;
    Ok(())
}

/// Adds the line of the payoffs of type `l`.
fn put_payoffs_line(text: &mut Vec<u8>, game: &Game, l: u8) -> Result<(), AllocError>
    requires security { is_matrix game.now ≡ false }
    requires known_type { IsTypeOf game.now l }
    ensures { OnOk result (text.new.items ≡ text.old.items ++ key_line (codes "payoffs") (table_array (map four_pays (attacker game.now l).payoffs))) }
{
    put_key(text, b"payoffs")?;
    put_payoffs(text, game, l)?;
    text.push(b'\n')?;
    Ok(())
}

/// Adds the line of the actions of type `l`.
fn put_actions_line(text: &mut Vec<u8>, game: &Game, l: u8) -> Result<(), AllocError>
    requires matrix { is_matrix game.now ≡ true }
    requires known_type { IsTypeOf game.now l }
    ensures { OnOk result (text.new.items ≡ text.old.items ++ key_line (codes "actions") (names_array (attacker game.now l).actions)) }
{
    put_key(text, b"actions")?;
    put_actions(text, game, l)?;
    text.push(b'\n')?;
    Ok(())
}

/// Adds the line of a table of type `l`.
fn put_table_line(
    text: &mut Vec<u8>,
    key: &[u8],
    game: &Game,
    side: Side,
    l: u8,
) -> Result<(), AllocError>
    requires matrix { is_matrix game.now ≡ true }
    requires known_type { IsTypeOf game.now l }
    ensures { OnOk result (text.new.items ≡ text.old.items ++ key_line key.now (table_array (table_of_side side (attacker game.now l)))) }
{
    put_key(text, key)?;
    put_table(text, game, side, l)?;
    text.push(b'\n')?;
    Ok(())
}

/// Adds the lines of what type `l` gets.
fn put_pay_lines(text: &mut Vec<u8>, game: &Game, l: u8) -> Result<(), AllocError>
    requires { IsTypeOf game.now l }
    ensures { OnOk result (text.new.items ≡ text.old.items ++ pay_lines game.now.kind (attacker game.now l)) }
{
    match game.kind() {
        Kind::Security => put_payoffs_line(text, game, l),
        Kind::Matrix => {
            put_actions_line(text, game, l)?;
            put_table_line(text, b"leader", game, Side::Leader, l)?;
            put_table_line(text, b"follower", game, Side::Follower, l)
        }
    }
}

/// Adds the table of type `l`.
pub(crate) fn put_type(text: &mut Vec<u8>, game: &Game, l: u8) -> Result<(), AllocError>
    requires { IsTypeOf game.now l }
    ensures { OnOk result (text.new.items ≡ text.old.items ++ type_table game.now.kind (attacker game.now l)) }
{
    put_head(text, b"type")?;
    put_name_line(text, b"name", game.type_name(l))?;
    put_number_line(text, b"prior", game.prior(l))?;
    put_pay_lines(text, game, l)?;
    Ok(())
}
