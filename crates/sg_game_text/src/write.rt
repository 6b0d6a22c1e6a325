//! The canonical text of a game.

ghost use Rattle.std.specs.Prelude.{◌≡◌, ◌++◌, [], IfOk, Ok, OnOk, codes, flat_map, length};
ghost use Rattle.sg_model.specs.Sums.{nth};
ghost use Rattle.sg_game.specs.Counts.{IsGoalOf};
ghost use Rattle.sg_format.specs.GameFiles.{game_of_bytes};
ghost use Rattle.sg_format.specs.GameText.{form_name, game_text, goals_key, key_line, names_array, patrols_line, scale_line, top_lines, type_table};

use crate::listed::put_listed;
use crate::tables::put_type;
use crate::text::{put_comma, put_key, put_name_line, put_number_line, put_quoted};
use sg_game::{Game, Kind};
use sg_game_text_laws::game_text_is_file;
use std::alloc::{AllocError, Global};

/// The number of targets or rows.
fn goal_count(game: &Game) -> u16
    ensures { result ≡ length game.now.goals }
{
    match game.kind() {
        Kind::Security => game.targets(),
        Kind::Matrix => game.rows(),
    }
}

/// The name of target or row `t`.
fn goal_name(game: &Game, t: u16) -> &str
    requires { IsGoalOf game.now t }
    ensures { result.now ≡ nth game.now.goals t [] }
{
    match game.kind() {
        Kind::Security => game.target_name(t),
        Kind::Matrix => game.row_name(t),
    }
}

/// The name of the form.
fn form_name(kind: Kind) -> &'static str
    ensures { result.now ≡ form_name kind }
{
    match kind {
        Kind::Security => "security",
        Kind::Matrix => "matrix",
    }
}

/// Adds the key of the targets or the rows.
fn put_goals_key(text: &mut Vec<u8>, kind: Kind) -> Result<(), AllocError>
    ensures { OnOk result (text.new.items ≡ text.old.items ++ (goals_key kind ++ codes " = ")) }
{
    match kind {
        Kind::Security => put_key(text, b"targets"),
        Kind::Matrix => put_key(text, b"rows"),
    }
}

/// Adds the names of the targets or the rows.
fn put_goal_names(text: &mut Vec<u8>, game: &Game) -> Result<(), AllocError>
    ensures { OnOk result (text.new.items ≡ text.old.items ++ names_array game.now.goals) }
{
    text.push(b'[')?;
    for t in 0..goal_count(game) {
        put_comma(text, usize::from(t))?;
        put_quoted(text, goal_name(game, t + 1))?;
    }
    text.push(b']')?;
    Ok(())
}

/// Adds the line of the targets or the rows.
fn put_goals_line(text: &mut Vec<u8>, game: &Game) -> Result<(), AllocError>
    ensures { OnOk result (text.new.items ≡ text.old.items ++ key_line (goals_key game.now.kind) (names_array game.now.goals)) }
{
    put_goals_key(text, game.kind())?;
    put_goal_names(text, game)?;
    text.push(b'\n')?;
    Ok(())
}

/// Adds the line of the scale, where one is declared.
fn put_scale_line(text: &mut Vec<u8>, game: &Game) -> Result<(), AllocError>
    ensures { OnOk result (text.new.items ≡ text.old.items ++ scale_line game.now) }
{
    let scale = game.scale();
    if 0 < scale {
        return put_number_line(text, b"scale", scale);
    }
    Ok(())
}

/// Adds the line of the patrols, where their number is given.
fn put_patrols_line(text: &mut Vec<u8>, patrols: Option<u16>) -> Result<(), AllocError>
    ensures { OnOk result (text.new.items ≡ text.old.items ++ patrols_line patrols) }
{
    match patrols {
        Some(patrols) => put_number_line(text, b"patrols", i64::from(patrols)),
        None => Ok(()),
    }
}

/// Adds the lines of the top keys whose values are no tables.
fn put_top_lines(text: &mut Vec<u8>, game: &Game) -> Result<(), AllocError>
    ensures { OnOk result (text.new.items ≡ text.old.items ++ top_lines game.now) }
{
    text.extend_from_slice(b"version = 1\n")?;
    put_name_line(text, b"form", form_name(game.kind()))?;
    put_scale_line(text, game)?;
    put_patrols_line(text, game.patrols())?;
    put_goals_line(text, game)?;
    Ok(())
}

/// Adds the tables of the types.
fn put_types(text: &mut Vec<u8>, game: &Game) -> Result<(), AllocError>
    ensures { OnOk result (text.new.items ≡ text.old.items ++ flat_map (type_table game.now.kind) game.now.types) }
{
    for l in 0..game.types() {
        put_type(text, game, l + 1)?;
    }
    Ok(())
}

/// The lines and the tables of a game.
#[tactic(auto, unfolding(sg_format::specs::GameText::game_text))]
fn canonical_text(alloc: Global, game: &Game) -> Result<Vec<u8>, AllocError>
    ensures { IfOk result (λ text. text.items ≡ game_text game.now) }
{
    let mut text: Vec<u8> = Vec::new(alloc);
    put_top_lines(&mut text, game)?;
    put_listed(&mut text, game)?;
    put_types(&mut text, game)?;
    Ok(text)
}

/// The canonical text of a game, which is the same for equal games and is a file of that game.
///
/// # Errors
///
/// An error only where memory ran out.
pub fn write_game(alloc: Global, game: &Game) -> Result<Vec<u8>, AllocError>
    ensures canonical { IfOk result (λ text. text.items ≡ game_text game.now) }
    ensures reads_back { IfOk result (λ text. game_of_bytes text.items ≡ Ok game.now) }
{
    game.promises();
    game_text_is_file();
    let text = canonical_text(alloc, game)?;
    Ok(text)
}
