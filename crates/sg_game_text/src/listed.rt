//! The text of a game's schedules and resources.

ghost use Rattle.std.specs.Prelude.{◌≡◌, ◌++◌, [], None, OnOk, codes, map, false};
ghost use Rattle.sg_model.specs.Games.{Named, is_matrix, unnamed};
ghost use Rattle.sg_model.specs.Sums.{nth};
ghost use Rattle.sg_game.specs.Counts.{IsScheduleOf, IsResourceOf};
ghost use Rattle.sg_format.specs.GameText.{empty_line, empty_lines, is_listed, key_line, named_table, names_array, resource_tables, schedule_tables};

use crate::text::{put_comma, put_head, put_key, put_name_line, put_quoted};
use sg_game::{Game, Kind};
use std::alloc::AllocError;

/// Whether the game lists its schedules and its resources.
fn is_listed(game: &Game) -> bool
    ensures { result ≡ is_listed game.now }
{
    match game.kind() {
        Kind::Security => game.patrols().is_none(),
        Kind::Matrix => false,
    }
}

/// Adds the line of the schedules, where there are none.
fn put_no_schedules(text: &mut Vec<u8>, game: &Game) -> Result<(), AllocError>
    requires { game.now.patrols ≡ None }
    ensures { OnOk result (text.new.items ≡ text.old.items ++ empty_line (codes "schedule") game.now.schedules) }
{
    if game.schedules() == 0 {
        text.extend_from_slice(b"schedule = []\n")?;
    }
    Ok(())
}

/// Adds the line of the resources, where there are none.
fn put_no_resources(text: &mut Vec<u8>, game: &Game) -> Result<(), AllocError>
    requires { game.now.patrols ≡ None }
    ensures { OnOk result (text.new.items ≡ text.old.items ++ empty_line (codes "resource") game.now.resources) }
{
    if game.resources() == 0 {
        text.extend_from_slice(b"resource = []\n")?;
    }
    Ok(())
}

/// Adds the names of the targets of schedule `s`.
fn put_targets(text: &mut Vec<u8>, game: &Game, s: u16) -> Result<(), AllocError>
    requires security { is_matrix game.now ≡ false }
    requires listed { game.now.patrols ≡ None }
    requires known { IsScheduleOf game.now s }
    ensures { OnOk result (text.new.items ≡ text.old.items ++ names_array (map (λ m. nth game.now.goals m []) (nth game.now.schedules s unnamed).members)) }
{
    text.push(b'[')?;
    for (i, t) in game.schedule_targets(s).iter().enumerate() {
        put_comma(text, i)?;
        put_quoted(text, game.target_name(*t))?;
    }
    text.push(b']')?;
    Ok(())
}

/// Adds the names of the schedules of resource `r`.
fn put_schedule_names(text: &mut Vec<u8>, game: &Game, r: u16) -> Result<(), AllocError>
    requires listed { game.now.patrols ≡ None }
    requires known { IsResourceOf game.now r }
    ensures { OnOk result (text.new.items ≡ text.old.items ++ names_array (map (λ m. nth (map (λ (x : Named). x.name) game.now.schedules) m []) (nth game.now.resources r unnamed).members)) }
{
    text.push(b'[')?;
    for (i, s) in game.resource_schedules(r).iter().enumerate() {
        put_comma(text, i)?;
        put_quoted(text, game.schedule_name(*s))?;
    }
    text.push(b']')?;
    Ok(())
}

/// Adds the line of the targets of schedule `s`.
fn put_targets_line(text: &mut Vec<u8>, game: &Game, s: u16) -> Result<(), AllocError>
    requires security { is_matrix game.now ≡ false }
    requires listed { game.now.patrols ≡ None }
    requires known { IsScheduleOf game.now s }
    ensures { OnOk result (text.new.items ≡ text.old.items ++ key_line (codes "targets") (names_array (map (λ m. nth game.now.goals m []) (nth game.now.schedules s unnamed).members))) }
{
    put_key(text, b"targets")?;
    put_targets(text, game, s)?;
    text.push(b'\n')?;
    Ok(())
}

/// Adds the line of the schedules of resource `r`.
fn put_schedules_line(text: &mut Vec<u8>, game: &Game, r: u16) -> Result<(), AllocError>
    requires listed { game.now.patrols ≡ None }
    requires known { IsResourceOf game.now r }
    ensures { OnOk result (text.new.items ≡ text.old.items ++ key_line (codes "schedules") (names_array (map (λ m. nth (map (λ (x : Named). x.name) game.now.schedules) m []) (nth game.now.resources r unnamed).members))) }
{
    put_key(text, b"schedules")?;
    put_schedule_names(text, game, r)?;
    text.push(b'\n')?;
    Ok(())
}

/// Adds the table of schedule `s`.
fn put_schedule(text: &mut Vec<u8>, game: &Game, s: u16) -> Result<(), AllocError>
    requires security { is_matrix game.now ≡ false }
    requires listed { game.now.patrols ≡ None }
    requires known { IsScheduleOf game.now s }
    ensures { OnOk result (text.new.items ≡ text.old.items ++ named_table (codes "schedule") (codes "targets") game.now.goals (nth game.now.schedules s unnamed)) }
{
    put_head(text, b"schedule")?;
    put_name_line(text, b"name", game.schedule_name(s))?;
    put_targets_line(text, game, s)?;
    Ok(())
}

/// Adds the table of resource `r`.
fn put_resource(text: &mut Vec<u8>, game: &Game, r: u16) -> Result<(), AllocError>
    requires listed { game.now.patrols ≡ None }
    requires known { IsResourceOf game.now r }
    ensures { OnOk result (text.new.items ≡ text.old.items ++ named_table (codes "resource") (codes "schedules") (map (λ (x : Named). x.name) game.now.schedules) (nth game.now.resources r unnamed)) }
{
    put_head(text, b"resource")?;
    put_name_line(text, b"name", game.resource_name(r))?;
    put_schedules_line(text, game, r)?;
    Ok(())
}

/// Adds the tables of the schedules.
fn put_schedules(text: &mut Vec<u8>, game: &Game) -> Result<(), AllocError>
    requires security { is_matrix game.now ≡ false }
    requires listed { game.now.patrols ≡ None }
    ensures { OnOk result (text.new.items ≡ text.old.items ++ schedule_tables game.now) }
{
    for s in 0..game.schedules() {
        put_schedule(text, game, s + 1)?;
    }
    Ok(())
}

/// Adds the tables of the resources.
fn put_resources(text: &mut Vec<u8>, game: &Game) -> Result<(), AllocError>
    requires { game.now.patrols ≡ None }
    ensures { OnOk result (text.new.items ≡ text.old.items ++ resource_tables game.now) }
{
    for r in 0..game.resources() {
        put_resource(text, game, r + 1)?;
    }
    Ok(())
}

/// Adds the schedules and the resources, where the game lists them.
pub(crate) fn put_listed(text: &mut Vec<u8>, game: &Game) -> Result<(), AllocError>
    ensures { OnOk result (text.new.items ≡ text.old.items ++ (empty_lines game.now ++ (schedule_tables game.now ++ resource_tables game.now))) }
{
    if !is_listed(game) {
        game.promises();
        return Ok(());
    }
    put_no_schedules(text, game)?;
    put_no_resources(text, game)?;
    put_schedules(text, game)?;
    put_resources(text, game)
}
