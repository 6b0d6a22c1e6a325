//! The game of a file: the order in which its parts are read.

ghost use Rattle.std.specs.Prelude.{◌≡◌, pos, if◌then◌else◌, codes, ◌<◌, ◌^◌, ◌-◌};
ghost use Rattle.toml.specs.View.{view as data_of, table_view};
ghost use Rattle.sg_game.specs.Seen.{game_of};
ghost use Rattle.sg_format.specs.GameFiles.{version_of, form_of, kind_of, scale_at, patrols_game, listed_game, resources_game, matrix_game, game_of_form, game_of_table, game_of_bytes};
ghost use Rattle.sg_file.specs.Answers.{GivesPart, TellsPart};
ghost use Rattle.toml.specs.Data.{get_member};

use crate::document::{document, has_key, needed, value_at};
use crate::fault::{GameError, check, fault};
use crate::keys::{Section, known_keys};
use crate::limits::within_limits;
use crate::lists::{Group, lists};
use crate::names::{Listing, names};
use crate::types::{matrix_types, security_types};
use crate::value::{integer, number};
use sg_game::{Game, GameFault, Kind, Parts, Place};
use sg_model::limit::{
    PATROL_LIMIT, ROW_LIMIT, SCALE_LIMIT, SCALED_PATROL_LIMIT, SCALED_TARGET_LIMIT, TARGET_LIMIT,
};
use sg_model::reason::{BAD_VERSION, MISSING_KEY, OUT_OF_RANGE, WRONG_KIND};
use std::alloc::Global;
use toml::{Table, Value};

#[tactic(auto, unfolding(sg_format::specs::GameFiles::version_of))]
fn version(table: &Table) -> Result<(), GameFault>
    ensures { result ≡ version_of (table_view table.now) }
{
    let value = match value_at(table, "version") {
        Some(value) => value,
        None => return Err(fault(MISSING_KEY, Place::Document)),
    };
    let version = integer(Place::Document, value)?;
    if version == 1 {
        Ok(())
    } else {
        Err(fault(BAD_VERSION, Place::Document))
    }
}

fn kind_named(text: &str) -> Option<Kind>
    ensures { result ≡ kind_of text.now }
{
    if text == "security" {
        Some(Kind::Security)
    } else if text == "matrix" {
        Some(Kind::Matrix)
    } else {
        None
    }
}

#[tactic(auto, unfolding(sg_format::specs::GameFiles::form_of))]
fn form(table: &Table) -> Result<Kind, GameFault>
    ensures { result ≡ form_of (table_view table.now) }
{
    let value = match value_at(table, "form") {
        Some(value) => value,
        None => return Err(fault(MISSING_KEY, Place::Document)),
    };
    let name = match value.as_str() {
        Some(name) => name,
        None => return Err(fault(WRONG_KIND, Place::Document)),
    };
    match kind_named(name) {
        Some(kind) => Ok(kind),
        None => Err(fault(OUT_OF_RANGE, Place::Document)),
    }
}

/// The declared scale, where there is one.
#[tactic(auto, unfolding(sg_format::specs::GameFiles::scale_at))]
fn scale(table: &Table) -> Result<Option<i64>, GameFault>
    ensures { result ≡ scale_at (get_member (codes "scale") (table_view table.now)) }
{
    match value_at(table, "scale") {
        Some(value) => {
            let scale = number(Place::Document, 1, SCALE_LIMIT, value)?;
            Ok(Some(scale))
        }
        None => Ok(None),
    }
}

fn most_targets(scaled: bool) -> u32
    ensures exact { result ≡ (if scaled then SCALED_TARGET_LIMIT else TARGET_LIMIT) }
    ensures small { result < 2 ^ 32 - 1 }
{
    if scaled {
        SCALED_TARGET_LIMIT as u32
    } else {
        TARGET_LIMIT as u32
    }
}

fn most_patrols(scaled: bool) -> i64
    ensures { result ≡ pos (if scaled then SCALED_PATROL_LIMIT else PATROL_LIMIT) }
{
    if scaled {
        SCALED_PATROL_LIMIT as i64
    } else {
        PATROL_LIMIT as i64
    }
}

/// A game of identical patrols, whose number is given.
#[tactic(auto, unfolding(sg_format::specs::GameFiles::patrols_game))]
fn patrols_game(alloc: Global, given: &Value, table: &Table) -> Result<Parts, GameError>
    ensures { GivesPart game_of result (patrols_game (data_of given.now) (table_view table.now)) }
{
    known_keys(Place::Document, Section::Patrols, table)?;
    let listed = needed(Place::Document, "targets", table)?;
    let attackers = needed(Place::Document, "type", table)?;
    let scaled = has_key(table, "scale");
    let targets = names(alloc, Listing::Targets, most_targets(scaled), listed)?.list;
    let scale = scale(table)?;
    let patrols = number(Place::Document, 0, most_patrols(scaled), given)?;
    let types = security_types(alloc, scaled, targets.len(), attackers)?;
    let parts = Parts {
        kind: Kind::Security,
        scale,
        patrols: Some(patrols),
        goals: targets,
        schedules: Vec::new(alloc),
        resources: Vec::new(alloc),
        types,
    };
    within_limits(&parts, scaled)?;
    Ok(parts)
}

/// A game of listed schedules and resources, from the values of its targets, schedules, resources and types.
#[tactic(auto, unfolding(sg_format::specs::GameFiles::listed_game))]
fn listed_game(
    alloc: Global,
    listed: &Value,
    given: &Value,
    manned: &Value,
    attackers: &Value,
) -> Result<Parts, GameError>
    ensures { GivesPart game_of result (listed_game (data_of listed.now) (data_of given.now) (data_of manned.now) (data_of attackers.now)) }
{
    let targets = names(alloc, Listing::Targets, TARGET_LIMIT as u32, listed)?;
    let schedules = lists(alloc, Group::Schedules, &targets.index, given)?;
    let resources = lists(alloc, Group::Resources, &schedules.index, manned)?;
    let types = security_types(alloc, false, targets.list.len(), attackers)?;
    let parts = Parts {
        kind: Kind::Security,
        scale: None,
        patrols: None,
        goals: targets.list,
        schedules: schedules.parts,
        resources: resources.parts,
        types,
    };
    within_limits(&parts, false)?;
    Ok(parts)
}

/// A game of listed schedules and resources.
#[tactic(auto, unfolding(sg_format::specs::GameFiles::resources_game))]
fn resources_game(alloc: Global, table: &Table) -> Result<Parts, GameError>
    ensures { GivesPart game_of result (resources_game (table_view table.now)) }
{
    known_keys(Place::Document, Section::Resources, table)?;
    let listed = needed(Place::Document, "targets", table)?;
    check(!has_key(table, "scale"), MISSING_KEY, Place::Document)?;
    let given = needed(Place::Document, "schedule", table)?;
    let manned = needed(Place::Document, "resource", table)?;
    let attackers = needed(Place::Document, "type", table)?;
    listed_game(alloc, listed, given, manned, attackers)
}

/// A game in matrix form.
#[tactic(auto, unfolding(sg_format::specs::GameFiles::matrix_game))]
fn matrix_game(alloc: Global, table: &Table) -> Result<Parts, GameError>
    ensures { GivesPart game_of result (matrix_game (table_view table.now)) }
{
    known_keys(Place::Document, Section::Matrix, table)?;
    let listed = needed(Place::Document, "rows", table)?;
    let attackers = needed(Place::Document, "type", table)?;
    let rows = names(alloc, Listing::Rows, ROW_LIMIT as u32, listed)?.list;
    let types = matrix_types(alloc, rows.len(), attackers)?;
    let parts = Parts {
        kind: Kind::Matrix,
        scale: None,
        patrols: None,
        goals: rows,
        schedules: Vec::new(alloc),
        resources: Vec::new(alloc),
        types,
    };
    within_limits(&parts, false)?;
    Ok(parts)
}

fn game_of_form(alloc: Global, kind: Kind, table: &Table) -> Result<Parts, GameError>
    ensures { GivesPart game_of result (game_of_form kind (table_view table.now)) }
{
    match kind {
        Kind::Matrix => matrix_game(alloc, table),
        Kind::Security => match value_at(table, "patrols") {
            Some(given) => patrols_game(alloc, given, table),
            None => resources_game(alloc, table),
        },
    }
}

#[tactic(auto, unfolding(sg_format::specs::GameFiles::game_of_table))]
fn game_of_table(alloc: Global, table: &Table) -> Result<Parts, GameError>
    ensures { GivesPart game_of result (game_of_table (table_view table.now)) }
{
    version(table)?;
    let kind = form(table)?;
    game_of_form(alloc, kind, table)
}

/// The parts of the game that the bytes of a file are, or the first rule of game files that they break, with its place.
#[tactic(auto, unfolding(sg_format::specs::GameFiles::game_of_bytes))]
fn read_parts(alloc: Global, bytes: &[u8]) -> Result<Parts, GameError>
    ensures { GivesPart game_of result (game_of_bytes bytes.now) }
{
    let table = document(alloc, bytes)?;
    game_of_table(alloc, &table)
}

/// The game that the bytes of a file are.
///
/// # Errors
///
/// `Refused` with the first rule of game files that they break, and its place. `Memory` where memory ran out.
pub fn read_game(alloc: Global, bytes: &[u8]) -> Result<Game, GameError>
    ensures { GivesPart (λ g. g) result (game_of_bytes bytes.now) }
{
    let parts = read_parts(alloc, bytes)?;
    Ok(Game::made(alloc, parts)?)
}
