//! The table that a file's bytes are, and what stands at its keys.

ghost use Rattle.std.specs.Prelude.{◌≡◌, option_map, is_some};
ghost use Rattle.toml.specs.View.{view as data_of, table_view};
ghost use Rattle.toml.specs.Data.{get_member};
ghost use Rattle.sg_format.specs.Documents.{document_of, needed_at};
ghost use Rattle.sg_file.specs.Answers.{GivesPart, TellsPart};

use crate::fault::{GameError, fault};
use sg_game::{GameFault, Place};
use sg_model::reason::{MISSING_KEY, NOT_TOML};
use std::alloc::Global;
use toml::{Table, Value};

#[tactic(auto, unfolding(sg_format::specs::Documents::document_of))]
pub(crate) fn document(alloc: Global, bytes: &[u8]) -> Result<Table, GameError>
    ensures { GivesPart table_view result (document_of bytes.now) }
{
    match toml::table_from_slice(alloc, bytes) {
        Ok(table) => Ok(table),
        Err(error) => {
            if error.is_memory() {
                Err(GameError::Memory)
            } else {
                Err(GameError::Refused(fault(NOT_TOML, Place::Document)))
            }
        }
    }
}

pub(crate) fn value_at<'a>(table: &'a Table, key: &str) -> Option<&'a Value>
    ensures { option_map (λ v. data_of v.now) result ≡ get_member key.now (table_view table.now) }
{
    table.get(key)
}

pub(crate) fn has_key(table: &Table, key: &str) -> bool
    ensures { result ≡ is_some (get_member key.now (table_view table.now)) }
{
    match value_at(table, key) {
        Some(_) => true,
        None => false,
    }
}

pub(crate) fn needed<'a>(place: Place, key: &str, table: &'a Table) -> Result<&'a Value, GameFault>
    ensures { TellsPart (λ v. data_of v.now) result (needed_at place key.now (table_view table.now)) }
{
    match value_at(table, key) {
        Some(value) => Ok(value),
        None => Err(fault(MISSING_KEY, place)),
    }
}
