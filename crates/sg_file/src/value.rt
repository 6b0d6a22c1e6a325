//! Values of the kinds and ranges that a game file asks for.

ghost use Rattle.std.specs.Prelude.{◌≡◌, ◌≤◌, IfOk, length};
ghost use Rattle.std.specs.List.{list_all};
ghost use Rattle.toml.specs.View.{view as data_of, items_view, table_view};
ghost use Rattle.sg_model.specs.Names.{is_name, is_name_byte};
ghost use Rattle.sg_format.specs.Documents.{integer_at, text_at, items_at, table_at, number_at, name_at};
ghost use Rattle.sg_format.specs.Lists.{few_at, some_at};
ghost use Rattle.sg_file.specs.Answers.{TellsPart};

use crate::fault::{check, fault};
use sg_game::{GameFault, Place};
use sg_model::reason::{EMPTY_LIST, OUT_OF_RANGE, TOO_LARGE, WRONG_KIND};
use toml::{Table, Value};

pub(crate) fn integer(place: Place, value: &Value) -> Result<i64, GameFault>
    ensures { result ≡ integer_at place (data_of value.now) }
{
    match value.as_integer() {
        Some(number) => Ok(number),
        None => Err(fault(WRONG_KIND, place)),
    }
}

pub(crate) fn text(place: Place, value: &Value) -> Result<&str, GameFault>
    ensures { TellsPart (λ text. text.now) result (text_at place (data_of value.now)) }
{
    match value.as_str() {
        Some(text) => Ok(text),
        None => Err(fault(WRONG_KIND, place)),
    }
}

pub(crate) fn items(place: Place, value: &Value) -> Result<&[Value], GameFault>
    ensures { TellsPart (λ xs. items_view xs.now) result (items_at place (data_of value.now)) }
{
    match value.as_array() {
        Some(items) => Ok(items.as_slice()),
        None => Err(fault(WRONG_KIND, place)),
    }
}

pub(crate) fn table(place: Place, value: &Value) -> Result<&Table, GameFault>
    ensures { TellsPart (λ t. table_view t.now) result (table_at place (data_of value.now)) }
{
    match value.as_table() {
        Some(table) => Ok(table),
        None => Err(fault(WRONG_KIND, place)),
    }
}

#[tactic(auto, unfolding(sg_format::specs::Documents::number_at))]
pub(crate) fn number(place: Place, low: i64, high: i64, value: &Value) -> Result<i64, GameFault>
    ensures { result ≡ number_at place low high (data_of value.now) }
{
    let number = integer(place, value)?;
    if low <= number && number <= high {
        Ok(number)
    } else {
        Err(fault(OUT_OF_RANGE, place))
    }
}

fn has_name_bytes(bytes: &[u8]) -> bool
    ensures { result ≡ list_all is_name_byte bytes.now }
{
    bytes
        .iter()
        .all(|b| b.is_ascii_alphanumeric() || *b == b'_' || *b == b'-')
}

#[tactic(auto, unfolding(sg_model::specs::Names::is_name))]
fn is_name(text: &str) -> bool
    ensures { result ≡ is_name text.now }
{
    1 <= text.len() && text.len() <= 64 && has_name_bytes(text.as_bytes())
}

#[tactic(auto, unfolding(sg_format::specs::Documents::name_at))]
pub(crate) fn name(place: Place, value: &Value) -> Result<&str, GameFault>
    ensures { TellsPart (λ text. text.now) result (name_at place (data_of value.now)) }
{
    let text = text(place, value)?;
    if is_name(text) {
        Ok(text)
    } else {
        Err(fault(OUT_OF_RANGE, place))
    }
}

/// The items of an array of at most `limit`.
#[tactic(auto, using(crate::proofs::Items::item_count_view), unfolding(sg_format::specs::Lists::few_at))]
pub(crate) fn few(place: Place, limit: usize, value: &Value) -> Result<&[Value], GameFault>
    ensures gives { TellsPart (λ xs. items_view xs.now) result (few_at place limit (data_of value.now)) }
    ensures short { IfOk result (λ xs. length xs.now ≤ limit) }
{
    let items = items(place, value)?;
    if items.len() <= limit {
        Ok(items)
    } else {
        Err(fault(TOO_LARGE, place))
    }
}

/// The items of an array of one to `limit`.
#[tactic(auto, using(crate::proofs::Items::item_count_view), unfolding(sg_format::specs::Lists::some_at))]
pub(crate) fn some(place: Place, limit: usize, value: &Value) -> Result<&[Value], GameFault>
    ensures gives { TellsPart (λ xs. items_view xs.now) result (some_at place limit (data_of value.now)) }
    ensures short { IfOk result (λ xs. length xs.now ≤ limit) }
{
    let items = items(place, value)?;
    if items.is_empty() {
        return Err(fault(EMPTY_LIST, place));
    }
    if items.len() <= limit {
        Ok(items)
    } else {
        Err(fault(TOO_LARGE, place))
    }
}
