//! The types of attacker, with their payoffs.

ghost use Rattle.std.specs.Prelude.{◌≡◌, ◌+◌, ◌-◌, ◌^◌, ◌<◌, ◌++◌, ◌∷◌, [], ℕ, List, length, map, IfOk, string_bytes, ◌-ℤ◌, pos, if◌then◌else◌};
ghost use Rattle.toml.specs.View.{view as data_of, items_view};
ghost use Rattle.sg_model.specs.Games.{Attacker};
ghost use Rattle.sg_model.specs.declared.fault.Place.TheVariants as place_of;
ghost use Rattle.sg_game.specs.Seen.{number_lists, attacker_of};
ghost use Rattle.sg_format.specs.Lists.{each};
ghost use Rattle.sg_format.specs.Types.{pay_at, pays_at, pay_table_at, prior_at, security_type_at, matrix_type_at, security_types_at, matrix_types_at};
ghost use Rattle.sg_file.specs.Answers.{GivesPart};
ghost use Rattle.sg_file.specs.Numbers.{Numbers};
ghost use Rattle.sg_file.specs.Sections.{type_at};

use crate::document::needed;
use crate::fault::{GameError, check};
use crate::keys::{Section, known_keys};
use crate::names::{Index, Listing, add_name, names};
use crate::value::{items, number, some, table};
use sg_game::{GameFault, Place, TypeParts};
use sg_model::limit::{ACTION_LIMIT, PAYOFF_LIMIT, PRIOR_LIMIT, TYPE_LIMIT};
use sg_model::reason::OUT_OF_RANGE;
use std::alloc::Global;
use std::collections::BTreeMap;
use toml::{Table, Value};

fn pay(place: Place, value: &Value) -> Result<i64, GameFault>
    ensures { result ≡ pay_at place (data_of value.now) }
{
    number(place, -PAYOFF_LIMIT, PAYOFF_LIMIT, value)
}

fn pays_of(alloc: Global, place: Place, values: &[Value]) -> Result<Vec<i64>, GameError>
    ensures { GivesPart (λ v. v.items) result (each (λ before. pay_at place) [] (items_view values.now)) }
{
    let mut pays: Vec<i64> = Vec::new(alloc);
    for (i, value) in values.iter().enumerate() {
        match pay(place, value) {
            Ok(number) => pays.push(number)?,
            Err(fault) => return Err(GameError::Refused(fault)),
        }
    }
    Ok(pays)
}

/// So many payoffs.
#[tactic(auto, using(crate::proofs::Items::item_count_view), unfolding(sg_format::specs::Types::pays_at))]
fn pays(alloc: Global, place: Place, count: usize, value: &Value) -> Result<Vec<i64>, GameError>
    ensures { GivesPart (λ v. v.items) result (pays_at place count (data_of value.now)) }
{
    let values = items(place, value)?;
    check(values.len() == count, OUT_OF_RANGE, place)?;
    pays_of(alloc, place, values)
}

fn pay_rows(
    alloc: Global,
    place: Place,
    columns: usize,
    values: &[Value],
) -> Result<Vec<Vec<i64>>, GameError>
    ensures { GivesPart (λ v. number_lists v.items) result (each (λ before. pays_at place columns) [] (items_view values.now)) }
{
    let mut table: Vec<Vec<i64>> = Vec::new(alloc);
    for (i, value) in values.iter().enumerate() {
        match pays(alloc, place, columns, value) {
            Ok(row) => table.push(row)?,
            Err(e) => return Err(e),
        }
    }
    Ok(table)
}

/// So many lists of so many payoffs.
#[tactic(auto, using(crate::proofs::Items::item_count_view), unfolding(sg_format::specs::Types::pay_table_at))]
fn pay_table(
    alloc: Global,
    place: Place,
    row_count: usize,
    columns: usize,
    value: &Value,
) -> Result<Vec<Vec<i64>>, GameError>
    ensures { GivesPart (λ v. number_lists v.items) result (pay_table_at place row_count columns (data_of value.now)) }
{
    let values = items(place, value)?;
    check(values.len() == row_count, OUT_OF_RANGE, place)?;
    pay_rows(alloc, place, columns, values)
}

fn greatest_prior(scaled: bool) -> i64
    ensures { result ≡ (if scaled then pos 1 else PRIOR_LIMIT) }
{
    if scaled { 1 } else { PRIOR_LIMIT }
}

fn prior(place: Place, scaled: bool, value: &Value) -> Result<i64, GameFault>
    ensures { result ≡ prior_at place scaled (data_of value.now) }
{
    number(place, 1, greatest_prior(scaled), value)
}

/// A type against so many targets with a new name, which is added to the index.
#[tactic(auto, unfolding(sg_format::specs::Types::security_type_at))]
fn security_type(
    alloc: Global,
    scaled: bool,
    targets: usize,
    index: &mut Index,
    number: u32,
    value: &Value,
) -> Result<TypeParts, GameError>
    ensures gives { (before : List Attacker) → Numbers index.old (map (λ (x : Attacker). x.name) before)
        → GivesPart attacker_of result (security_type_at (place_of.Attacker number) scaled targets before (data_of value.now)) }
    ensures indexed { (before : List (List ℕ)) → Numbers index.old before → number ≡ length before + 1
        → IfOk result (λ x. Numbers index.new (before ++ string_bytes x.name ∷ [])) }
{
    let place = Place::Attacker(number);
    let table = table(place, value)?;
    known_keys(place, Section::SecurityType, table)?;
    let own = needed(place, "name", table)?;
    let weight = needed(place, "prior", table)?;
    let listed = needed(place, "payoffs", table)?;
    let name = add_name(alloc, index, place, number, own)?;
    let prior = prior(place, scaled, weight)?;
    let payoffs = pay_table(alloc, place, targets, 4, listed)?;
    Ok(TypeParts {
        name,
        prior,
        payoffs,
        actions: Vec::new(alloc),
        leader: Vec::new(alloc),
        follower: Vec::new(alloc),
    })
}

/// A type against so many rows with a new name, which is added to the index.
#[tactic(auto, unfolding(sg_format::specs::Types::matrix_type_at))]
fn matrix_type(
    alloc: Global,
    rows: usize,
    index: &mut Index,
    number: u32,
    value: &Value,
) -> Result<TypeParts, GameError>
    ensures gives { (before : List Attacker) → Numbers index.old (map (λ (x : Attacker). x.name) before)
        → GivesPart attacker_of result (matrix_type_at (place_of.Attacker number) rows before (data_of value.now)) }
    ensures indexed { (before : List (List ℕ)) → Numbers index.old before → number ≡ length before + 1
        → IfOk result (λ x. Numbers index.new (before ++ string_bytes x.name ∷ [])) }
{
    let place = Place::Attacker(number);
    let table = table(place, value)?;
    known_keys(place, Section::MatrixType, table)?;
    let own = needed(place, "name", table)?;
    let weight = needed(place, "prior", table)?;
    let named = needed(place, "actions", table)?;
    let first = needed(place, "leader", table)?;
    let second = needed(place, "follower", table)?;
    let name = add_name(alloc, index, place, number, own)?;
    let prior = prior(place, false, weight)?;
    let actions = names(alloc, Listing::Actions(number), ACTION_LIMIT as u32, named)?.list;
    let leader = pay_table(alloc, place, rows, actions.len(), first)?;
    let follower = pay_table(alloc, place, rows, actions.len(), second)?;
    Ok(TypeParts {
        name,
        prior,
        payoffs: Vec::new(alloc),
        actions,
        leader,
        follower,
    })
}

/// The form of the types that are read, and what their payoffs stand against.
#[derive(Clone, Copy, Debug, PartialEq, Eq)]
pub(crate) enum TypeForm {
    /// The security form, with a scale or without, against so many targets.
    Security(bool, usize),
    /// The matrix form, against so many rows.
    Matrix(usize),
}

/// A type with a new name, which is added to the index.
fn attacker_type(
    alloc: Global,
    form: TypeForm,
    index: &mut Index,
    number: u32,
    value: &Value,
) -> Result<TypeParts, GameError>
    ensures gives { (before : List Attacker) → Numbers index.old (map (λ (x : Attacker). x.name) before)
        → GivesPart attacker_of result (type_at form number before (data_of value.now)) }
    ensures indexed { (before : List (List ℕ)) → Numbers index.old before → number ≡ length before + 1
        → IfOk result (λ x. Numbers index.new (before ++ string_bytes x.name ∷ [])) }
{
    match form {
        TypeForm::Security(scaled, targets) => {
            security_type(alloc, scaled, targets, index, number, value)
        }
        TypeForm::Matrix(rows) => matrix_type(alloc, rows, index, number, value),
    }
}

fn types_of(alloc: Global, form: TypeForm, values: &[Value]) -> Result<Vec<TypeParts>, GameError>
    requires { length values.now < 2 ^ 32 - 1 }
    ensures { GivesPart (λ v. map attacker_of v.items) result (each (λ before. type_at form (length before + 1) before) [] (items_view values.now)) }
{
    let mut types: Vec<TypeParts> = Vec::new(alloc);
    let mut index: Index = BTreeMap::new(alloc);
    for (i, value) in values.iter().enumerate() {
        let number = (i + 1) as u32;
        match attacker_type(alloc, form, &mut index, number, value) {
            Ok(attacker) => types.push(attacker)?,
            Err(e) => return Err(e),
        }
    }
    Ok(types)
}

fn most_types(scaled: bool) -> usize
    ensures { result ≡ (if scaled then 1 else TYPE_LIMIT) }
{
    if scaled { 1 } else { TYPE_LIMIT }
}

/// The types of a game in security form.
#[tactic(auto, unfolding(sg_format::specs::Types::security_types_at))]
pub(crate) fn security_types(
    alloc: Global,
    scaled: bool,
    targets: usize,
    value: &Value,
) -> Result<Vec<TypeParts>, GameError>
    ensures { GivesPart (λ v. map attacker_of v.items) result (security_types_at scaled targets (data_of value.now)) }
{
    let values = some(Place::Document, most_types(scaled), value)?;
    types_of(alloc, TypeForm::Security(scaled, targets), values)
}

/// The types of a game in matrix form.
#[tactic(auto, unfolding(sg_format::specs::Types::matrix_types_at))]
pub(crate) fn matrix_types(
    alloc: Global,
    rows: usize,
    value: &Value,
) -> Result<Vec<TypeParts>, GameError>
    ensures { GivesPart (λ v. map attacker_of v.items) result (matrix_types_at rows (data_of value.now)) }
{
    let values = some(Place::Document, TYPE_LIMIT, value)?;
    types_of(alloc, TypeForm::Matrix(rows), values)
}
