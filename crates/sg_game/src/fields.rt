//! The tests of the fields of parts, one after the other.

ghost use Rattle.std.specs.Prelude.{◌≡◌, ◌≤◌, ◌++◌, ◌∷◌, ◌&&◌, [], List, ℕ, OnOk, is_some, length, nat_eq, string_bytes};
ghost use Rattle.std.specs.List.{list_all};
ghost use Rattle.sg_model.specs.declared.fault.Place.TheVariants.{Attacker};
ghost use Rattle.sg_game.specs.Building.{Finds, HasOwnFields, FindsAlways};
ghost use Rattle.sg_game.specs.Entries.{Holds, place_of};
ghost use Rattle.sg_game.specs.Faults.{count_fault, entries_fault, names_fault, fields_fault, goal_limit, goals_fault, is_pay, is_table, name_fault, numbers_fault, option_fault, patrol_limit, pays_fault, prior_limit, tables_fault, type_fault, type_limit, types_fault, ◌orelse◌};
ghost use Rattle.sg_model.specs.Places.{goal_place};

use crate::entries::{Listing, is_within, passed, take_name, test_lists, test_names};
use crate::fault::BuildFault;
use crate::parts::{Parts, TypeParts};
use sg_model::limit::{
    ACTION_LIMIT, PATROL_LIMIT, PAYOFF_LIMIT, PRIOR_LIMIT, RESOURCE_LIMIT, RESOURCE_SCHEDULE_LIMIT,
    ROW_LIMIT, SCALE_LIMIT, SCALED_PATROL_LIMIT, SCALED_TARGET_LIMIT, SCHEDULE_LIMIT,
    SCHEDULE_TARGET_LIMIT, TARGET_LIMIT, TYPE_LIMIT,
};
use sg_model::reason::{EMPTY_LIST, MISSING_KEY, OUT_OF_RANGE, TOO_LARGE};
use sg_model::{GameFault, Kind, Place};
use std::alloc::Global;
use std::collections::BTreeSet;

/// Whether the number is a payoff.
fn is_pay(z: i64) -> bool
    ensures { result ≡ is_pay z }
{
    is_within(-PAYOFF_LIMIT, PAYOFF_LIMIT, z)
}

/// Whether each number is a payoff.
fn are_pays(row: &[i64]) -> bool
    ensures { result ≡ list_all is_pay row.now }
{
    row.iter().all(|z| is_pay(*z))
}

/// Whether the list has `n` payoffs.
fn is_pay_row(n: usize, row: &Vec<i64>) -> bool
    ensures { result ≡ (nat_eq (length row.now.items) n && list_all is_pay row.now.items) }
{
    row.len() == n && are_pays(row.as_slice())
}

/// Whether each list has `n` payoffs.
fn are_pay_rows(n: usize, table: &[Vec<i64>]) -> bool
    ensures { result ≡ list_all (λ row. nat_eq (length row.items) n && list_all is_pay row.items) table.now }
{
    table.iter().all(|row| is_pay_row(n, row))
}

/// Whether there is a list for each of `m` rows, each with `n` payoffs.
fn is_table(m: usize, n: usize, table: &[Vec<i64>]) -> bool
    ensures { result ≡ is_table m n table.now }
{
    table.len() == m && are_pay_rows(n, table)
}

/// Tests the actions and tables of type `l`.
#[tactic(auto, unfolding(crate::specs::Faults::tables_fault))]
fn test_tables(alloc: Global, goals: usize, l: u32, x: &TypeParts) -> Result<(), BuildFault>
    ensures { Finds result (tables_fault goals (Attacker l) x.now) }
{
    let place = Place::Attacker(l);
    let actions = x.actions.len();
    passed(1 <= actions, EMPTY_LIST, place)?;
    passed(actions <= ACTION_LIMIT, TOO_LARGE, place)?;
    test_names(alloc, Listing::Actions(l), x.actions.as_slice())?;
    passed(
        is_table(goals, actions, x.leader.as_slice()),
        OUT_OF_RANGE,
        place,
    )?;
    passed(
        is_table(goals, actions, x.follower.as_slice()),
        OUT_OF_RANGE,
        place,
    )?;
    Ok(())
}

/// Tests what type `l` gets.
fn test_pays(
    alloc: Global,
    kind: Kind,
    goals: usize,
    l: u32,
    x: &TypeParts,
) -> Result<(), BuildFault>
    ensures { Finds result (pays_fault kind goals (Attacker l) x.now) }
{
    match kind {
        Kind::Security => {
            passed(
                is_table(goals, 4, x.payoffs.as_slice()),
                9,
                Place::Attacker(l),
            )?;
            Ok(())
        }
        Kind::Matrix => test_tables(alloc, goals, l, x),
    }
}

/// Tests type `l` but for its name.
fn test_type(
    alloc: Global,
    kind: Kind,
    prior_limit: i64,
    goals: usize,
    l: u32,
    x: &TypeParts,
) -> Result<(), BuildFault>
    ensures { Finds result (type_fault kind prior_limit goals (Attacker l) x.now) }
{
    passed(
        is_within(1, prior_limit, x.prior),
        OUT_OF_RANGE,
        Place::Attacker(l),
    )?;
    test_pays(alloc, kind, goals, l, x)
}

/// Tests types in order.
fn test_each_type(
    alloc: Global,
    kind: Kind,
    prior_limit: i64,
    goals: usize,
    types: &[TypeParts],
) -> Result<(), BuildFault>
    requires { length types.now ≤ TYPE_LIMIT }
    ensures { Finds result (entries_fault (λ x. string_bytes x.name) (type_fault kind prior_limit goals) Attacker [] types.now) }
{
    let mut seen: BTreeSet<String> = BTreeSet::new(alloc);
    for (i, x) in types.iter().enumerate() {
        take_type(alloc, &mut seen, kind, prior_limit, goals, i as u32 + 1, x)?;
    }
    Ok(())
}

/// Tests type `l`, and adds its name to the names seen.
fn take_type(
    alloc: Global,
    seen: &mut BTreeSet<String>,
    kind: Kind,
    prior_limit: i64,
    goals: usize,
    l: u32,
    x: &TypeParts,
) -> Result<(), BuildFault>
    ensures finds { (before : List (List ℕ)) → Holds seen.old before → Finds result (name_fault before (Attacker l) (string_bytes x.now.name) orelse type_fault kind prior_limit goals (Attacker l) x.now) }
    ensures holds { (before : List (List ℕ)) → Holds seen.old before → OnOk result (Holds seen.new (before ++ string_bytes x.now.name ∷ [])) }
{
    take_name(alloc, seen, Place::Attacker(l), x.name.as_str())?;
    test_type(alloc, kind, prior_limit, goals, l, x)?;
    Ok(())
}

/// How great a prior may be.
fn prior_limit(is_scaled: bool) -> i64
    ensures { result ≡ prior_limit is_scaled }
{
    if is_scaled { 1 } else { PRIOR_LIMIT }
}

/// How many types there may be.
fn type_limit(is_scaled: bool) -> usize
    ensures { result ≡ type_limit is_scaled }
{
    if is_scaled { 1 } else { TYPE_LIMIT }
}

/// How many patrols there may be.
fn patrol_limit(is_scaled: bool) -> i64
    ensures { result ≡ patrol_limit is_scaled }
{
    if is_scaled {
        SCALED_PATROL_LIMIT as i64
    } else {
        PATROL_LIMIT as i64
    }
}

/// How many targets or rows there may be.
fn goal_limit(kind: Kind, is_scaled: bool) -> usize
    ensures limit { result ≡ goal_limit kind is_scaled }
    ensures few { result ≤ SCALED_TARGET_LIMIT }
{
    match kind {
        Kind::Security => {
            if is_scaled {
                SCALED_TARGET_LIMIT
            } else {
                TARGET_LIMIT
            }
        }
        Kind::Matrix => ROW_LIMIT,
    }
}

/// Tests the names of the targets or rows.
fn test_goal_names(alloc: Global, kind: Kind, goals: &[String]) -> Result<(), BuildFault>
    requires { length goals.now ≤ SCALED_TARGET_LIMIT }
    ensures { Finds result (names_fault (goal_place kind) goals.now) }
{
    match kind {
        Kind::Security => test_names(alloc, Listing::Targets, goals),
        Kind::Matrix => test_names(alloc, Listing::Rows, goals),
    }
}

/// Tests that a list has an entry, and no more than so many.
fn test_count(count: usize, limit: usize) -> Result<(), GameFault>
    ensures { FindsAlways result (count_fault count limit) }
{
    passed(1 <= count, EMPTY_LIST, Place::Document)?;
    passed(count <= limit, TOO_LARGE, Place::Document)
}

/// Tests the targets or rows.
#[tactic(auto, unfolding(crate::specs::Faults::goals_fault))]
fn test_goals(alloc: Global, is_scaled: bool, parts: &Parts) -> Result<(), BuildFault>
    requires { is_scaled ≡ is_some parts.now.scale }
    ensures { Finds result (goals_fault parts.now) }
{
    let goals = parts.goals.as_slice();
    test_count(goals.len(), goal_limit(parts.kind, is_scaled))?;
    test_goal_names(alloc, parts.kind, goals)
}

/// Tests a number, where there is one.
fn test_option(low: i64, high: i64, number: Option<i64>) -> Result<(), GameFault>
    ensures { FindsAlways result (option_fault low high number) }
{
    match number {
        Some(z) => passed(is_within(low, high, z), OUT_OF_RANGE, Place::Document),
        None => Ok(()),
    }
}

/// Tests the scale and the patrols.
#[tactic(auto, unfolding(crate::specs::Faults::numbers_fault))]
fn test_numbers(is_scaled: bool, parts: &Parts) -> Result<(), GameFault>
    requires { is_scaled ≡ is_some parts.now.scale }
    ensures { FindsAlways result (numbers_fault parts.now) }
{
    test_option(1, SCALE_LIMIT, parts.scale)?;
    test_option(0, patrol_limit(is_scaled), parts.patrols)
}

/// Tests the types.
#[tactic(auto, unfolding(crate::specs::Faults::types_fault))]
fn test_types(alloc: Global, is_scaled: bool, parts: &Parts) -> Result<(), BuildFault>
    requires { is_scaled ≡ is_some parts.now.scale }
    ensures { Finds result (types_fault parts.now) }
{
    let types = parts.types.as_slice();
    test_count(types.len(), type_limit(is_scaled))?;
    test_each_type(
        alloc,
        parts.kind,
        prior_limit(is_scaled),
        parts.goals.len(),
        types,
    )
}

/// Tests the fields, one after the other.
#[tactic(auto, unfolding(crate::specs::Faults::fields_fault))]
pub(crate) fn test_fields(alloc: Global, parts: &Parts) -> Result<(), BuildFault>
    ensures { Finds result (fields_fault parts.now) }
{
    let is_scaled = parts.scale.is_some();
    passed(
        !is_scaled || parts.patrols.is_some(),
        MISSING_KEY,
        Place::Document,
    )?;
    test_goals(alloc, is_scaled, parts)?;
    test_numbers(is_scaled, parts)?;
    test_lists(
        alloc,
        Listing::Schedules,
        parts.goals.len(),
        SCHEDULE_LIMIT,
        SCHEDULE_TARGET_LIMIT,
        parts.schedules.as_slice(),
    )?;
    test_lists(
        alloc,
        Listing::Resources,
        parts.schedules.len(),
        RESOURCE_LIMIT,
        RESOURCE_SCHEDULE_LIMIT,
        parts.resources.as_slice(),
    )?;
    test_types(alloc, is_scaled, parts)
}
