//! Schedules and resources, whose members are named.

ghost use Rattle.std.specs.Prelude.{◌≡◌, ◌+◌, ◌-◌, ◌^◌, ◌<◌, ◌≤◌, ◌++◌, ◌∷◌, [], ℕ, List, length, map, IfOk, string_bytes, codes};
ghost use Rattle.toml.specs.View.{view as data_of, items_view, table_view};
ghost use Rattle.sg_model.specs.Games.{Named};
ghost use Rattle.sg_game.specs.Seen.{named_of};
ghost use Rattle.sg_format.specs.Documents.{needed_at};
ghost use Rattle.sg_format.specs.Lists.{each, known_at, member_at, members_at, named_at, named_lists_at};
ghost use Rattle.sg_file.specs.Answers.{GivesPart, TellsPart};
ghost use Rattle.sg_file.specs.Numbers.{Numbers, Marks};
ghost use Rattle.sg_file.specs.Sections.{key_of, member_place, limit_of, members_limit, section_of};

use crate::document::needed;
use crate::fault::{GameError, fault};
use crate::keys::{Section, known_keys};
use crate::names::{Index, add_name, find};
use crate::value::{few, some, table, text};
use sg_game::{GameFault, ListParts, Place};
use sg_model::limit::{
    RESOURCE_LIMIT, RESOURCE_SCHEDULE_LIMIT, SCHEDULE_LIMIT, SCHEDULE_TARGET_LIMIT,
};
use sg_model::reason::{REPEATED_NAME, UNKNOWN_NAME};
use std::alloc::Global;
use std::collections::{BTreeMap, BTreeSet};
use toml::{Table, Value};

/// Schedules or resources.
#[derive(Clone, Copy, Debug, PartialEq, Eq)]
pub(crate) enum Group {
    /// Schedules, whose members are targets.
    Schedules,
    /// Resources, whose members are schedules.
    Resources,
}

impl Group {
    fn place(self, n: u32) -> Place
        ensures { result ≡ member_place self n }
    {
        match self {
            Group::Schedules => Place::Schedule(n),
            Group::Resources => Place::Resource(n),
        }
    }

    fn limit(self) -> usize
        ensures exact { result ≡ limit_of self }
        ensures small { result ≤ 500 }
    {
        match self {
            Group::Schedules => SCHEDULE_LIMIT,
            Group::Resources => RESOURCE_LIMIT,
        }
    }

    fn members_limit(self) -> usize
        ensures { result ≡ members_limit self }
    {
        match self {
            Group::Schedules => SCHEDULE_TARGET_LIMIT,
            Group::Resources => RESOURCE_SCHEDULE_LIMIT,
        }
    }

    fn section(self) -> Section
        ensures { result ≡ section_of self }
    {
        match self {
            Group::Schedules => Section::Schedule,
            Group::Resources => Section::Resource,
        }
    }
}

/// The schedules or resources of a game, with the number of each name.
#[derive(Drop)]
pub(crate) struct NamedLists {
    /// The schedules or resources in order.
    pub parts: Vec<ListParts>,
    /// The number of each name.
    pub index: Index,
}

/// The value at the key of the members.
fn needed_members(group: Group, place: Place, table: &Table) -> Result<&Value, GameFault>
    ensures { TellsPart (λ v. data_of v.now) result (needed_at place (key_of group) (table_view table.now)) }
{
    match group {
        Group::Schedules => needed(place, "targets", table),
        Group::Resources => needed(place, "schedules", table),
    }
}

/// The number of one of the known names.
#[tactic(auto, unfolding(sg_format::specs::Lists::known_at))]
fn known_number(known: &Index, place: Place, value: &Value) -> Result<u32, GameFault>
    ensures { (names : List (List ℕ)) → Numbers known.now names → result ≡ known_at place names (data_of value.now) }
{
    let name = text(place, value)?;
    match find(known, name) {
        Some(number) => Ok(number),
        None => Err(fault(UNKNOWN_NAME, place)),
    }
}

/// Reads the number of a member that isn't in the set, and adds it.
#[tactic(auto, unfolding(sg_format::specs::Lists::member_at))]
fn add_member(
    known: &Index,
    seen: &mut BTreeSet<u32>,
    place: Place,
    value: &Value,
) -> Result<u32, GameError>
    ensures gives { (names : List (List ℕ)) (before : List ℕ) → Numbers known.now names → Marks seen.old before
        → GivesPart (λ n. n) result (member_at place names before (data_of value.now)) }
    ensures marked { (before : List ℕ) → Marks seen.old before → IfOk result (λ n. Marks seen.new (before ++ n ∷ [])) }
{
    let number = known_number(known, place, value)?;
    let added = seen.insert(number)?;
    if added {
        Ok(number)
    } else {
        Err(GameError::Refused(fault(REPEATED_NAME, place)))
    }
}

fn members_of(
    alloc: Global,
    known: &Index,
    place: Place,
    values: &[Value],
) -> Result<Vec<u32>, GameError>
    ensures { (names : List (List ℕ)) → Numbers known.now names
        → GivesPart (λ v. v.items) result (each (member_at place names) [] (items_view values.now)) }
{
    let mut members: Vec<u32> = Vec::new(alloc);
    let mut seen: BTreeSet<u32> = BTreeSet::new(alloc);
    for (i, value) in values.iter().enumerate() {
        match add_member(known, &mut seen, place, value) {
            Ok(number) => members.push(number)?,
            Err(e) => return Err(e),
        }
    }
    Ok(members)
}

/// The numbers of one to `limit` of the known names, no two the same.
#[tactic(auto, unfolding(sg_format::specs::Lists::members_at))]
fn members(
    alloc: Global,
    known: &Index,
    place: Place,
    limit: usize,
    value: &Value,
) -> Result<Vec<u32>, GameError>
    ensures { (names : List (List ℕ)) → Numbers known.now names
        → GivesPart (λ v. v.items) result (members_at place names limit (data_of value.now)) }
{
    let values = some(place, limit, value)?;
    members_of(alloc, known, place, values)
}

/// A schedule or resource with a new name, which is added to the index.
#[tactic(auto, unfolding(sg_format::specs::Lists::named_at))]
fn named(
    alloc: Global,
    group: Group,
    known: &Index,
    index: &mut Index,
    number: u32,
    value: &Value,
) -> Result<ListParts, GameError>
    ensures gives { (names : List (List ℕ)) (before : List Named) → Numbers known.now names
        → Numbers index.old (map (λ (x : Named). x.name) before)
        → GivesPart named_of result (named_at (member_place group number) (key_of group) names (members_limit group) before (data_of value.now)) }
    ensures indexed { (before : List (List ℕ)) → Numbers index.old before → number ≡ length before + 1
        → IfOk result (λ x. Numbers index.new (before ++ string_bytes x.name ∷ [])) }
{
    let place = group.place(number);
    let table = table(place, value)?;
    known_keys(place, group.section(), table)?;
    let own = needed(place, "name", table)?;
    let listed = needed_members(group, place, table)?;
    let name = add_name(alloc, index, place, number, own)?;
    let members = members(alloc, known, place, group.members_limit(), listed)?;
    Ok(ListParts { name, members })
}

fn lists_of(
    alloc: Global,
    group: Group,
    known: &Index,
    values: &[Value],
) -> Result<NamedLists, GameError>
    requires { length values.now < 2 ^ 32 - 1 }
    ensures gives { (names : List (List ℕ)) → Numbers known.now names
        → GivesPart (λ v. map named_of v.parts.items) result
        (each (λ before. named_at (member_place group (length before + 1)) (key_of group) names (members_limit group) before) [] (items_view values.now)) }
    ensures indexed { IfOk result (λ v. Numbers v.index (map (λ (x : Named). x.name) (map named_of v.parts.items))) }
{
    let mut parts: Vec<ListParts> = Vec::new(alloc);
    let mut index: Index = BTreeMap::new(alloc);
    for (i, value) in values.iter().enumerate() {
        let number = (i + 1) as u32;
        match named(alloc, group, known, &mut index, number, value) {
            Ok(part) => parts.push(part)?,
            Err(e) => return Err(e),
        }
    }
    Ok(NamedLists { parts, index })
}

/// The schedules or resources of a game.
#[tactic(auto, unfolding(sg_format::specs::Lists::named_lists_at))]
pub(crate) fn lists(
    alloc: Global,
    group: Group,
    known: &Index,
    value: &Value,
) -> Result<NamedLists, GameError>
    ensures gives { (names : List (List ℕ)) → Numbers known.now names
        → GivesPart (λ v. map named_of v.parts.items) result
        (named_lists_at (member_place group) (key_of group) names (limit_of group) (members_limit group) (data_of value.now)) }
    ensures indexed { IfOk result (λ v. Numbers v.index (map (λ (x : Named). x.name) (map named_of v.parts.items))) }
{
    let values = few(Place::Document, group.limit(), value)?;
    lists_of(alloc, group, known, values)
}
