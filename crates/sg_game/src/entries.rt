//! The tests of names, members and lists.

ghost use Rattle.std.specs.Prelude.{◌≡◌, ◌≤◌, ◌++◌, ◌∷◌, [], List, ℕ, None, OnOk, length, nat_eq, string_bytes};
ghost use Rattle.std.specs.List.{list_all, list_any};
ghost use Rattle.std.specs.BTreeSet.{contains_text};
ghost use Rattle.sg_model.specs.Names.{is_name, is_name_byte};
ghost use Rattle.sg_model.specs.declared.limit.TheConstants.{SCALED_TARGET_LIMIT};
ghost use Rattle.sg_game.specs.Building.{Finds, FindsAlways};
ghost use Rattle.sg_game.specs.Entries.{Holds, place_of};
ghost use Rattle.sg_game.specs.Faults.{each_member_fault, entries_fault, is_within, lists_fault, member_fault, members_fault, name_fault, names_fault, fault_unless, ◌orelse◌};

use crate::fault::BuildFault;
use crate::parts::ListParts;
use sg_model::reason::{EMPTY_LIST, OUT_OF_RANGE, REPEATED_NAME, TOO_LARGE, UNKNOWN_NAME};
use sg_model::{GameFault, Place};
use std::alloc::Global;
use std::collections::BTreeSet;

/// Which list of entries is tested.
#[derive(Clone, Copy, Debug, PartialEq, Eq)]
pub(crate) enum Listing {
    /// Targets.
    Targets,
    /// Rows.
    Rows,
    /// Schedules.
    Schedules,
    /// Resources.
    Resources,
    /// Types of attacker.
    Types,
    /// The actions of this type.
    Actions(u32),
}

impl Listing {
    /// Where entry `n` stands.
    pub(crate) fn place(self, n: u32) -> Place
        ensures { result ≡ place_of self n }
    {
        match self {
            Listing::Targets => Place::Target(n),
            Listing::Rows => Place::Row(n),
            Listing::Schedules => Place::Schedule(n),
            Listing::Resources => Place::Resource(n),
            Listing::Types => Place::Attacker(n),
            Listing::Actions(of) => Place::Attacker(of),
        }
    }
}

/// Nothing where the test passes, or this fault.
pub(crate) fn passed(test: bool, reason: u8, place: Place) -> Result<(), GameFault>
    ensures { FindsAlways result (fault_unless test reason place) }
{
    if test {
        Ok(())
    } else {
        Err(GameFault { reason, place })
    }
}

/// Whether the number is from `low` to `high`.
pub(crate) fn is_within(low: i64, high: i64, z: i64) -> bool
    ensures { result ≡ is_within low high z }
{
    low <= z && z <= high
}

/// Whether each byte is a letter, a digit, an underscore or a dash.
fn has_name_bytes(bytes: &[u8]) -> bool
    ensures { result ≡ list_all is_name_byte bytes.now }
{
    bytes
        .iter()
        .all(|b| b.is_ascii_alphanumeric() || *b == b'_' || *b == b'-')
}

/// Whether the text is spelled as a name.
#[tactic(auto, unfolding(sg_model::specs::Names::is_name))]
fn is_spelled(text: &str) -> bool
    ensures { result ≡ is_name text.now }
{
    1 <= text.len() && text.len() <= 64 && has_name_bytes(text.as_bytes())
}

/// Tests a name, and adds it to the names seen.
pub(crate) fn take_name(
    alloc: Global,
    seen: &mut BTreeSet<String>,
    place: Place,
    name: &str,
) -> Result<(), BuildFault>
    ensures finds { (before : List (List ℕ)) → Holds seen.old before → Finds result (name_fault before place name.now) }
    ensures holds { (before : List (List ℕ)) → Holds seen.old before → OnOk result (Holds seen.new (before ++ name.now ∷ [])) }
{
    passed(is_spelled(name), OUT_OF_RANGE, place)?;
    let is_new = seen.insert(String::from_str(alloc, name)?)?;
    passed(is_new, REPEATED_NAME, place)?;
    Ok(())
}

/// Tests names in order.
pub(crate) fn test_names(
    alloc: Global,
    listing: Listing,
    names: &[String],
) -> Result<(), BuildFault>
    requires { length names.now ≤ SCALED_TARGET_LIMIT }
    ensures { Finds result (names_fault (place_of listing) names.now) }
{
    let mut seen: BTreeSet<String> = BTreeSet::new(alloc);
    for (i, name) in names.iter().enumerate() {
        take_name(alloc, &mut seen, listing.place(i as u32 + 1), name.as_str())?;
    }
    Ok(())
}

/// Whether `m` is one of the members.
fn is_among(members: &[u32], m: u32) -> bool
    ensures { result ≡ list_any (λ known. nat_eq known m) members.now }
{
    members.iter().any(|known| *known == m)
}

/// Tests a member, after those before it.
fn test_member(count: usize, place: Place, before: &[u32], m: u32) -> Result<(), GameFault>
    ensures { FindsAlways result (member_fault count place before.now m) }
{
    passed(1 <= m && m as usize <= count, UNKNOWN_NAME, place)?;
    passed(!is_among(before, m), REPEATED_NAME, place)
}

/// Tests members in order.
fn test_each_member(count: usize, place: Place, members: &[u32]) -> Result<(), GameFault>
    ensures { FindsAlways result (each_member_fault count place [] members.now) }
{
    for (i, m) in members.iter().enumerate() {
        test_member(count, place, &members[..i], *m)?;
    }
    Ok(())
}

/// Tests the members of a schedule or a resource.
fn test_members(count: usize, limit: usize, place: Place, list: &ListParts) -> Result<(), GameFault>
    ensures { FindsAlways result (members_fault count limit place list.now) }
{
    passed(1 <= list.members.len(), EMPTY_LIST, place)?;
    passed(list.members.len() <= limit, TOO_LARGE, place)?;
    test_each_member(count, place, list.members.as_slice())
}

/// Tests a schedule or a resource, and adds its name to the names seen.
fn take_list(
    alloc: Global,
    seen: &mut BTreeSet<String>,
    count: usize,
    limit: usize,
    place: Place,
    list: &ListParts,
) -> Result<(), BuildFault>
    ensures finds { (before : List (List ℕ)) → Holds seen.old before → Finds result (name_fault before place (string_bytes list.now.name) orelse members_fault count limit place list.now) }
    ensures holds { (before : List (List ℕ)) → Holds seen.old before → OnOk result (Holds seen.new (before ++ string_bytes list.now.name ∷ [])) }
{
    take_name(alloc, seen, place, list.name.as_str())?;
    test_members(count, limit, place, list)?;
    Ok(())
}

/// Tests schedules or resources in order.
fn test_each_list(
    alloc: Global,
    listing: Listing,
    count: usize,
    members_limit: usize,
    lists: &[ListParts],
) -> Result<(), BuildFault>
    requires { length lists.now ≤ SCALED_TARGET_LIMIT }
    ensures { Finds result (entries_fault (λ x. string_bytes x.name) (members_fault count members_limit) (place_of listing) [] lists.now) }
{
    let mut seen: BTreeSet<String> = BTreeSet::new(alloc);
    for (i, list) in lists.iter().enumerate() {
        take_list(
            alloc,
            &mut seen,
            count,
            members_limit,
            listing.place(i as u32 + 1),
            list,
        )?;
    }
    Ok(())
}

/// Tests schedules or resources: how many they are, and then each.
#[tactic(auto, unfolding(crate::specs::Faults::lists_fault))]
pub(crate) fn test_lists(
    alloc: Global,
    listing: Listing,
    count: usize,
    limit: usize,
    members_limit: usize,
    lists: &[ListParts],
) -> Result<(), BuildFault>
    requires { limit ≤ SCALED_TARGET_LIMIT }
    ensures { Finds result (lists_fault count limit members_limit (place_of listing) lists.now) }
{
    passed(lists.len() <= limit, TOO_LARGE, Place::Document)?;
    test_each_list(alloc, listing, count, members_limit, lists)
}
