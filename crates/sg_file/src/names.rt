//! Lists of names, each with its number.

ghost use Rattle.std.specs.Prelude.{◌≡◌, ◌+◌, ◌-◌, ◌^◌, ◌<◌, ◌++◌, ◌∷◌, [], ℕ, List, length, None, IfOk, OnOk, string_bytes};
ghost use Rattle.std.specs.BTreeMap.{get_by_text};
ghost use Rattle.toml.specs.View.{view as data_of, items_view};
ghost use Rattle.sg_game.specs.Seen.{texts};
ghost use Rattle.sg_format.specs.Lists.{each, new_name, names_at};
ghost use Rattle.sg_file.specs.Answers.{GivesPart, TellsPart};
ghost use Rattle.sg_file.specs.Numbers.{Numbers};
ghost use Rattle.sg_file.specs.Sections.{listing_place, entry_of};

use crate::fault::{GameError, fault};
use crate::value::{name, some};
use sg_game::{GameFault, Place};
use sg_model::reason::REPEATED_NAME;
use std::alloc::{AllocError, Global};
use std::collections::BTreeMap;
use toml::Value;

/// The number of each name, counted from 1.
pub(crate) type Index = BTreeMap<String, u32>;

/// Names with their numbers.
#[derive(Drop)]
pub(crate) struct NameList {
    /// The names in order.
    pub list: Vec<String>,
    /// The number of each name.
    pub index: Index,
}

/// Which list of names is read.
#[derive(Clone, Copy, Debug, PartialEq, Eq)]
pub(crate) enum Listing {
    /// The targets.
    Targets,
    /// The rows.
    Rows,
    /// The actions of the type of this number.
    Actions(u32),
}

impl Listing {
    fn whole(self) -> Place
        ensures { result ≡ listing_place self }
    {
        match self {
            Listing::Targets => Place::Document,
            Listing::Rows => Place::Document,
            Listing::Actions(l) => Place::Attacker(l),
        }
    }

    fn entry(self, n: u32) -> Place
        ensures { result ≡ entry_of self n }
    {
        match self {
            Listing::Targets => Place::Target(n),
            Listing::Rows => Place::Row(n),
            Listing::Actions(l) => Place::Attacker(l),
        }
    }
}

/// The number of a name.
pub(crate) fn find(index: &Index, name: &str) -> Option<u32>
    ensures { result ≡ get_by_text index.now name.now }
{
    index.get(name).copied()
}

/// A name that isn't in the index.
#[tactic(auto, unfolding(sg_format::specs::Lists::new_name))]
fn new_name<'a>(index: &Index, place: Place, value: &'a Value) -> Result<&'a str, GameFault>
    ensures gives { (before : List (List ℕ)) → Numbers index.now before
        → TellsPart (λ text. text.now) result (new_name place before (data_of value.now)) }
    ensures absent { IfOk result (λ text. get_by_text index.now text.now ≡ None) }
{
    let name = name(place, value)?;
    match find(index, name) {
        Some(_) => Err(fault(REPEATED_NAME, place)),
        None => Ok(name),
    }
}

/// Adds a name with its number, and gives a copy of it.
fn keep(alloc: Global, index: &mut Index, name: &str, number: u32) -> Result<String, AllocError>
    requires { get_by_text index.old name.now ≡ None }
    ensures copy { IfOk result (λ text. string_bytes text ≡ name.now) }
    ensures indexed { (before : List (List ℕ)) → Numbers index.old before → number ≡ length before + 1
        → OnOk result (Numbers index.new (before ++ name.now ∷ [])) }
{
    let copy = String::from_str(alloc, name)?;
    match index.insert(String::from_str(alloc, name)?, number) {
        Ok(_) => Ok(copy),
        Err(_) => Err(AllocError),
    }
}

/// Reads a name that isn't in the index, and adds it with its number.
pub(crate) fn add_name(
    alloc: Global,
    index: &mut Index,
    place: Place,
    number: u32,
    value: &Value,
) -> Result<String, GameError>
    ensures gives { (before : List (List ℕ)) → Numbers index.old before
        → GivesPart string_bytes result (new_name place before (data_of value.now)) }
    ensures indexed { (before : List (List ℕ)) → Numbers index.old before → number ≡ length before + 1
        → IfOk result (λ text. Numbers index.new (before ++ string_bytes text ∷ [])) }
{
    let name = new_name(index, place, value)?;
    Ok(keep(alloc, index, name, number)?)
}

fn names_of(alloc: Global, listing: Listing, values: &[Value]) -> Result<NameList, GameError>
    requires { length values.now < 2 ^ 32 - 1 }
    ensures gives { GivesPart (λ v. texts v.list.items) result
        (each (λ before entry. new_name (entry_of listing (length before + 1)) before entry) [] (items_view values.now)) }
    ensures indexed { IfOk result (λ v. Numbers v.index (texts v.list.items)) }
{
    let mut list: Vec<String> = Vec::new(alloc);
    let mut index: Index = BTreeMap::new(alloc);
    for (i, value) in values.iter().enumerate() {
        let number = (i + 1) as u32;
        let place = listing.entry(number);
        match add_name(alloc, &mut index, place, number, value) {
            Ok(name) => list.push(name)?,
            Err(e) => return Err(e),
        }
    }
    Ok(NameList { list, index })
}

/// One to `limit` names, no two the same.
#[tactic(auto, unfolding(sg_format::specs::Lists::names_at))]
pub(crate) fn names(
    alloc: Global,
    listing: Listing,
    limit: u32,
    value: &Value,
) -> Result<NameList, GameError>
    requires { limit < 2 ^ 32 - 1 }
    ensures gives { GivesPart (λ v. texts v.list.items) result (names_at (listing_place listing) (entry_of listing) limit (data_of value.now)) }
    ensures indexed { IfOk result (λ v. Numbers v.index (texts v.list.items)) }
{
    let values = some(listing.whole(), limit as usize, value)?;
    names_of(alloc, listing, values)
}
