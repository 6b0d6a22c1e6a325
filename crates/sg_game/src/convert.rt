//! Parts as they lie in a game.

ghost use Rattle.std.specs.Prelude.{◌≡◌, ◌^◌, ◌<◌, All, IfOk, map, pos, slice_index_or, string_bytes};
ghost use Rattle.sg_model.specs.Sums.{numbers};
ghost use Rattle.sg_game.specs.Counts.{patrol_name, patrol_names};
ghost use Rattle.sg_game.specs.Converting.{FitAll, IsUnderLimit};
ghost use Rattle.sg_game.specs.Seen.{attacker_of, named_of, number_lists, texts};
ghost use Rattle.sg_model.specs.Games.{payoff_of};

use crate::game::{Attacker, Name, Named, Payoff};
use crate::parts::{ListParts, TypeParts};
use sqlite_items::Items;
use std::alloc::{AllocError, Global};

/// Names of texts.
pub(crate) fn names_from(alloc: Global, strings: Vec<String>) -> Result<Items<Name>, AllocError>
    ensures { IfOk result (λ names. names ≡ texts strings.items) }
{
    let mut names = Items::new(alloc);
    for text in strings {
        names.push(Name { text })?;
    }
    Ok(names)
}

/// The number at place `i`, counted from 0, and 0 where there is none.
fn number_at(numbers: &[i64], i: usize) -> i64
    ensures { result ≡ slice_index_or numbers.now i (pos 0) }
{
    match numbers.get(i) {
        Some(number) => *number,
        None => 0,
    }
}

/// The payoffs of four numbers.
fn payoff_from(numbers: &[i64]) -> Payoff
    ensures { result ≡ payoff_of numbers.now }
{
    Payoff {
        dc: number_at(numbers, 0),
        du: number_at(numbers, 1),
        ac: number_at(numbers, 2),
        au: number_at(numbers, 3),
    }
}

/// The payoffs of lists of four numbers.
fn payoffs_from(alloc: Global, lists: Vec<Vec<i64>>) -> Result<Items<Payoff>, AllocError>
    ensures { IfOk result (λ payoffs. payoffs ≡ map payoff_of (number_lists lists.items)) }
{
    let mut payoffs = Items::new(alloc);
    for numbers in &lists {
        payoffs.push(payoff_from(numbers.as_slice()))?;
    }
    Ok(payoffs)
}

/// A table of its rows.
fn table_from(alloc: Global, lists: Vec<Vec<i64>>) -> Result<Items<Items<i64>>, AllocError>
    ensures { IfOk result (λ table. table ≡ number_lists lists.items) }
{
    let mut table = Items::new(alloc);
    for list in lists {
        table.push(Items::from_vec(list))?;
    }
    Ok(table)
}

/// An attacker of its parts.
fn attacker_from(alloc: Global, x: TypeParts) -> Result<Attacker, AllocError>
    ensures { IfOk result (λ attacker. attacker ≡ attacker_of x) }
{
    let TypeParts {
        name,
        prior,
        payoffs,
        actions,
        leader,
        follower,
    } = x;
    let payoffs = payoffs_from(alloc, payoffs)?;
    let actions = names_from(alloc, actions)?;
    let leader = table_from(alloc, leader)?;
    let follower = table_from(alloc, follower)?;
    Ok(Attacker {
        name: Name { text: name },
        prior,
        payoffs,
        actions,
        leader,
        follower,
    })
}

/// Attackers of their parts.
pub(crate) fn attackers_from(
    alloc: Global,
    types: Vec<TypeParts>,
) -> Result<Items<Attacker>, AllocError>
    ensures { IfOk result (λ attackers. attackers ≡ map attacker_of types.items) }
{
    let mut attackers = Items::new(alloc);
    for x in types {
        attackers.push(attacker_from(alloc, x)?)?;
    }
    Ok(attackers)
}

/// The members of a schedule or a resource, as short numbers.
fn members_from(alloc: Global, members: &[u32]) -> Result<Items<u16>, AllocError>
    requires { FitAll members.now }
    ensures { IfOk result (λ items. items ≡ members.now) }
{
    let mut items = Items::new(alloc);
    for m in members {
        items.push(*m as u16)?;
    }
    Ok(items)
}

/// A schedule or a resource of its parts.
fn named_from(alloc: Global, x: ListParts) -> Result<Named, AllocError>
    requires { FitAll x.members.items }
    ensures { IfOk result (λ named. named ≡ named_of x) }
{
    let members = members_from(alloc, x.members.as_slice())?;
    let ListParts { name, members: _ } = x;
    Ok(Named {
        name: Name { text: name },
        members,
    })
}

/// Schedules or resources of their parts.
pub(crate) fn lists_from(alloc: Global, lists: Vec<ListParts>) -> Result<Items<Named>, AllocError>
    requires { All (λ x. FitAll x.members.items) lists.items }
    ensures { IfOk result (λ named. named ≡ map named_of lists.items) }
{
    let mut named = Items::new(alloc);
    for x in lists {
        named.push(named_from(alloc, x)?)?;
    }
    Ok(named)
}

/// The numbers from 1 to `n`.
pub(crate) fn numbers_to(alloc: Global, n: u16) -> Result<Items<u16>, AllocError>
    requires { n < 2 ^ 15 }
    ensures { IfOk result (λ items. items ≡ numbers n) }
{
    let mut items = Items::new(alloc);
    for k in 0..n {
        items.push(k + 1)?;
    }
    Ok(items)
}

/// The name of patrol `r`.
fn patrol_name_from(alloc: Global, r: u16) -> Result<Name, AllocError>
    ensures { IfOk result (λ name. name ≡ patrol_name r) }
{
    Ok(Name {
        text: format!(in alloc; "p{r}")?,
    })
}

/// The names of so many patrols.
fn names_to(alloc: Global, n: u16) -> Result<Items<Name>, AllocError>
    requires { n < 2 ^ 15 }
    ensures { IfOk result (λ names. names ≡ map patrol_name (numbers n)) }
{
    let mut names = Items::new(alloc);
    for k in 0..n {
        names.push(patrol_name_from(alloc, k + 1)?)?;
    }
    Ok(names)
}

/// The names of the patrols, where there are any.
pub(crate) fn patrols_named(alloc: Global, patrols: Option<u16>) -> Result<Items<Name>, AllocError>
    requires { IsUnderLimit (2 ^ 15) patrols }
    ensures { IfOk result (λ names. names ≡ patrol_names patrols) }
{
    match patrols {
        Some(n) => names_to(alloc, n),
        None => Ok(Items::new(alloc)),
    }
}
