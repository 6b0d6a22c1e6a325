//! The list of places.

ghost use Rattle.std.specs.Prelude.{◌≡◌, ◌++◌, ◌+◌, ◌^◌, ◌≤◌, ◌<◌, ℤ, pos, ◌≤ℤ◌, All, Err, IfErr, IfOk, OnOk, length, replicate, unsigned_abs};
ghost use Rattle.sg_model.specs.Commitments.{weight_total};
ghost use Rattle.sg_tickets.specs.Expansion.{IsLongTotal, places_of};
ghost use Rattle.sg_tickets.specs.ExpansionLaws.{ArePositive};

use sg_commit::Commitment;
use sg_model::Ticket;
use std::alloc::{AllocError, Global};

/// The most tickets that are listed.
const MOST_TICKETS: i128 = 1_000_000;

/// Why the tickets of a commitment are not listed.
#[derive(Clone, Copy, Debug, PartialEq, Eq)]
pub enum LongFault {
    /// There are more than a million tickets: so many.
    TooLong(i128),
    /// Memory ran out.
    Memory,
}

/// Adds the place so many times.
fn add_copies(list: &mut Vec<u32>, place: u32, count: usize) -> Result<(), AllocError>
    requires { length list.old.items + count < 2 ^ 64 }
    ensures { OnOk result (list.new.items ≡ list.old.items ++ replicate count place) }
{
    list.resize(list.len() + count, place)
}

/// The weight of a ticket of at most a million.
fn count_of(ticket: &Ticket) -> usize
    requires some { pos 1 ≤ℤ ticket.now.weight }
    requires few { ticket.now.weight ≤ℤ pos 1000000 }
    ensures { result ≡ unsigned_abs ticket.now.weight }
{
    ticket.weight as usize
}

/// The places of tickets that are few.
fn listed(alloc: Global, tickets: &[Ticket], total: usize) -> Result<Vec<u32>, AllocError>
    requires positive { ArePositive tickets.now }
    requires total { pos total ≡ weight_total tickets.now }
    requires few { total ≤ 1000000 }
    ensures { IfOk result (λ list. list.items ≡ places_of tickets.now) }
{
    let mut list = Vec::with_capacity(alloc, total)?;
    for place in 0..tickets.len() {
        let count = count_of(&tickets[place]);
        add_copies(&mut list, place as u32, count)?;
    }
    Ok(list)
}

/// The place of each ticket's play among those of the commitment, counted from 0, as often as its weight, in rising
/// order.
///
/// # Errors
///
/// `TooLong` exactly where the total is above a million, with the total. Else only memory may be wanting.
pub fn expand(alloc: Global, k: &Commitment) -> Result<Vec<u32>, LongFault>
    ensures places { IfOk result (λ list. list.items ≡ places_of k.now.tickets) }
    ensures known { IfOk result (λ list. All (λ i. i < length k.now.tickets) list.items) }
    ensures long { IsLongTotal k.now.total → result ≡ Err (LongFault.TooLong k.now.total) }
    ensures cause { IfErr result (λ fault. (total : ℤ) → fault ≡ LongFault.TooLong total → IsLongTotal k.now.total × (total ≡ k.now.total)) }
{
    let tickets = k.tickets();
    let total = k.total();
    if total > MOST_TICKETS {
        return Err(LongFault::TooLong(total));
    }
    match listed(alloc, tickets, total as usize) {
        Ok(list) => Ok(list),
        Err(_) => Err(LongFault::Memory),
    }
}
