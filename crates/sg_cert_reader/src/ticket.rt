//! Reading tickets.

ghost use Rattle.std.specs.Prelude.{◌≡◌, ◌-◌, ◌^◌, ◌≤◌, [], IfOk, Ok, Err, true, int_le, pos};
ghost use Rattle.std.specs.Option.{option_copied};
ghost use Rattle.sg_tree.specs.Claims.{is_claim};
ghost use Rattle.sg_cert.specs.Fields.{fields};
ghost use Rattle.sg_cert_reader.specs.Steps.{GivesLines};
ghost use Rattle.sg_cert.specs.LineReading.{in_order, counts_of, follows, MayStand, ticket_head_of, ticket_end_of, ticket_of};
ghost use Rattle.sg_cert.specs.Reading.{repeat, last_play, ticket_at, claim_at};

use crate::error::ReportError;
use crate::field::{Fields, numbers, shaped};
use crate::lines::Lines;
use sg_model::{Play, Ticket};
use sg_tree::{Claim, precedes};
use sqlite_items::Items;
use std::alloc::{AllocError, Global};

/// The order of lines holds, or the reason is 7.
pub fn ordered(holds: bool) -> Result<(), u8>
    ensures { result ≡ in_order holds }
{
    if holds { Ok(()) } else { Err(7) }
}

/// Whether choices may follow those of the ticket before.
fn may_follow(before: Option<&[u16]>, choices: &[u16]) -> bool
    ensures { result ≡ follows (option_copied before.entry) choices.now }
{
    match before {
        None => true,
        Some(before) => precedes(before, choices),
    }
}

fn ticket_head(line: &[u8]) -> Result<(i128, Fields<'_>), u8>
    ensures read { result ≡ ticket_head_of (fields line.now) }
    ensures positive { IfOk result (λ head. int_le (pos 1) head.0 ≡ true) }
{
    shaped(b"t", 2, 202, line)?;
    let mut left = Fields::after(1, line);
    let weight = left.whole(1, i128::MAX)?;
    Ok((weight, left))
}

fn ticket_end(weight: i128, choices: Items<u16>, before: Option<&[u16]>) -> Result<Ticket, u8>
    requires { int_le (pos 1) weight ≡ true }
    ensures read { result ≡ ticket_end_of (option_copied before.entry) weight choices }
    ensures rules { IfOk result (λ t. MayStand (option_copied before.entry) t) }
{
    ordered(may_follow(before, choices.as_slice()))?;
    Ok(Ticket {
        play: Play { code: choices },
        weight,
    })
}

#[tactic(auto, unfolding(sg_cert::specs::LineReading::ticket_of))]
fn ticket_in(
    alloc: Global,
    line: &[u8],
    before: Option<&[u16]>,
) -> Result<Result<Ticket, u8>, AllocError>
    ensures read { IfOk result (λ read. read ≡ ticket_of (option_copied before.entry) (fields line.now)) }
    ensures rules { IfOk result (λ read. IfOk read (λ t. MayStand (option_copied before.entry) t)) }
{
    let (weight, left) = match ticket_head(line) {
        Ok(head) => head,
        Err(reason) => return Ok(Err(reason)),
    };
    match numbers(alloc, left, 0)? {
        Err(reason) => Ok(Err(reason)),
        Ok(choices) => Ok(ticket_end(weight, choices, before)),
    }
}

fn last_choices(tickets: &[Ticket]) -> Option<&[u16]>
    ensures { option_copied result ≡ last_play tickets.now }
{
    if tickets.is_empty() {
        None
    } else {
        match tickets.get(tickets.len() - 1) {
            None => None,
            Some(ticket) => Some(ticket.play.code.as_slice()),
        }
    }
}

#[tactic(auto, unfolding(sg_cert::specs::Reading::ticket_at))]
fn next_ticket(alloc: Global, lines: &mut Lines, done: &[Ticket]) -> Result<Ticket, ReportError>
    ensures read { GivesLines (λ t. t) result lines.new (ticket_at done.now lines.old) }
    ensures rules { IfOk result (λ t. MayStand (last_play done.now) t) }
{
    let line = match lines.next() {
        Ok(line) => line,
        Err(fault) => return Err(ReportError::Refused(fault)),
    };
    let read = ticket_in(alloc, line, last_choices(done))?;
    match lines.within(read) {
        Ok(ticket) => Ok(ticket),
        Err(fault) => Err(ReportError::Refused(fault)),
    }
}

fn tickets(alloc: Global, lines: &mut Lines, plays: u128) -> Result<Items<Ticket>, ReportError>
    requires { 1 ≤ plays }
    ensures read { GivesLines (λ ts. ts) result lines.new (repeat ticket_at [] plays lines.old) }
    ensures rules { IfOk result (λ ts. is_claim ts ≡ true) }
{
    let mut tickets = Items::new(alloc);
    for _ in 0..plays {
        match next_ticket(alloc, lines, tickets.as_slice()) {
            Ok(ticket) => tickets.push(ticket)?,
            Err(error) => return Err(error),
        }
    }
    Ok(tickets)
}

#[tactic(auto, unfolding(sg_cert::specs::LineReading::counts_of))]
fn counts_in(line: &[u8]) -> Result<(u128, i128), u8>
    ensures read { result ≡ counts_of (fields line.now) }
    ensures some { IfOk result (λ counts. 1 ≤ counts.0) }
{
    shaped(b"tickets", 3, 3, line)?;
    let mut left = Fields::after(1, line);
    let plays = left.natural(1, (1 << 127) - 1)?;
    let total = left.whole(i128::MIN, i128::MAX)?;
    Ok((plays, total))
}

/// The line of the number and total, and the tickets.
#[tactic(auto, unfolding(sg_cert::specs::Reading::claim_at))]
pub fn claim(alloc: Global, lines: &mut Lines) -> Result<Claim, ReportError>
    ensures { GivesLines (λ k. k) result lines.new (claim_at lines.old) }
{
    let line = lines.next()?;
    let (plays, total) = lines.within(counts_in(line))?;
    let tickets = tickets(alloc, lines, plays)?;
    Ok(Claim::of_rising(tickets, total))
}
