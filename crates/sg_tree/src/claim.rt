//! What a report says of its tickets.

ghost use Rattle.std.specs.Prelude.{◌≡◌, ◌↔◌, true, Some, None, IfSome, IsNone, if◌then◌else◌};
ghost use Rattle.sg_commit.specs.Rising.{AreShares};
ghost use Rattle.sg_tree.specs.Claims.{HaveOneLength, is_claim, is_claim_rising, are_positive, comes_before};

use sg_commit::Commitment;
use sg_model::Ticket;
use sqlite_items::Items;
use std::cmp::Ordering;
use std::marker::Model;

/// The tickets of a report and the total that it states. There is at least one ticket, weights are at least 1, and
/// the lists of choices have equal length and stand in strictly rising order. The total is any number.
#[derive(Drop)]
pub struct Claim {
    tickets: Items<Ticket>,
    total: i128,
}

impl Model for Claim {
    ghost use Rattle.std.specs.Prelude.{◌≡◌, true};
    ghost use Rattle.sg_tree.specs.Claims.{Claimed, is_claim};

    ghost Value = { Claimed };

    ghost view = { λ c. record { tickets = c.tickets; total = c.total } };

    ghost invariant = { λ c. is_claim c.tickets ≡ true };
}

impl Claim {
    /// These tickets and this total. `None` exactly where there is no ticket, a weight is below 1, or the lists
    /// differ in length or don't stand in strictly rising order.
    pub fn new(tickets: Items<Ticket>, total: i128) -> Option<Claim>
        ensures { result ≡ (if is_claim tickets then Some (record { tickets = tickets; total = total }) else None) }
    {
        if has_claim(tickets.as_slice()) {
            Some(Claim { tickets, total })
        } else {
            None
        }
    }

    /// These tickets, of which the rules are known to hold, and this total.
    pub fn of_rising(tickets: Items<Ticket>, total: i128) -> Claim
        requires { is_claim tickets ≡ true }
        ensures { result ≡ record { tickets = tickets; total = total } }
    {
        Claim { tickets, total }
    }

    /// The tickets and the total of a commitment, whose lists of choices have one length.
    pub fn of(k: Commitment) -> Claim
        requires { HaveOneLength k.tickets }
        ensures { result ≡ record { tickets = k.tickets; total = k.total } }
    {
        let total = k.total();
        let tickets = k.into_tickets();
        Claim { tickets, total }
    }

    /// The same tickets and total, as a commitment. `None` exactly where the total is not the sum of the weights, or a
    /// number above 1 divides all of them.
    pub fn commit(self) -> Option<Commitment>
        ensures value { IfSome result (λ k. k ≡ record { tickets = self.tickets; total = self.total }) }
        ensures none { IsNone result ↔ (¬ (AreShares self.tickets self.total)) }
    {
        let Claim { tickets, total } = self;
        Commitment::of_rising(tickets, total)
    }

    /// The tickets. The contract says too what holds of every claim.
    pub fn tickets(&self) -> &[Ticket]
        ensures value { result.now ≡ self.now.tickets }
        ensures rules { is_claim self.now.tickets ≡ true }
    {
        self.tickets.as_slice()
    }

    /// The total.
    pub fn total(&self) -> i128
        ensures { result ≡ self.now.total }
    {
        self.total
    }
}

/// Whether a list of choices is as long as another and comes before it.
pub fn precedes(before: &[u16], after: &[u16]) -> bool
    ensures { result ≡ comes_before before.now after.now }
{
    before.len() == after.len() && before.cmp(after) == Ordering::Less
}

// Whether each list of choices comes before the next.
fn has_order(tickets: &[Ticket]) -> bool
    ensures { result ≡ is_claim_rising tickets.now }
{
    let mut rest = tickets;
    while let [first, others @ ..] = rest {
        match others {
            [] => return true,
            [second, ..] => {
                if !precedes(first.play.code.as_slice(), second.play.code.as_slice()) {
                    return false;
                }
            }
        }
        rest = others;
    }
    true
}

// Whether all weights are at least 1.
fn has_weights(tickets: &[Ticket]) -> bool
    ensures { result ≡ are_positive tickets.now }
{
    tickets.iter().all(|ticket| ticket.weight >= 1)
}

// Whether the rules of a claim hold.
fn has_claim(tickets: &[Ticket]) -> bool
    ensures { result ≡ is_claim tickets.now }
{
    !tickets.is_empty() && has_weights(tickets) && has_order(tickets)
}
