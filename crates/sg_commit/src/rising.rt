//! A commitment of tickets that stand in rising order already.

ghost use Rattle.std.specs.Prelude.{◌≡◌, ◌≢◌, ◌↔◌, ◌≤◌, [], true, length, pos, ◌≤ℤ◌, All, IfSome, IsNone, IsTrue};
ghost use Rattle.sg_model.specs.declared.ticket.Ticket.{Ticket};
ghost use Rattle.sg_model.specs.Commitments.{weight_total, AreLowest};
ghost use Rattle.sg_commit.specs.Committed.{is_rising};
ghost use Rattle.sg_commit.specs.Rising.{AreShares};

use crate::commitment::Commitment;
use crate::joining::common_divisor;
use crate::parts::running_sum;
use sg_model::Ticket;
use sqlite_items::Items;

impl Commitment {
    /// These tickets, which stand in rising order, and the total that is said of them. `None` exactly where the total is
    /// not the sum of the weights, or a number above 1 divides all of them.
    pub fn of_rising(tickets: Items<Ticket>, total: i128) -> Option<Commitment>
        requires some { tickets ≢ [] }
        requires positive { All (λ (x : Ticket). pos 1 ≤ℤ x.weight) tickets }
        requires rising { is_rising tickets ≡ true }
        ensures value { IfSome result (λ k. k ≡ record { tickets = tickets; total = total }) }
        ensures none { IsNone result ↔ (¬ (AreShares tickets total)) }
    {
        if is_sum(tickets.as_slice(), total) && is_lowest(tickets.as_slice()) {
            Some(Commitment { tickets, total })
        } else {
            None
        }
    }
}

// Whether two numbers are the same.
fn is_same(a: i128, b: i128) -> bool
    ensures { IsTrue result ↔ (a ≡ b) }
{
    a == b
}

// Whether a total is the sum of the weights.
fn is_sum(tickets: &[Ticket], total: i128) -> bool
    requires { All (λ (x : Ticket). pos 1 ≤ℤ x.weight) tickets.now }
    ensures { IsTrue result ↔ (total ≡ weight_total tickets.now) }
{
    match running_sum(tickets) {
        Ok(sum) => is_same(sum, total),
        Err(_) => false,
    }
}

// Whether no number above 1 divides all weights.
fn is_lowest(tickets: &[Ticket]) -> bool
    requires some { 1 ≤ length tickets.now }
    requires positive { All (λ (x : Ticket). pos 1 ≤ℤ x.weight) tickets.now }
    ensures { IsTrue result ↔ AreLowest tickets.now }
{
    is_same(common_divisor(tickets), 1)
}
