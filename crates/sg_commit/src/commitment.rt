//! The commitment itself.

ghost use Rattle.std.specs.Prelude.{◌≡◌, IfOk};
ghost use Rattle.sg_commit.specs.Committed.{IsCommitted};

use sg_model::{Play, Ticket};
use sqlite_items::Items;
use std::alloc::{AllocError, Global};
use std::marker::Model;

/// A mixed strategy of the defender: plays, each with a weight, which is its count of tickets out of the total.
///
/// There is at least one ticket. The plays stand in strictly rising order of their lists, the weights are at least 1
/// and have no common divisor above 1, and the total is their sum. Nothing here says that the plays are legal.
#[derive(Drop)]
pub struct Commitment {
    pub(crate) tickets: Items<Ticket>,
    pub(crate) total: i128,
}

impl Model for Commitment {
    ghost use Rattle.sg_commit.specs.Committed.{Committed, IsCommitted};

    ghost Value = { Committed };

    ghost view = { λ k. record { tickets = k.tickets; total = k.total } };

    ghost invariant = { λ k. IsCommitted (record { tickets = k.tickets; total = k.total }) };
}

impl Commitment {
    /// The tickets. The contract says too what holds of every commitment.
    pub fn tickets(&self) -> &[Ticket]
        ensures value { result.now ≡ self.now.tickets }
        ensures rules { IsCommitted self.now }
    {
        self.tickets.as_slice()
    }

    /// The sum of the weights.
    pub fn total(&self) -> i128
        ensures { result ≡ self.now.total }
    {
        self.total
    }

    /// The tickets, moved out.
    pub fn into_tickets(self) -> Items<Ticket>
        ensures value { result ≡ self.tickets }
        ensures rules { IsCommitted self }
    {
        let Commitment { tickets, total: _ } = self;
        tickets
    }

    /// An equal commitment.
    ///
    /// # Errors
    ///
    /// An error only where memory ran out.
    pub fn copy(&self, alloc: Global) -> Result<Commitment, AllocError>
        ensures { IfOk result (λ copy. copy ≡ self.now) }
    {
        Ok(Commitment {
            tickets: copy_of(alloc, self.tickets.as_slice())?,
            total: self.total,
        })
    }
}

// Equal tickets.
fn copy_of(alloc: Global, tickets: &[Ticket]) -> Result<Items<Ticket>, AllocError>
    ensures { IfOk result (λ copy. copy ≡ tickets.now) }
{
    let mut copy = Items::new(alloc);
    for ticket in tickets {
        let code = Items::from_slice(alloc, ticket.play.code.as_slice())?;
        let play = Play { code };
        let weight = ticket.weight;
        copy.push(Ticket { play, weight })?;
    }
    Ok(copy)
}
