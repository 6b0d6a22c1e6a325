//! Commitments made of plain data.

use sg_commit::Commitment;
use sg_model::{Play, Ticket};
use sqlite_items::Items;
use std::alloc::{AllocError, Global};
use std::test::Fail;

/// Parts of a commitment, each a weight and the choices of a play.
pub(crate) type Shares = &'static [(i128, &'static [u16])];

/// The parts of a commitment.
fn parts(alloc: Global, shares: &[(i128, &[u16])]) -> Result<Vec<Ticket>, AllocError> {
    let mut tickets = Vec::new(alloc);
    for (weight, choices) in shares {
        let code = Items::from_slice(alloc, choices)?;
        tickets.push(Ticket {
            play: Play { code },
            weight: *weight,
        })?;
    }
    Ok(tickets)
}

/// The commitment of parts without a fault.
pub(crate) fn commitment(alloc: Global, shares: &[(i128, &[u16])]) -> Result<Commitment, Fail> {
    Ok(Commitment::of(parts(alloc, shares)?)?)
}
