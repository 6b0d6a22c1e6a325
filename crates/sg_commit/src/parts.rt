//! A commitment made of parts.

ghost use Rattle.std.specs.Prelude.{◌≡◌, pos, Some, None, IfOk, MatchResult};
ghost use Rattle.sg_num.specs.Exact.{exact_sum};
ghost use Rattle.sg_commit.specs.Parts.{AreMultiple, exact_total, part_fault, first_below};

use crate::commitment::Commitment;
use crate::joining::tickets_of;
use sg_model::Ticket;
use sg_num::{Wide, sum};
use thiserror::Error;

/// Why no commitment is made of parts.
#[derive(Clone, Copy, Debug, PartialEq, Eq, Error)]
pub enum PartFault {
    /// There is no part.
    #[error("there is no part")]
    Empty,
    /// The weight at this place, counted from 0, is the first below 1.
    #[error("the weight at place {0} is below 1")]
    NotPositive(usize),
    /// This is the first running sum of the weights that does not fit.
    #[error("a running sum of the weights does not fit 128 bits")]
    Wide(Wide),
}

impl Commitment {
    /// The commitment that gives each play its share of the parts' weights.
    ///
    /// The parts may stand in any order, and several may have the same play. They are sorted, those of one play are
    /// joined, and the weights are divided by their common divisor, all in place.
    ///
    /// # Errors
    ///
    /// The first of: no part, a weight below 1, a running sum of the weights, in the given order, that does not fit.
    pub fn of(parts: Vec<Ticket>) -> Result<Commitment, PartFault>
        ensures faults { MatchResult result (λ _. part_fault parts.items ≡ None) (λ fault. part_fault parts.items ≡ Some fault) }
        ensures shares { IfOk result (λ k. AreMultiple parts.items k.tickets) }
    {
        let total = sum_of(parts.as_slice())?;
        Ok(tickets_of(parts, total))
    }
}

// The place of the first weight below 1.
fn place_below(parts: &[Ticket]) -> Option<usize>
    ensures { result ≡ first_below 0 parts.now }
{
    for (i, part) in parts.iter().enumerate() {
        if part.weight < 1 {
            return Some(i);
        }
    }
    None
}

// The sum of the weights.
pub(crate) fn running_sum(parts: &[Ticket]) -> Result<i128, Wide>
    ensures { result ≡ exact_total (pos 0) parts.now }
{
    let mut acc = 0;
    for part in parts {
        match sum(acc, part.weight) {
            Ok(next) => acc = next,
            Err(wide) => return Err(wide),
        }
    }
    Ok(acc)
}

// The sum of the weights, where the parts have no fault.
fn sum_of(parts: &[Ticket]) -> Result<i128, PartFault>
    ensures { MatchResult result (λ total. (part_fault parts.now ≡ None) × (exact_total (pos 0) parts.now ≡ Ok total)) (λ fault. part_fault parts.now ≡ Some fault) }
{
    if parts.is_empty() {
        return Err(PartFault::Empty);
    }
    match place_below(parts) {
        Some(place) => Err(PartFault::NotPositive(place)),
        None => match running_sum(parts) {
            Ok(total) => Ok(total),
            Err(wide) => Err(PartFault::Wide(wide)),
        },
    }
}
