//! The incumbent: the best commitment so far.

ghost use Rattle.std.specs.Prelude.{◌≡◌, IfOk, OnOk, List};
ghost use Rattle.sg_tree.specs.declared.fix.Fix.{Fix};
ghost use Rattle.sg_tree.specs.declared.fact.Fact.{Fact};
ghost use Rattle.sg_search.specs.Results.{IsResult};
ghost use Rattle.sg_lanes.specs.Rises.{IsRise, best_after, value_after};

use crate::bound::is_above;
use crate::lanes::Lanes;
use sg_commit::{Commitment, value as value_of};
use sg_frac::Frac;
use std::alloc::{AllocError, Global};

/// A commitment with its value.
#[derive(Drop)]
pub(crate) struct Best {
    /// The commitment.
    pub(crate) commitment: Commitment,
    /// The defender's value for it.
    pub(crate) value: Frac,
}

/// The value of the incumbent after a rise.
pub(crate) fn value_with(best: &Option<Best>, value: Frac) -> Frac
    ensures { result ≡ value_after best.now value }
{
    match best {
        Some(best) => best.value,
        None => value,
    }
}

/// Puts a better commitment in the incumbent's place.
pub(crate) fn put_best(commitment: &mut Commitment, value: &mut Frac, best: Option<Best>)
    ensures commitment { commitment.new ≡ best_after best commitment.old }
    ensures value { value.new ≡ value_after best value.old }
{
    match best {
        Some(best) => {
            let Best {
                commitment: new,
                value: new_value,
            } = best;
            *commitment = new;
            *value = new_value;
        }
        None => {}
    }
}

impl<'a> Lanes<'a> {
    /// A point that is better than the incumbent, with its value; an equal one doesn't replace it.
    pub(crate) fn rise(
        &self,
        alloc: Global,
        point: &Option<Commitment>,
    ) -> Result<Option<Best>, AllocError>
        requires { (node : Fix) × (fact : Fact) × IsResult self.now.task.game (record { fix = node; fact = fact; point = point.now }) }
        ensures { IfOk result (λ best. IsRise self.now.task self.now.search point.now best) }
    {
        match point {
            None => Ok(None),
            Some(k) => {
                let _tickets = k.tickets();
                let new = match value_of(self.game, k) {
                    Ok(new) => new,
                    Err(_) => unreachable!(),
                };
                if !is_above(new, self.value) {
                    return Ok(None);
                }
                Ok(Some(Best {
                    commitment: k.copy(alloc)?,
                    value: new,
                }))
            }
        }
    }
}
