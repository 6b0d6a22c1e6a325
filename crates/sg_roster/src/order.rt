//! The order of the days.

ghost use Rattle.std.specs.Prelude.{◌≡◌, ◌<◌, ℤ, All, Err, IfErr, IfOk, IsPermutation, length};
ghost use Rattle.sg_tickets.specs.Expansion.{IsLongTotal, places_of};
ghost use Rattle.sg_seed.specs.Seeds.{generator_of_seed, seeded};
ghost use Rattle.sg_roster.specs.Days.{days_of};

use rand::seq::SliceRandom;
use sg_commit::Commitment;
use sg_seed::generator;
use sg_tickets::{LongFault, expand};
use std::alloc::Global;

/// The place of each day's ticket among those of the commitment, counted from 0.
///
/// The places, each as often as its weight, are shuffled by the Fisher-Yates method as `rand` states it, over the key
/// stream of ChaCha with 20 rounds (stream 0, from its start) whose key is the seed. One seed gives one order.
///
/// # Errors
///
/// `TooLong` exactly where the total is above a million, with the total. Else only memory may be wanting.
pub fn roster(alloc: Global, k: &Commitment, seed: u64) -> Result<Vec<u32>, LongFault>
    ensures days { IfOk result (λ days. days.items ≡ days_of k.now.tickets seed) }
    ensures permutation { IfOk result (λ days. IsPermutation (places_of k.now.tickets) days.items) }
    ensures known { IfOk result (λ days. All (λ i. i < length k.now.tickets) days.items) }
    ensures long { IsLongTotal k.now.total → result ≡ Err (LongFault.TooLong k.now.total) }
    ensures cause { IfErr result (λ fault. (total : ℤ) → fault ≡ LongFault.TooLong total → IsLongTotal k.now.total × (total ≡ k.now.total)) }
{
    match expand(alloc, k) {
        Ok(mut days) => {
            days.shuffle(&mut generator(seed));
            Ok(days)
        }
        Err(fault) => Err(fault),
    }
}
