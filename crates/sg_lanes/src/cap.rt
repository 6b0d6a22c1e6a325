//! The caps of types.

ghost use Rattle.std.specs.Prelude.{◌≡◌, ◌≤◌, ◌+◌, ◌++◌, ◌-ℤ◌, ◌+ℤ◌, ◌*ℤ◌, ◌≤ℤ◌, ℤ, List, [], All, IfOk, filter_map, int_div, length, option_map, pos};
ghost use Rattle.std.specs.Option.{option_to_list};
ghost use Rattle.sg_model.specs.Sums.{greatest};
ghost use Rattle.sg_model.specs.Commitments.{IsCommitment};
ghost use Rattle.sg_model.specs.Payoffs.{IsPeopled, greatest_of, shift_of};
ghost use Rattle.sg_model.specs.declared.limit.TheConstants.{PAYOFF_LIMIT};
ghost use Rattle.sg_model.specs.declared.ticket.Ticket.{Ticket};
ghost use Rattle.sg_game.specs.Counts.{IsTypeOf};
ghost use Rattle.sg_tree.specs.declared.fact.Fact.{Fact};
ghost use Rattle.sg_bounds.specs.Regions.{alone};
ghost use Rattle.sg_search.specs.Searches.{same};
ghost use Rattle.sg_search.specs.Bounding.{fact_of, least_cap};
ghost use Rattle.sg_search.specs.Results.{IsResult};
ghost use Rattle.sg_lanes.specs.ProvedCaps.{AreAllFacts, IsCapFact, IsProvedCap, only_worked};

use crate::bound::{mu, rho, times};
use sg_game::{Game, greatest};
use sg_tree::{Cap, Fact, Fix, Worked};
use sqlite_items::Items;
use std::alloc::{AllocError, Global};

/// Whether a node fixes this type alone, to this action.
fn is_alone(node: &Fix, l: u8, act: u16) -> bool
    ensures { result ≡ same (alone l act) node.now }
{
    node.first == l && [act].as_slice() == node.acts.as_slice()
}

/// The fact of the node that fixes a type alone to an action, where it is worked.
pub(crate) fn fact_at<'b>(worked: &'b [Worked], l: u8, act: u16) -> Option<&'b Fact>
    ensures { option_map (λ fact. fact.now) result ≡ fact_of worked.now (alone l act) }
{
    for w in worked {
        if is_alone(&w.fix, l, act) {
            return Some(&w.fact);
        }
    }
    None
}

/// The plain cap of a type: the greatest payoff against it.
pub(crate) fn plain_cap(alloc: Global, game: &Game, l: u8) -> Cap
    requires { IsTypeOf game.now l }
    ensures { result ≡ record { l = l; v = greatest_of game.now l; proof = [] } }
{
    Cap {
        l,
        v: greatest(game, l),
        proof: Items::new(alloc),
    }
}

/// The facts of a type's cap nodes, copied, where all are worked.
fn all_facts(
    alloc: Global,
    game: &Game,
    worked: &[Worked],
    l: u8,
) -> Result<Option<Items<Fact>>, AllocError>
    requires { IsTypeOf game.now l }
    ensures { IfOk result (λ facts. AreAllFacts game.now (only_worked worked.now) l facts) }
{
    let count = game.actions(l);
    let mut facts = Items::new(alloc);
    for i in 0..count {
        match fact_at(worked, l, i + 1) {
            Some(fact) => facts.push(fact.copy(alloc)?)?,
            None => return Ok(None),
        }
    }
    Ok(Some(facts))
}

/// A quotient rounded up: the least whole number whose product with the divisor reaches the number.
fn rounded_up(num: i128, den: i128) -> i128
    requires num { pos 1 ≤ℤ num }
    requires den { pos 1 ≤ℤ den }
    ensures value { result ≡ int_div (num +ℤ (den -ℤ pos 1)) den }
    ensures some { pos 1 ≤ℤ result }
    ensures least { (q : ℤ) → num ≤ℤ (q *ℤ den) → result ≤ℤ q }
{
    (num - 1).div_euclid(den) + 1
}

/// A payoff with the shift, less the shift.
fn unshifted(pay: i128, shift: i64) -> i64
    requires some { pos 1 ≤ℤ pay }
    requires within { pay ≤ℤ (PAYOFF_LIMIT +ℤ shift) }
    ensures { result ≡ pay -ℤ shift }
{
    (pay - i128::from(shift)) as i64
}

/// The least whole number that the bound of a cap node's fact, `mu / (rho * prior)` less the shift, does not exceed; none
/// where the region is empty.
fn least_of(game: &Game, shift: i64, l: u8, fact: &Fact) -> Option<i64>
    requires known { IsTypeOf game.now l }
    requires shift { shift ≡ shift_of game.now }
    requires fact { IsCapFact game.now l fact.now }
    ensures { result ≡ least_cap game.now l fact.now }
{
    let mu = mu(fact);
    if mu <= 0 {
        return None;
    }
    let den = times(rho(fact), i128::from(game.prior(l)));
    Some(unshifted(rounded_up(mu, den), shift))
}

/// The greater of two numbers that may be missing: among others it has the same greatest as both.
fn greater(left: Option<i64>, right: Option<i64>) -> Option<i64>
    ensures { (others : List ℤ) → greatest (option_to_list result ++ others) ≡ greatest (option_to_list left ++ (option_to_list right ++ others)) }
{
    match (left, right) {
        (None, right) => right,
        (Some(left), None) => Some(left),
        (Some(left), Some(right)) => Some(if right < left { left } else { right }),
    }
}

/// The greatest of the least numbers of facts: 0 where there is none.
fn greatest_least(game: &Game, shift: i64, l: u8, facts: &[Fact]) -> i64
    requires known { IsTypeOf game.now l }
    requires shift { shift ≡ shift_of game.now }
    requires facts { All (IsCapFact game.now l) facts.now }
    ensures { result ≡ greatest (filter_map (least_cap game.now l) facts.now) }
{
    let mut top = None;
    for fact in facts {
        top = greater(top, least_of(game, shift, l, fact));
    }
    match top {
        Some(top) => top,
        None => 0,
    }
}

/// The cap of a type, once all its nodes are worked: the least whole number that none of their facts exceeds.
pub(crate) fn proved_cap(
    alloc: Global,
    game: &Game,
    shift: i64,
    worked: &[Worked],
    l: u8,
) -> Result<Option<Cap>, AllocError>
    requires known { IsTypeOf game.now l }
    requires later { 2 ≤ l }
    requires shift { shift ≡ shift_of game.now }
    requires peopled { IsPeopled game.now }
    requires results { All (IsResult game.now) worked.now }
    requires first { (k : List Ticket) × IsCommitment game.now k }
    ensures { IfOk result (λ cap. IsProvedCap game.now (only_worked worked.now) l cap) }
{
    let _most = greatest(game, l);
    match all_facts(alloc, game, worked, l)? {
        None => Ok(None),
        Some(proof) => {
            let v = greatest_least(game, shift, l, proof.as_slice());
            Ok(Some(Cap { l, v, proof }))
        }
    }
}
