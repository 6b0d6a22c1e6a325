//! Parts sorted, joined and divided.

ghost use Rattle.std.specs.Prelude.{◌≡◌, ◌≢◌, ◌≤◌, ◌<◌, ◌+◌, ◌-◌, ◌^◌, ℕ, [], length, take, slice_index_or, slice_set, pos, ◌+ℤ◌, ◌*ℤ◌, ◌≤ℤ◌, All, IsPermutation, bytes_eq, int_div, unsigned_abs};
ghost use Rattle.std.specs.List.Sorted.{IsSortedBy};
ghost use Rattle.sg_model.specs.declared.ticket.Ticket.{Ticket};
ghost use Rattle.sg_model.specs.Commitments.{scaled, weight_total};
ghost use Rattle.sg_model.specs.Orders.{is_before};
ghost use Rattle.sg_commit.specs.Joining.{IsCommonDivisor, joined, no_ticket, outcome, standing};
ghost use Rattle.sg_commit.specs.Parts.{AreMultiple};

use crate::commitment::Commitment;
use sg_model::Ticket;
use sg_num::gcd;
use sqlite_items::Items;

// The weight at a place.
fn weight_at(tickets: &[Ticket], i: usize) -> i128
    requires { i < length tickets.now }
    ensures { result ≡ (slice_index_or tickets.now i no_ticket).weight }
{
    tickets[i].weight
}

// Another weight at a place.
fn set_weight(tickets: &mut [Ticket], i: usize, weight: i128)
    requires { i < length tickets.old }
    ensures { tickets.new ≡ slice_set tickets.old i (record { play = (slice_index_or tickets.old i no_ticket).play; weight = weight }) }
{
    tickets[i].weight = weight;
}

// Whether the tickets at two places have one play.
fn is_same_play(tickets: &[Ticket], i: usize, j: usize) -> bool
    requires first { i < length tickets.now }
    requires second { j < length tickets.now }
    ensures { result ≡ bytes_eq (slice_index_or tickets.now i no_ticket).play.code (slice_index_or tickets.now j no_ticket).play.code }
{
    tickets[i].play.code.as_slice() == tickets[j].play.code.as_slice()
}

// The tickets in the order of their plays.
fn sort(tickets: &mut Vec<Ticket>)
    ensures permutation { IsPermutation tickets.old.items tickets.new.items }
    ensures sorted { IsSortedBy (λ (x y : Ticket). is_before x.play.code y.play.code) tickets.new.items }
{
    tickets.sort_unstable_by(|x, y| x.play.code.as_slice().cmp(y.play.code.as_slice()));
}

// One ticket more, at place `next`: joined to that at `last`, or next to it.
fn take_in(tickets: &mut [Ticket], last: usize, next: usize) -> usize
    requires order { last < next }
    requires known { next < length tickets.old }
    requires fits { ((slice_index_or tickets.old last no_ticket).weight +ℤ (slice_index_or tickets.old next no_ticket).weight) ≤ℤ pos (2 ^ 127 - 1) }
    requires last_positive { pos 1 ≤ℤ (slice_index_or tickets.old last no_ticket).weight }
    requires next_positive { pos 1 ≤ℤ (slice_index_or tickets.old next no_ticket).weight }
    ensures place { result ≤ next }
    ensures outcome { outcome tickets.new result (next + 1) ≡ outcome tickets.old last next }
    ensures positive { All (λ (x : Ticket). pos 1 ≤ℤ x.weight) (standing tickets.old last next) → All (λ (x : Ticket). pos 1 ≤ℤ x.weight) (standing tickets.new result (next + 1)) }
    ensures sum { weight_total (standing tickets.new result (next + 1)) ≡ weight_total (standing tickets.old last next) }
{
    if is_same_play(tickets, last, next) {
        let weight = weight_at(tickets, last) + weight_at(tickets, next);
        set_weight(tickets, last, weight);
        last
    } else {
        tickets.swap(last + 1, next);
        last + 1
    }
}

// Those of one play joined, as the first so many tickets.
fn join(tickets: &mut [Ticket]) -> usize
    requires some { 1 ≤ length tickets.old }
    requires positive { All (λ (x : Ticket). pos 1 ≤ℤ x.weight) tickets.old }
    requires fits { weight_total tickets.old ≤ℤ pos (2 ^ 127 - 1) }
    ensures tickets { take result tickets.new ≡ joined tickets.old }
    ensures within { result ≤ length tickets.new }
{
    let mut last = 0;
    for next in 1..tickets.len() {
        last = take_in(tickets, last, next);
    }
    last + 1
}

// The greatest number that divides all weights.
pub(crate) fn common_divisor(tickets: &[Ticket]) -> i128
    requires some { 1 ≤ length tickets.now }
    requires positive { All (λ (x : Ticket). pos 1 ≤ℤ x.weight) tickets.now }
    ensures positive { pos 1 ≤ℤ result }
    ensures divisor { IsCommonDivisor tickets.now (unsigned_abs result) }
{
    let mut divisor = weight_at(tickets, 0).unsigned_abs();
    for i in 1..tickets.len() {
        divisor = gcd(divisor, weight_at(tickets, i).unsigned_abs());
    }
    divisor as i128
}

// The quotient by a number above 0, without what is left over.
fn quotient(a: i128, b: i128) -> i128
    requires { pos 1 ≤ℤ b }
    ensures { result ≡ int_div a b }
{
    a / b
}

// The weights divided by a number that divides each.
fn divide(tickets: &mut [Ticket], by: i128)
    requires by_positive { pos 1 ≤ℤ by }
    requires positive { All (λ (x : Ticket). pos 1 ≤ℤ x.weight) tickets.old }
    requires divisor { IsCommonDivisor tickets.old (unsigned_abs by) }
    ensures { scaled by tickets.new ≡ tickets.old }
{
    for i in 0..tickets.len() {
        let weight = quotient(weight_at(tickets, i), by);
        set_weight(tickets, i, weight);
    }
}

// Those of one play joined, and no others left.
fn gather(tickets: &mut Vec<Ticket>)
    requires some { 1 ≤ length tickets.old.items }
    requires positive { All (λ (x : Ticket). pos 1 ≤ℤ x.weight) tickets.old.items }
    requires fits { weight_total tickets.old.items ≤ℤ pos (2 ^ 127 - 1) }
    ensures { tickets.new.items ≡ joined tickets.old.items }
{
    let kept = join(tickets.as_mut_slice());
    tickets.truncate(kept);
}

// The weights divided by the greatest number that divides each, which is the result.
fn reduce(tickets: &mut Vec<Ticket>) -> i128
    requires some { 1 ≤ length tickets.old.items }
    requires positive { All (λ (x : Ticket). pos 1 ≤ℤ x.weight) tickets.old.items }
    ensures positive { pos 1 ≤ℤ result }
    ensures divisor { IsCommonDivisor tickets.old.items (unsigned_abs result) }
    ensures tickets { scaled result tickets.new.items ≡ tickets.old.items }
{
    let by = common_divisor(tickets.as_slice());
    divide(tickets.as_mut_slice(), by);
    by
}

// The commitment of parts without a fault, whose weights have this sum.
pub(crate) fn tickets_of(parts: Vec<Ticket>, total: i128) -> Commitment
    requires some { parts.items ≢ [] }
    requires positive { All (λ (x : Ticket). pos 1 ≤ℤ x.weight) parts.items }
    requires sum { total ≡ weight_total parts.items }
    ensures { AreMultiple parts.items result.tickets }
{
    let mut tickets = parts;
    sort(&mut tickets);
    gather(&mut tickets);
    let by = reduce(&mut tickets);
    Commitment {
        tickets: Items::from_vec(tickets),
        total: quotient(total, by),
    }
}
