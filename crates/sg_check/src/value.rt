//! The test of the value: the sums under it fit, and it is that of the tickets.

ghost use Rattle.std.specs.Prelude.{◌≡◌, ◌↔◌, ◌≤◌, ◌+ℤ◌, ◌*ℤ◌, ◌≤ℤ◌, [], ◌∷◌, ◌++◌, All, IsTrue, MatchOption, Some, length, pos, ◌^◌, false};
ghost use Rattle.std.specs.Int.{int_max};
ghost use Rattle.sg_model.specs.declared.ticket.Ticket.{Ticket};
ghost use Rattle.sg_model.specs.Games.{action_count, attacker, is_matrix};
ghost use Rattle.sg_model.specs.Sums.{numbers};
ghost use Rattle.sg_model.specs.Commitments.{sum_a, sum_d, take_of, weight_total, worth, AreLegal};
ghost use Rattle.sg_game.specs.Counts.{IsActionOf, IsTypeOf};
ghost use Rattle.sg_num.specs.Exact.{Fits};
ghost use Rattle.sg_bounds.specs.Checking.{AllPass, ticket_stops, value_line};
ghost use Rattle.sg_bounds.specs.Sizes.{take_sums, value_sums, worth_sums};
ghost use Rattle.sg_check.specs.Answering.{AnswersTests, held_line};
ghost use Rattle.sg_check.specs.Parts.{total_stops, worth_stops};
ghost use Rattle.sg_game.specs.Tallies.{IsTally};
ghost use Rattle.sg_check.specs.Valuing.{AreSumsFormed, BestAreFormed, Forms, IsBestOf, IsTakenSum, IsWorthOf, paired, under_a, under_d};

use crate::quotient::{Quotient, is_same, reduced};
use crate::refusal::Refusal;
use crate::step::multiplied;
use crate::sums::step;
use crate::tally::{ROOM, count_all, table_a, table_d};
use sg_frac::Frac;
use sg_game::{Cell, Game, Kind, prior_total};
use sg_model::Ticket;
use sg_tree::Report;

/// The greatest total for which the sums come from counts.
const MOST: i128 = 39614081257132168796771975168; // 2^95

/// An action, and what a type gets from it, summed over the tickets.
#[derive(Clone, Copy)]
pub(crate) struct Best {
    pub(crate) action: u16,
    pub(crate) sum: i128,
}

/// The better of two actions.
fn better(best: &Best, action: u16, sum: i128) -> Best
    ensures kept { (sum ≤ℤ best.now.sum) → (result ≡ best.now) }
    ensures new { ((sum ≤ℤ best.now.sum) → ⊥) → (result ≡ record { action = action; sum = sum }) }
{
    if best.sum < sum {
        Best { action, sum }
    } else {
        *best
    }
}

/// The first action of type `l`, with its sum.
fn first(game: &Game, tickets: &[Ticket], total: i128, table: &[Cell], l: u8) -> Option<Best>
    requires known_type { IsTypeOf game.now l }
    requires legal { AreLegal game.now tickets.now }
    requires total { total ≡ weight_total tickets.now }
    requires table { IsTally game.now tickets.now table.now }
    ensures { MatchOption result (AreSumsFormed game.now tickets.now l (action_count game.now l) → ⊥) (λ best. AreSumsFormed game.now tickets.now l 1 × IsBestOf game.now tickets.now l 1 best) }
{
    let _actions = game.actions(l);
    match table_a(game, tickets, total, table, l, 1) {
        Some(sum) => Some(Best { action: 1, sum }),
        None => None,
    }
}

/// An action of type `l` of which no other has a greater sum.
fn best_of(game: &Game, tickets: &[Ticket], total: i128, table: &[Cell], l: u8) -> Option<Best>
    requires known_type { IsTypeOf game.now l }
    requires legal { AreLegal game.now tickets.now }
    requires total { total ≡ weight_total tickets.now }
    requires table { IsTally game.now tickets.now table.now }
    ensures { MatchOption result (AreSumsFormed game.now tickets.now l (action_count game.now l) → ⊥) (λ best. AreSumsFormed game.now tickets.now l (action_count game.now l) × IsBestOf game.now tickets.now l (action_count game.now l) best) }
{
    let mut best = match first(game, tickets, total, table, l) {
        Some(best) => best,
        None => return None,
    };
    for i in 1..game.actions(l) {
        match table_a(game, tickets, total, table, l, i + 1) {
            Some(sum) => best = better(&best, i + 1, sum),
            None => return None,
        }
    }
    Some(best)
}

/// Whether action `a` is a best one of type `l`.
fn is_best(
    game: &Game,
    tickets: &[Ticket],
    total: i128,
    table: &[Cell],
    l: u8,
    a: u16,
    best: &Best,
) -> bool
    requires known_type { IsTypeOf game.now l }
    requires legal { AreLegal game.now tickets.now }
    requires total { total ≡ weight_total tickets.now }
    requires table { IsTally game.now tickets.now table.now }
    requires known_action { IsActionOf game.now l a }
    requires formed { All Fits (under_a game.now tickets.now l a) }
    ensures { IsTrue result ↔ (sum_a game.now tickets.now l a ≡ best.now.sum) }
{
    match table_a(game, tickets, total, table, l, a) {
        Some(sum) => sum == best.sum,
        None => false,
    }
}

/// The greater of two sums.
fn greater(a: i128, b: i128) -> i128
    ensures { result ≡ int_max a b }
{
    if a < b { b } else { a }
}

/// What is taken where the defender's sum of a best action is looked at too.
fn taken_with(
    game: &Game,
    tickets: &[Ticket],
    total: i128,
    table: &[Cell],
    l: u8,
    a: u16,
    taken: i128,
) -> Option<i128>
    requires known_type { IsTypeOf game.now l }
    requires legal { AreLegal game.now tickets.now }
    requires total { total ≡ weight_total tickets.now }
    requires table { IsTally game.now tickets.now table.now }
    requires known_action { IsActionOf game.now l a }
    ensures { Forms result (under_d game.now tickets.now l a) (int_max taken (sum_d game.now tickets.now l a)) }
{
    match table_d(game, tickets, total, table, l, a) {
        Some(sum) => Some(greater(taken, sum)),
        None => None,
    }
}

/// What is taken where action `a` is looked at too.
fn look(
    game: &Game,
    tickets: &[Ticket],
    total: i128,
    table: &[Cell],
    l: u8,
    a: u16,
    best: &Best,
    taken: i128,
) -> Option<i128>
    requires known_type { IsTypeOf game.now l }
    requires legal { AreLegal game.now tickets.now }
    requires total { total ≡ weight_total tickets.now }
    requires table { IsTally game.now tickets.now table.now }
    requires known_action { IsActionOf game.now l a }
    requires formed { All Fits (under_a game.now tickets.now l a) }
    ensures best { (sum_a game.now tickets.now l a ≡ best.now.sum) → Forms result (under_d game.now tickets.now l a) (int_max taken (sum_d game.now tickets.now l a)) }
    ensures other { ((sum_a game.now tickets.now l a ≡ best.now.sum) → ⊥) → (result ≡ Some taken) }
{
    if is_best(game, tickets, total, table, l, a, best) {
        taken_with(game, tickets, total, table, l, a, taken)
    } else {
        Some(taken)
    }
}

/// The defender's greatest sum over the best actions.
fn taken_of(
    game: &Game,
    tickets: &[Ticket],
    total: i128,
    table: &[Cell],
    l: u8,
    best: &Best,
) -> Option<i128>
    requires known_type { IsTypeOf game.now l }
    requires legal { AreLegal game.now tickets.now }
    requires total { total ≡ weight_total tickets.now }
    requires table { IsTally game.now tickets.now table.now }
    requires formed { AreSumsFormed game.now tickets.now l (action_count game.now l) }
    requires best { IsBestOf game.now tickets.now l (action_count game.now l) best.now }
    ensures { MatchOption result (BestAreFormed game.now tickets.now l (action_count game.now l) best.now.sum → ⊥) (λ taken. BestAreFormed game.now tickets.now l (action_count game.now l) best.now.sum × IsTakenSum game.now tickets.now l (action_count game.now l) best.now.sum taken) }
{
    let mut taken = match table_d(game, tickets, total, table, l, best.action) {
        Some(sum) => sum,
        None => return None,
    };
    for i in 0..game.actions(l) {
        match look(game, tickets, total, table, l, i + 1, best, taken) {
            Some(next) => taken = next,
            None => return None,
        }
    }
    Some(taken)
}

/// What type `l` leaves the defender: ties go to the defender.
fn table_take(game: &Game, tickets: &[Ticket], total: i128, table: &[Cell], l: u8) -> Option<i128>
    requires known_type { IsTypeOf game.now l }
    requires legal { AreLegal game.now tickets.now }
    requires total { total ≡ weight_total tickets.now }
    requires table { IsTally game.now tickets.now table.now }
    ensures { Forms result (take_sums game.now tickets.now l) (take_of game.now tickets.now l) }
{
    match best_of(game, tickets, total, table, l) {
        Some(best) => taken_of(game, tickets, total, table, l, &best),
        None => None,
    }
}

/// The sum with what type `l` leaves the defender, times its prior.
fn worth_with(
    sum: i128,
    game: &Game,
    tickets: &[Ticket],
    total: i128,
    table: &[Cell],
    l: u8,
) -> Option<i128>
    requires known_type { IsTypeOf game.now l }
    requires legal { AreLegal game.now tickets.now }
    requires total { total ≡ weight_total tickets.now }
    requires table { IsTally game.now tickets.now table.now }
    ensures { Forms result (take_sums game.now tickets.now l ++ ((attacker game.now l).prior *ℤ take_of game.now tickets.now l) ∷ (sum +ℤ ((attacker game.now l).prior *ℤ take_of game.now tickets.now l)) ∷ []) (sum +ℤ ((attacker game.now l).prior *ℤ take_of game.now tickets.now l)) }
{
    match table_take(game, tickets, total, table, l) {
        Some(taken) => step(sum, i128::from(game.prior(l)), taken),
        None => None,
    }
}

/// What all types leave the defender, each times its prior, summed.
fn table_worth(game: &Game, tickets: &[Ticket], total: i128, table: &[Cell]) -> Option<i128>
    requires legal { AreLegal game.now tickets.now }
    requires total { total ≡ weight_total tickets.now }
    requires table { IsTally game.now tickets.now table.now }
    ensures { Forms result (worth_sums game.now tickets.now (pos 0) (numbers (length game.now.types))) (worth game.now tickets.now) }
{
    let mut sum: i128 = 0;
    for l in 0..game.types() {
        match worth_with(sum, game, tickets, total, table, l + 1) {
            Some(more) => sum = more,
            None => return None,
        }
    }
    Some(sum)
}

/// Whether the sums can come from counts: in security form, with a total of at most 2^95.
fn is_countable(game: &Game, total: i128) -> bool
    ensures security { IsTrue result → is_matrix game.now ≡ false }
    ensures few { IsTrue result → total ≤ℤ pos (2 ^ 95) }
{
    match game.kind() {
        Kind::Security => total <= MOST,
        Kind::Matrix => false,
    }
}

/// The worth by counts, which are made once for all types.
fn counted_worth(game: &Game, tickets: &[Ticket], total: i128) -> Option<i128>
    requires security { is_matrix game.now ≡ false }
    requires positive { All (λ (x : Ticket). pos 1 ≤ℤ x.weight) tickets.now }
    requires legal { AreLegal game.now tickets.now }
    requires total { total ≡ weight_total tickets.now }
    requires few { total ≤ℤ pos (2 ^ 95) }
    ensures { Forms result (worth_sums game.now tickets.now (pos 0) (numbers (length game.now.types))) (worth game.now tickets.now) }
{
    let mut cells = [Cell { mark: 0, count: 0 }; ROOM];
    count_all(game, tickets, &mut cells);
    table_worth(game, tickets, total, &cells)
}

/// The worth, by counts where no sum can leave 128 bits.
fn worth_of(game: &Game, tickets: &[Ticket], total: i128) -> Option<i128>
    requires positive { All (λ (x : Ticket). pos 1 ≤ℤ x.weight) tickets.now }
    requires legal { AreLegal game.now tickets.now }
    requires total { total ≡ weight_total tickets.now }
    ensures { Forms result (worth_sums game.now tickets.now (pos 0) (numbers (length game.now.types))) (worth game.now tickets.now) }
{
    if is_countable(game, total) {
        counted_worth(game, tickets, total)
    } else {
        table_worth(game, tickets, total, &[])
    }
}

/// Both parts, where they are there.
fn pair(num: Option<i128>, den: Option<i128>) -> Option<Quotient>
    ensures { result ≡ paired num den }
{
    match (num, den) {
        (Some(num), Some(den)) => Some(Quotient { num, den }),
        _ => None,
    }
}

/// The value of the tickets, and none where a number under it doesn't fit.
fn value_of(game: &Game, tickets: &[Ticket], total: i128) -> Option<Quotient>
    requires positive { All (λ (x : Ticket). pos 1 ≤ℤ x.weight) tickets.now }
    requires legal { AreLegal game.now tickets.now }
    requires total { total ≡ weight_total tickets.now }
    ensures { MatchOption result (All Fits (value_sums game.now tickets.now) → ⊥) (λ q. All Fits (value_sums game.now tickets.now) × IsWorthOf game.now tickets.now q) }
{
    let num = worth_of(game, tickets, total);
    let den = multiplied(total, i128::from(prior_total(game)));
    pair(num, den)
}

/// Whether the fraction, which is in lowest terms, is the value.
fn is_value(value: &Quotient, stated: &Frac) -> bool
    requires { pos 1 ≤ℤ value.now.den }
    ensures { IsTrue result ↔ (value.now.num *ℤ stated.now.den ≡ stated.now.num *ℤ value.now.den) }
{
    let _lowest = stated.den();
    is_same(&reduced(value), stated)
}

/// The line of the value.
fn value_line(report: &Report) -> u64
    ensures { result ≡ held_line (value_line report.now) }
{
    3u64.saturating_add(report.tickets.tickets().len() as u64)
}

/// Tests that the sums under the value fit, and that the stated value is that of the tickets.
pub(crate) fn test_value(game: &Game, report: &Report) -> Result<(), Refusal>
    requires plays { AllPass game.now report.now (ticket_stops 3 report.now.tickets.tickets) }
    requires total { AllPass game.now report.now total_stops }
    ensures { AnswersTests game.now report.now (worth_stops report.now) result }
{
    game.promises();
    let _lowest = report.value.den();
    let tickets = report.tickets.tickets();
    let line = value_line(report);
    let value = match value_of(game, tickets, report.tickets.total()) {
        Some(value) => value,
        None => return Err(Refusal { line, reason: 9 }),
    };
    if !is_value(&value, &report.value) {
        return Err(Refusal { line, reason: 3 });
    }
    Ok(())
}
