//! What the plays of tickets pay, summed over the tickets one after another.

ghost use Rattle.std.specs.Prelude.{◌≡◌, ◌+ℤ◌, ◌*ℤ◌, [], ◌∷◌};
ghost use Rattle.sg_model.specs.Plays.{IsLegal, pay_a, pay_d};
ghost use Rattle.sg_model.specs.Commitments.{sum_a, sum_d, AreLegal};
ghost use Rattle.sg_game.specs.Counts.{IsActionOf, IsTypeOf};
ghost use Rattle.sg_check.specs.Valuing.{Forms, under_a, under_d};

use crate::step::{added, multiplied};
use sg_game::{Game, pay_a, pay_d};
use sg_model::Ticket;

/// The sum with a weight times a pay.
pub(crate) fn step(sum: i128, weight: i128, pay: i128) -> Option<i128>
    ensures { Forms result ((weight *ℤ pay) ∷ (sum +ℤ (weight *ℤ pay)) ∷ []) (sum +ℤ (weight *ℤ pay)) }
{
    match multiplied(weight, pay) {
        Some(product) => added(sum, product),
        None => None,
    }
}

/// The sum with what the ticket gives type `l`, which takes action `a`.
fn step_a(sum: i128, game: &Game, ticket: &Ticket, l: u8, a: u16) -> Option<i128>
    requires known_type { IsTypeOf game.now l }
    requires legal { IsLegal game.now ticket.now.play.code }
    requires known_action { IsActionOf game.now l a }
    ensures { Forms result ((ticket.now.weight *ℤ pay_a game.now l ticket.now.play.code a) ∷ (sum +ℤ (ticket.now.weight *ℤ pay_a game.now l ticket.now.play.code a)) ∷ []) (sum +ℤ (ticket.now.weight *ℤ pay_a game.now l ticket.now.play.code a)) }
{
    let pay = i128::from(pay_a(game, l, ticket.play.code.as_slice(), a));
    step(sum, ticket.weight, pay)
}

/// The sum with what the ticket gives the defender, where type `l` takes action `a`.
fn step_d(sum: i128, game: &Game, ticket: &Ticket, l: u8, a: u16) -> Option<i128>
    requires known_type { IsTypeOf game.now l }
    requires legal { IsLegal game.now ticket.now.play.code }
    requires known_action { IsActionOf game.now l a }
    ensures { Forms result ((ticket.now.weight *ℤ pay_d game.now l ticket.now.play.code a) ∷ (sum +ℤ (ticket.now.weight *ℤ pay_d game.now l ticket.now.play.code a)) ∷ []) (sum +ℤ (ticket.now.weight *ℤ pay_d game.now l ticket.now.play.code a)) }
{
    let pay = i128::from(pay_d(game, l, ticket.play.code.as_slice(), a));
    step(sum, ticket.weight, pay)
}

/// What type `l` gets from action `a`, summed over the tickets.
pub(crate) fn total_a(game: &Game, tickets: &[Ticket], l: u8, a: u16) -> Option<i128>
    requires known_type { IsTypeOf game.now l }
    requires legal { AreLegal game.now tickets.now }
    requires known_action { IsActionOf game.now l a }
    ensures { Forms result (under_a game.now tickets.now l a) (sum_a game.now tickets.now l a) }
{
    let mut sum: i128 = 0;
    for ticket in tickets {
        match step_a(sum, game, ticket, l, a) {
            Some(more) => sum = more,
            None => return None,
        }
    }
    Some(sum)
}

/// What the defender gets where type `l` takes action `a`, summed over the tickets.
pub(crate) fn total_d(game: &Game, tickets: &[Ticket], l: u8, a: u16) -> Option<i128>
    requires known_type { IsTypeOf game.now l }
    requires legal { AreLegal game.now tickets.now }
    requires known_action { IsActionOf game.now l a }
    ensures { Forms result (under_d game.now tickets.now l a) (sum_d game.now tickets.now l a) }
{
    let mut sum: i128 = 0;
    for ticket in tickets {
        match step_d(sum, game, ticket, l, a) {
            Some(more) => sum = more,
            None => return None,
        }
    }
    Some(sum)
}
