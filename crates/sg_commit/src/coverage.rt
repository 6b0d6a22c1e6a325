//! How many tickets of a commitment cover a target, or play a row.

ghost use Rattle.std.specs.Prelude.{◌≡◌, ◌-◌, ◌^◌, false, if◌then◌else◌, [], ◌∷◌, bytes_eq, pos, ◌≤ℤ◌, All};
ghost use Rattle.sg_model.specs.declared.ticket.Ticket.{Ticket};
ghost use Rattle.sg_model.specs.Games.{is_matrix};
ghost use Rattle.sg_model.specs.Plays.{IsLegal, covers};
ghost use Rattle.sg_model.specs.Commitments.{cover_count, weight_on, weight_total, AreLegal};
ghost use Rattle.sg_game.specs.Counts.{IsGoalOf};

use crate::commitment::Commitment;
use sg_game::{Game, covers};
use sg_model::Ticket;

// The weight of a ticket that covers the target, and 0 of another.
fn counted(game: &Game, ticket: &Ticket, target: u16) -> i128
    requires security { is_matrix game.now ≡ false }
    requires legal { IsLegal game.now ticket.now.play.code }
    requires known { IsGoalOf game.now target }
    ensures { result ≡ (if covers game.now ticket.now.play.code target then ticket.now.weight else pos 0) }
{
    if covers(game, ticket.play.code.as_slice(), target) {
        ticket.weight
    } else {
        0
    }
}

// The weights of those of the tickets that cover the target.
fn count_in(game: &Game, tickets: &[Ticket], target: u16) -> i128
    requires security { is_matrix game.now ≡ false }
    requires legal { AreLegal game.now tickets.now }
    requires positive { All (λ (x : Ticket). pos 1 ≤ℤ x.weight) tickets.now }
    requires fits { weight_total tickets.now ≤ℤ pos (2 ^ 127 - 1) }
    requires known { IsGoalOf game.now target }
    ensures count { result ≡ cover_count game.now tickets.now target }
    ensures low { pos 0 ≤ℤ result }
    ensures high { result ≤ℤ weight_total tickets.now }
{
    let mut count = 0;
    for ticket in tickets {
        count += counted(game, ticket, target);
    }
    count
}

/// The weights of the tickets that cover the target, in security form. It is from 0 to the total.
pub fn cover_count(game: &Game, k: &Commitment, target: u16) -> i128
    requires security { is_matrix game.now ≡ false }
    requires legal { AreLegal game.now k.now.tickets }
    requires known { IsGoalOf game.now target }
    ensures count { result ≡ cover_count game.now k.now.tickets target }
    ensures low { pos 0 ≤ℤ result }
    ensures high { result ≤ℤ k.now.total }
{
    let _total = k.total();
    count_in(game, k.tickets(), target)
}

// The weight of a ticket of this row, and 0 of another.
fn played(ticket: &Ticket, row: u16) -> i128
    ensures { result ≡ (if bytes_eq ticket.now.play.code (row ∷ []) then ticket.now.weight else pos 0) }
{
    if ticket.play.code.as_slice() == [row].as_slice() {
        ticket.weight
    } else {
        0
    }
}

// The weights of those of the tickets that play the row.
fn played_in(tickets: &[Ticket], row: u16) -> i128
    requires positive { All (λ (x : Ticket). pos 1 ≤ℤ x.weight) tickets.now }
    requires fits { weight_total tickets.now ≤ℤ pos (2 ^ 127 - 1) }
    ensures { result ≡ weight_on tickets.now (row ∷ []) }
{
    let mut count = 0;
    for ticket in tickets {
        count += played(ticket, row);
    }
    count
}

/// The weights of the tickets that play the row, in matrix form.
pub fn played_count(k: &Commitment, row: u16) -> i128
    ensures { result ≡ weight_on k.now.tickets (row ∷ []) }
{
    let _total = k.total();
    played_in(k.tickets(), row)
}
