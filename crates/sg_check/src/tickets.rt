//! The tests of the tickets: their plays, and their total.

ghost use Rattle.std.specs.Prelude.{◌≡◌, ℕ, All, MatchOption, unsigned_abs};
ghost use Rattle.std.specs.Int.{◌∣◌};
ghost use Rattle.sg_model.specs.Commitments.{weight_total};
ghost use Rattle.sg_num.specs.Exact.{Fits};
ghost use Rattle.sg_bounds.specs.Checking.{ticket_stops};
ghost use Rattle.sg_bounds.specs.Sizes.{weight_sums};
ghost use Rattle.sg_check.specs.Answering.{AnswersTests};
ghost use Rattle.sg_check.specs.Parts.{total_stops};

use crate::refusal::Refusal;
use crate::step::added;
use sg_game::{Game, legal};
use sg_model::Ticket;
use sg_num::gcd;
use sg_tree::Report;

/// Tests the play of each ticket, from line 3 on.
pub(crate) fn test_plays(game: &Game, report: &Report) -> Result<(), Refusal>
    ensures { AnswersTests game.now report.now (ticket_stops 3 report.now.tickets.tickets) result }
{
    let mut line: u64 = 3;
    for ticket in report.tickets.tickets() {
        if !legal(game, ticket.play.code.as_slice()) {
            return Err(Refusal { line, reason: 1 });
        }
        line = line.saturating_add(1);
    }
    Ok(())
}

/// The total of the weights, and none where a running total doesn't fit.
fn weight_total(tickets: &[Ticket]) -> Option<i128>
    ensures { MatchOption result (All Fits (weight_sums tickets.now) → ⊥) (λ total. All Fits (weight_sums tickets.now) × (total ≡ weight_total tickets.now)) }
{
    let mut total: i128 = 0;
    for ticket in tickets {
        match added(total, ticket.weight) {
            Some(more) => total = more,
            None => return None,
        }
    }
    Some(total)
}

/// The greatest number that divides all weights, and 0 of none.
fn common_divisor(tickets: &[Ticket]) -> u128
    ensures divides { All (λ x. result ∣ unsigned_abs x.weight) tickets.now }
    ensures greatest { (d : ℕ) → All (λ x. d ∣ unsigned_abs x.weight) tickets.now → d ∣ result }
{
    let mut divisor = 0;
    for ticket in tickets {
        divisor = gcd(divisor, ticket.weight.unsigned_abs());
    }
    divisor
}

/// Tests the running totals, the stated total, and that the weights are in lowest terms.
pub(crate) fn test_total(game: &Game, report: &Report) -> Result<(), Refusal>
    ensures { AnswersTests game.now report.now total_stops result }
{
    let tickets = report.tickets.tickets();
    let total = match weight_total(tickets) {
        Some(total) => total,
        None => return Err(Refusal { line: 2, reason: 9 }),
    };
    if total != report.tickets.total() {
        return Err(Refusal { line: 2, reason: 2 });
    }
    if common_divisor(tickets) != 1 {
        return Err(Refusal { line: 2, reason: 2 });
    }
    Ok(())
}
