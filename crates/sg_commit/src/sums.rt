//! What plays pay, summed over the tickets of a commitment.

ghost use Rattle.std.specs.Prelude.{◌≡◌, IfOk};
ghost use Rattle.sg_model.specs.Commitments.{sum_a, sum_d, AreLegal};
ghost use Rattle.sg_model.specs.Plays.{IsLegal};
ghost use Rattle.sg_num.specs.Exact.{exact_dot_step};
ghost use Rattle.sg_game.specs.Counts.{IsActionOf, IsTypeOf};
ghost use Rattle.sg_commit.specs.ExactSums.{exact_sum_a, exact_sum_d};
ghost use Rattle.sg_commit.specs.Sides.{exact_sum_to, pay_to};

use crate::commitment::Commitment;
use crate::side::Side;
use sg_game::Game;
use sg_model::Ticket;
use sg_num::{Wide, dot_step};

// The sum with what one ticket more gives a side.
fn step(acc: i128, side: Side, game: &Game, ticket: &Ticket, l: u8, a: u16) -> Result<i128, Wide>
    requires legal { IsLegal game.now ticket.now.play.code }
    requires known_type { IsTypeOf game.now l }
    requires known_action { IsActionOf game.now l a }
    ensures { result ≡ exact_dot_step acc ticket.now.weight (pay_to side game.now l ticket.now.play.code a) }
{
    let pay = i128::from(side.pay(game, l, ticket.play.code.as_slice(), a));
    dot_step(acc, ticket.weight, pay)
}

// The sum over these tickets.
fn total(side: Side, game: &Game, tickets: &[Ticket], l: u8, a: u16) -> Result<i128, Wide>
    requires legal { AreLegal game.now tickets.now }
    requires known_type { IsTypeOf game.now l }
    requires known_action { IsActionOf game.now l a }
    ensures { result ≡ exact_sum_to side game.now tickets.now l a }
{
    let mut acc = 0;
    for ticket in tickets {
        match step(acc, side, game, ticket, l, a) {
            Ok(next) => acc = next,
            Err(wide) => return Err(wide),
        }
    }
    Ok(acc)
}

/// Weight times what a side gets where type `l` takes action `a`, summed by rising ticket.
pub(crate) fn sum_to(side: Side, game: &Game, k: &Commitment, l: u8, a: u16) -> Result<i128, Wide>
    requires legal { AreLegal game.now k.now.tickets }
    requires known_type { IsTypeOf game.now l }
    requires known_action { IsActionOf game.now l a }
    ensures { result ≡ exact_sum_to side game.now k.now.tickets l a }
{
    total(side, game, k.tickets(), l, a)
}

/// Weight times what the defender gets against type `l`, which takes action `a`, summed by rising ticket.
///
/// # Errors
///
/// The first product or sum that does not fit.
pub fn sum_d(game: &Game, k: &Commitment, l: u8, a: u16) -> Result<i128, Wide>
    requires legal { AreLegal game.now k.now.tickets }
    requires known_type { IsTypeOf game.now l }
    requires known_action { IsActionOf game.now l a }
    ensures steps { result ≡ exact_sum_d game.now k.now.tickets l a }
    ensures value { IfOk result (λ sum. sum ≡ sum_d game.now k.now.tickets l a) }
{
    sum_to(Side::Defender, game, k, l, a)
}

/// Weight times what type `l` gets from action `a`, summed by rising ticket.
///
/// # Errors
///
/// The first product or sum that does not fit.
pub fn sum_a(game: &Game, k: &Commitment, l: u8, a: u16) -> Result<i128, Wide>
    requires legal { AreLegal game.now k.now.tickets }
    requires known_type { IsTypeOf game.now l }
    requires known_action { IsActionOf game.now l a }
    ensures steps { result ≡ exact_sum_a game.now k.now.tickets l a }
    ensures value { IfOk result (λ sum. sum ≡ sum_a game.now k.now.tickets l a) }
{
    sum_to(Side::Attacker, game, k, l, a)
}
