//! Whether tickets are plays of a game.

ghost use Rattle.std.specs.Prelude.{◌↔◌, IsTrue};
ghost use Rattle.sg_model.specs.Commitments.{AreLegal};

use sg_game::{Game, legal};
use sg_model::Ticket;

/// Whether the plays of all the tickets are legal, which the sums over a commitment ask.
pub fn are_legal(game: &Game, tickets: &[Ticket]) -> bool
    ensures { IsTrue result ↔ AreLegal game.now tickets.now }
{
    tickets
        .iter()
        .all(|ticket| legal(game, ticket.play.code.as_slice()))
}
