//! The tickets of an accepted report, as a commitment.

ghost use Rattle.std.specs.Prelude.{◌≡◌};
ghost use Rattle.sg_bounds.specs.Accepted.{IsAccepted};

use sg_commit::Commitment;
use sg_game::Game;
use sg_tree::Report;

/// The tickets of an accepted report.
pub(crate) fn commitment_of(game: &Game, report: Report) -> Commitment
    requires { IsAccepted game.now report }
    ensures { result ≡ record { tickets = report.tickets.tickets; total = report.tickets.total } }
{
    match report.tickets.commit() {
        Some(commitment) => commitment,
        None => unreachable!(),
    }
}
