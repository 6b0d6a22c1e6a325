//! How much a search may spend.

ghost use Rattle.std.specs.Prelude.{◌≡◌};
ghost use Rattle.sg_programs.specs.Enough.{node_budget};

use sg_game::{Game, program_rows};
use sg_options::Budget;

/// How many nodes may be worked on a game: the budget's, and no more than 6,000,000 rows of programs together, so that a report's marks are few
/// enough.
pub fn node_budget(game: &Game, budget: &Budget) -> u64
    ensures { result ≡ node_budget game.now budget.now.nodes }
{
    let rows = u64::from(program_rows(game));
    budget.nodes.min(6_000_000 / rows)
}
