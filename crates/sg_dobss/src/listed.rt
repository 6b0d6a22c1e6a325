//! All legal plays, in order.

ghost use Rattle.std.specs.Prelude.{◌≡◌, ◌≤◌, IfOk, pos};
ghost use Rattle.sg_model.specs.PlayLists.{play_count};
ghost use Rattle.sg_bounds.specs.Regions.{IsFix};

use crate::covering::coverage;
use crate::places::{column_at, place_of};
use crate::pricing::{Priced as Found, cost_in, entry_in, price_in};
use crate::tables::{costs, rows};
use sg_game::{Game, plays_count};
use sg_lp::{Column, Family, Priced};
use sg_tree::Fix;
use sqlite_items::Items;
use std::alloc::{AllocError, Global};
use std::marker::Model;

/// The program of a node over all legal plays, in order: what each costs, and its entry in each row from 1.
///
/// A cost is a prior times a payoff and the shift, summed over the fixed types; an entry is what an action pays a fixed
/// type above the fixed one.
#[derive(Drop)]
pub struct Listed<'a> {
    game: &'a Game,
    fix: Fix,
    count: usize,
    costs: Items<i64>,
    rows: Items<Items<i64>>,
}

impl<'a> Model for Listed<'a> {
    ghost use Rattle.sg_dobss.specs.Listings.{IsListing};
    ghost use Rattle.sg_programs.specs.Nodes.{NodeOf};

    ghost Value = { NodeOf };

    ghost view = { λ f. record { game = f.game.now; fix = f.fix } };

    ghost invariant = { λ f. IsListing f.game.now f.fix f.count f.costs f.rows };
}

/// The number of legal plays of a game that has few.
fn few_plays(game: &Game) -> usize
    requires { play_count game.now ≤ 4096 }
    ensures { result ≡ play_count game.now }
{
    match plays_count(game) {
        Some(count) => count as usize,
        None => unreachable!(),
    }
}

impl<'a> Listed<'a> {
    /// The family of a node, with its tables. The game has at most 4,096 legal plays.
    ///
    /// # Errors
    ///
    /// An error only where memory ran out.
    pub fn new(alloc: Global, game: &'a Game, fix: &Fix) -> Result<Listed<'a>, AllocError>
        requires unscaled { game.now.scale ≡ pos 0 }
        requires is_fix { IsFix game.now fix.now }
        requires few { play_count game.now ≤ 4096 }
        ensures { IfOk result (λ listed. listed ≡ record { game = game.now; fix = fix.now }) }
    {
        let count = few_plays(game);
        let coverage = coverage(alloc, game)?;
        let costs = costs(alloc, game, coverage.as_slice(), fix, count)?;
        let rows = rows(alloc, game, coverage.as_slice(), fix)?;
        let fix = fix.copy(alloc)?;
        Ok(Listed {
            game,
            fix,
            count,
            costs,
            rows,
        })
    }
}

impl<'a> Family for Listed<'a> {
    ghost use Rattle.sg_lp.specs.Listing.{listing_answer, listing_looks};
    ghost use Rattle.sg_programs.specs.Plays.{plays_program};

    ghost program = { λ f. plays_program f.game f.fix };

    ghost answer = { λ f y rho budget. listing_answer (plays_program f.game f.fix) y rho budget 0 (plays_program f.game f.fix).columns };

    ghost looks = { λ f y rho. listing_looks (plays_program f.game f.fix) y rho (plays_program f.game f.fix).columns };

    fn rows(&self) -> usize {
        self.game.promises();
        self.rows.len() + 1
    }

    fn entry(&self, col: &Column, row: usize) -> i64 {
        let k = place_of(self.game, self.count, col);
        entry_in(self.rows.as_slice(), row, k)
    }

    fn cost(&self, col: &Column) -> i64 {
        let k = place_of(self.game, self.count, col);
        cost_in(self.costs.as_slice(), k)
    }

    fn price(&self, y: &[i128], rho: i128, budget: u64, found: &mut Column) -> Priced {
        self.game.promises();
        let costs = self.costs.as_slice();
        match price_in(costs, self.rows.as_slice(), y, rho, budget) {
            Found::Found(k) => {
                *found = column_at(self.game, self.count, k);
                Priced::Found
            }
            Found::Clean => Priced::Clean {
                looks: self.count as u64,
            },
            Found::Spent => Priced::Spent,
            Found::Wide(wide) => Priced::Wide(2, wide),
        }
    }
}
