//! The coverage table of a node as a family.

ghost use Rattle.std.specs.Prelude.{◌≡◌, IfOk, length, pos};
ghost use Rattle.sg_model.specs.declared.kind.Kind.TheVariants.{Security};
ghost use Rattle.sg_bounds.specs.Regions.{IsFix};
ghost use Rattle.sg_programs.specs.CoverPrograms.{column_numbered, cover_program};

use crate::columns::columns;
use crate::costs::{cost_in, costs};
use crate::entry::entry_at;
use crate::pricing::does_enter;
use crate::rows::rows;
use crate::sparse::{RowEntry, entries};
use crate::table::{CoverColumn, CoverRow};
use sg_game::Game;
use sg_lp::{Column, Family, Priced};
use sg_tree::Fix;
use sqlite_items::Items;
use std::alloc::{AllocError, Global};
use std::marker::Model;

/// The program of a node over the coverage table: its rows and columns in order, what each column costs, and its entries
/// that are not 0.
///
/// A column is its number, from 1. The cost of the whole is a prior times the defender's payoff at an uncovered target and
/// the shift, summed over the fixed types; that of a target is a prior times what covering it adds.
#[derive(Drop)]
pub struct Cover<'a> {
    pub(crate) game: &'a Game,
    fix: Fix,
    rows: Items<CoverRow>,
    pub(crate) columns: Items<CoverColumn>,
    costs: Items<i64>,
    entries: Items<Items<RowEntry>>,
}

impl<'a> Model for Cover<'a> {
    ghost use Rattle.sg_eraser.specs.Covers.{IsCoverTable};
    ghost use Rattle.sg_programs.specs.Nodes.{NodeOf};

    ghost Value = { NodeOf };

    ghost view = { λ f. record { game = f.game.now; fix = f.fix } };

    ghost invariant = { λ f. IsCoverTable f.game.now f.fix f.rows f.columns f.costs f.entries };
}

impl<'a> Cover<'a> {
    /// The family of a node, with its tables. The game is in security form.
    ///
    /// # Errors
    ///
    /// An error only where memory ran out.
    pub fn new(alloc: Global, game: &'a Game, fix: &Fix) -> Result<Cover<'a>, AllocError>
        requires unscaled { game.now.scale ≡ pos 0 }
        requires security { game.now.kind ≡ Security }
        requires is_fix { IsFix game.now fix.now }
        ensures { IfOk result (λ cover. cover ≡ record { game = game.now; fix = fix.now }) }
    {
        game.promises();
        let rows = rows(alloc, game, fix)?;
        let columns = columns(alloc, game)?;
        let costs = costs(alloc, game, fix, columns.as_slice())?;
        let entries = entries(alloc, game, fix, rows.as_slice(), columns.as_slice())?;
        let fix = fix.copy(alloc)?;
        Ok(Cover {
            game,
            fix,
            rows,
            columns,
            costs,
            entries,
        })
    }

    /// How many columns there are: the whole, each choice of each resource, each target.
    pub fn count(&self) -> usize
        ensures { result ≡ length (cover_program self.now.game self.now.fix).columns }
    {
        self.costs.len()
    }
}

/// The column of a number, from 1.
pub fn numbered(n: u16) -> Column
    ensures { result ≡ column_numbered n }
{
    let mut code = [0u16; 32];
    code[0] = n;
    Column { len: 1, code }
}

impl<'a> Family for Cover<'a> {
    ghost use Rattle.sg_lp.specs.Listing.{listing_answer, listing_looks};
    ghost use Rattle.sg_programs.specs.CoverPrograms.{cover_program};

    ghost program = { λ f. cover_program f.game f.fix };

    ghost answer = { λ f y rho budget. listing_answer (cover_program f.game f.fix) y rho budget 0 (cover_program f.game f.fix).columns };

    ghost looks = { λ f y rho. listing_looks (cover_program f.game f.fix) y rho (cover_program f.game f.fix).columns };

    fn rows(&self) -> usize {
        self.game.promises();
        self.rows.len()
    }

    fn entry(&self, col: &Column, row: usize) -> i64 {
        let column = self.columns.as_slice()[col.code[0] as usize - 1];
        entry_at(self.game, &self.fix, self.rows.as_slice()[row], column)
    }

    fn cost(&self, col: &Column) -> i64 {
        cost_in(self.costs.as_slice(), col.code[0] as usize - 1)
    }

    fn price(&self, y: &[i128], rho: i128, budget: u64, found: &mut Column) -> Priced {
        self.game.promises();
        let costs = self.costs.as_slice();
        let entries = self.entries.as_slice();
        for k in 0..costs.len() {
            if k as u64 >= budget {
                return Priced::Spent;
            }
            match does_enter(cost_in(costs, k), entries[k].as_slice(), y, rho) {
                Ok(true) => {
                    *found = numbered(k as u16 + 1);
                    return Priced::Found;
                }
                Ok(false) => {}
                Err(wide) => return Priced::Wide(2, wide),
            }
        }
        Priced::Clean {
            looks: costs.len() as u64,
        }
    }
}
