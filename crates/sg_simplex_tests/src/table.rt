//! Programs given by a table.

ghost use Rattle.std.specs.Prelude.{◌≡◌, ◌↔◌, ◌<◌, ◌≤◌, ◌+◌, ◌^◌, [], ◌∷◌, ◌++◌, length, slice_index_or, pos, ◌≤ℤ◌, All, IfOk, IsTrue, MatchOption};
ghost use Rattle.sg_num.specs.Exact.{IsAtMost};
ghost use Rattle.sg_rows.specs.Rows.{place};
ghost use Rattle.sg_simplex_tests.specs.Tables.{IsTableColumn};

use crate::pricing::price_in;
use sg_lp::{Column, Family, Priced};
use sqlite_items::Items;
use std::alloc::{AllocError, Global};
use std::marker::Model;

/// The most that a cost may be, and minus the least.
const MOST_COST: i64 = 72057594037927936; // 2^56

/// The most that an entry may be, and minus the least.
const MOST_ENTRY: i64 = 2147483649; // 2^31 + 1

/// A program by its columns in order, each with a cost and an entry for each row; that of row 0 is at least 1, so that row 0 bounds it.
#[derive(Drop)]
pub struct Table {
    height: usize,
    costs: Items<i64>,
    entries: Items<Items<i64>>,
}

impl Model for Table {
    ghost use Rattle.sg_simplex_tests.specs.Tables.{IsBoundedTable, TableView};

    ghost Value = { TableView };

    ghost view = { λ t. record { height = t.height; costs = t.costs; entries = t.entries } };

    ghost invariant = { λ t. IsBoundedTable (record { height = t.height; costs = t.costs; entries = t.entries }) };
}

/// Whether a number is from -most to most.
fn is_at_most(x: i64, most: i64) -> bool
    requires some { pos 0 ≤ℤ most }
    ensures { IsTrue result ↔ IsAtMost most x }
{
    -most <= x && x <= most
}

/// Whether all numbers are those of entries.
fn are_entries(entries: &[i64]) -> bool
    ensures { IsTrue result ↔ All (IsAtMost (pos (2 ^ 31 + 1))) entries.now }
{
    for x in entries {
        if !is_at_most(*x, MOST_ENTRY) {
            return false;
        }
    }
    true
}

/// Whether the entry in row 0 is at least 1.
fn is_bounded(entries: &[i64]) -> bool
    requires { 1 ≤ length entries.now }
    ensures { IsTrue result ↔ (pos 1 ≤ℤ place entries.now 0) }
{
    entries[0] >= 1
}

/// Whether a column may have this cost and these entries.
fn is_column(height: usize, cost: i64, entries: &[i64]) -> bool
    requires { 1 ≤ height }
    ensures { IsTrue result ↔ IsTableColumn height cost entries.now }
{
    if entries.len() != height {
        return false;
    }
    if !is_at_most(cost, MOST_COST) {
        return false;
    }
    if !are_entries(entries) {
        return false;
    }
    is_bounded(entries)
}

impl Table {
    /// A program of so many rows, without columns.
    pub fn new(alloc: Global, height: usize) -> Table
        requires some { 1 ≤ height }
        requires few { height ≤ 1536 }
        ensures { result ≡ record { height = height; costs = []; entries = [] } }
    {
        Table {
            height,
            costs: Items::new(alloc),
            entries: Items::new(alloc),
        }
    }

    /// The program with one column more, behind its own; `None` exactly where there are 65,535 or the column isn't one that row 0 bounds.
    ///
    /// # Errors
    ///
    /// An error only where memory ran out.
    pub fn with(
        mut self,
        alloc: Global,
        cost: i64,
        entries: &[i64],
    ) -> Result<Option<Table>, AllocError>
        ensures { IfOk result (λ table. MatchOption table (¬ ((length self.costs < 65535) × IsTableColumn self.height cost entries.now)) (λ t. t ≡ record self { costs = self.costs ++ cost ∷ []; entries = self.entries ++ entries.now ∷ [] })) }
    {
        if self.costs.len() >= 65535 {
            return Ok(None);
        }
        if !is_column(self.height, cost, entries) {
            return Ok(None);
        }
        let column = Items::from_slice(alloc, entries)?;
        let Table {
            height,
            mut costs,
            entries: mut columns,
        } = self;
        costs.push(cost)?;
        columns.push(column)?;
        Ok(Some(Table {
            height,
            costs,
            entries: columns,
        }))
    }
}

/// The cost of a column.
fn cost_in(costs: &[i64], k: usize) -> i64
    requires { k < length costs.now }
    ensures { result ≡ place costs.now k }
{
    costs[k]
}

/// The entry of a column in a row.
fn entry_in(entries: &[Items<i64>], k: usize, row: usize) -> i64
    requires column { k < length entries.now }
    requires inside { row < length (slice_index_or entries.now k []) }
    ensures { result ≡ place (slice_index_or entries.now k []) row }
{
    let column = &entries[k];
    column.as_slice()[row]
}

impl Family for Table {
    ghost use Rattle.sg_lp.specs.Listing.{listing_answer, listing_looks};
    ghost use Rattle.sg_simplex_tests.specs.Tables.{table_program};

    ghost program = { λ t. table_program t };

    ghost answer = { λ t y rho budget. listing_answer (table_program t) y rho budget 0 (table_program t).columns };

    ghost looks = { λ t y rho. listing_looks (table_program t) y rho (table_program t).columns };

    fn rows(&self) -> usize {
        self.height
    }

    fn entry(&self, col: &Column, row: usize) -> i64 {
        entry_in(self.entries.as_slice(), col.code[0] as usize, row)
    }

    fn cost(&self, col: &Column) -> i64 {
        cost_in(self.costs.as_slice(), col.code[0] as usize)
    }

    fn price(&self, y: &[i128], rho: i128, budget: u64, found: &mut Column) -> Priced {
        let costs = self.costs.as_slice();
        price_in(costs, self.entries.as_slice(), y, rho, budget, found)
    }
}
