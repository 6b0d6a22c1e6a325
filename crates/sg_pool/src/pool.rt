//! Pools.

ghost use Rattle.std.specs.Prelude.{◌≡◌, ℕ, ◌+◌, ◌<◌, ◌≤◌, [], ◌∷◌, ◌++◌, length, IfOk, IfSome, MatchOption};
ghost use Rattle.sg_pool.specs.Pools.{IsPool, new_pool};

use crate::row::Row;
use std::alloc::{AllocError, Global};
use std::marker::Model;

/// A pool of rows of one width.
#[derive(Drop)]
pub struct Pool {
    free: Vec<Row>,
    width: usize,
    count: usize,
}

impl Model for Pool {
    ghost use Rattle.std.specs.Prelude.{◌≡◌, ◌≤◌, length, vec_capacity, All};
    ghost use Rattle.sg_pool.specs.Pools.{IsPool, PoolView};

    ghost Value = { PoolView };

    ghost view = { λ p. record { free = p.free.items; width = p.width; count = p.count } };

    ghost invariant = { λ p. IsPool (record { free = p.free.items; width = p.width; count = p.count }) × (p.count ≤ vec_capacity p.free) };
}

impl Pool {
    /// A pool of so many rows of zeros, none of them out.
    pub fn new(alloc: Global, width: usize, count: usize) -> Result<Pool, AllocError>
        requires some { 1 ≤ width }
        requires narrow { width ≤ 1536 }
        requires few { count ≤ 12304 }
        ensures { IfOk result (λ pool. pool ≡ new_pool width count) }
    {
        let mut free = Vec::with_capacity(alloc, count)?;
        for _ in 0..count {
            let row = Row::zeros(alloc, width)?;
            free.push(row)?;
        }
        Ok(Pool { free, width, count })
    }

    /// The last free row, which is then no longer in the pool; `None` exactly where none is spare.
    pub fn take(&mut self) -> Option<Row>
        ensures moved { MatchOption result ((self.old.free ≡ []) × (self.new ≡ self.old)) (λ row. self.old ≡ record self.new { free = self.new.free ++ row ∷ [] }) }
        ensures wide { IfSome result (λ row. length row ≡ self.old.width) }
    {
        self.free.pop()
    }

    /// Puts a row last.
    pub fn give(&mut self, row: Row)
        requires wide { length row ≡ self.old.width }
        requires room { length self.old.free < self.old.count }
        ensures { self.new ≡ record self.old { free = self.old.free ++ row ∷ [] } }
    {
        self.free.push_reserved(row);
    }

    /// How many rows are free. The contract says too what every pool keeps.
    pub fn spare(&self) -> usize
        ensures spare { result ≡ length self.now.free }
        ensures kept { IsPool self.now }
    {
        self.free.len()
    }

    /// How many rows are out: with those that are free they are all that the pool was made with.
    pub fn out(&self) -> usize
        ensures { length self.now.free + result ≡ self.now.count }
    {
        self.count - self.free.len()
    }
}
