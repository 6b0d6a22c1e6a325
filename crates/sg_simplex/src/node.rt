//! A run of the simplex method.

ghost use Rattle.std.specs.Prelude.{◌≡◌, ◌+◌, ◌≤◌, length, IfOk, OnErr, OnOk};
ghost use Rattle.sg_lp.specs.States.{start_of};
ghost use Rattle.sg_lp.specs.Pooled.{GivesBack, taken_from};
ghost use Rattle.sg_simplex.specs.Nodes.{IsProgramNode};

use sg_lp::{Family, State};
use sg_pool::Pool;
use std::alloc::{AllocError, Global};
use std::marker::Model;

/// A run of the simplex method on a family of columns, seen as its family, its state, the width of its rows, how many moves were made, and how
/// many moves and looks may be.
#[derive(Drop)]
pub struct Node<F: Family + Drop> {
    pub(crate) family: F,
    pub(crate) state: State,
    pub(crate) entries: Vec<i64>,
    pub(crate) products: Vec<i128>,
    pub(crate) steps: u64,
    pub(crate) pivots: u64,
    pub(crate) looks: u64,
}

impl<F: Family + Drop> Model for Node<F> {
    ghost use Rattle.std.specs.Prelude.{length};
    ghost use Rattle.sg_simplex.specs.Nodes.{IsKept, NodeView};

    ghost Value = { NodeView F };

    ghost view = { λ n. record { family = n.family; tableau = n.state.tableau; width = n.state.width; steps = n.steps; pivots = n.pivots; looks = n.looks } };

    ghost invariant = { λ n. IsKept (F.program n.family) n.state.tableau n.steps (length n.entries.items) (length n.products.items) };
}

/// So many zeros.
fn entry_room(alloc: Global, height: usize) -> Result<Vec<i64>, AllocError>
    ensures { IfOk result (λ v. length v.items ≡ height) }
{
    let mut room = Vec::with_capacity(alloc, height)?;
    for _ in 0..height {
        room.push(0)?;
    }
    Ok(room)
}

/// So many zeros.
fn product_room(alloc: Global, height: usize) -> Result<Vec<i128>, AllocError>
    ensures { IfOk result (λ v. length v.items ≡ height) }
{
    let mut room = Vec::with_capacity(alloc, height)?;
    for _ in 0..height {
        room.push(0)?;
    }
    Ok(room)
}

impl<F: Family + Drop> Node<F> {
    /// A node that stands at the slacks, in as many rows of the pool as the family has and one more, and may make so many moves, with so many
    /// looks each time that it prices. After want of memory the pool is as before.
    pub fn start(
        alloc: Global,
        family: F,
        pivots: u64,
        looks: u64,
        pool: &mut Pool,
    ) -> Result<Node<F>, AllocError>
        requires wide { (F.program family).height ≤ pool.old.width }
        requires spare { (F.program family).height + 1 ≤ length pool.old.free }
        ensures started { IfOk result (λ n. n ≡ record { family = family; tableau = start_of (F.program family).height; width = pool.old.width; steps = 0; pivots = pivots; looks = looks }) }
        ensures taken { OnOk result (pool.new ≡ taken_from pool.old ((F.program family).height + 1)) }
        ensures kept { OnErr result (pool.new ≡ pool.old) }
    {
        let height = family.rows();
        let entries = entry_room(alloc, height)?;
        let products = product_room(alloc, height)?;
        let state = State::start(alloc, height, pool)?;
        Ok(Node {
            family,
            state,
            entries,
            products,
            steps: 0,
            pivots,
            looks,
        })
    }

    /// How many moves were made.
    pub fn steps(&self) -> u64
        ensures { result ≡ self.now.steps }
    {
        self.steps
    }

    /// The state. The contract says too what every node keeps.
    pub fn state(&self) -> &State
        ensures tableau { result.now.tableau ≡ self.now.tableau }
        ensures width { result.now.width ≡ self.now.width }
        ensures kept { IsProgramNode (F.program self.now.family) self.now.tableau self.now.steps }
    {
        &self.state
    }

    /// The family that was handed in.
    pub fn family(&self) -> &F
        ensures { result.now ≡ self.now.family }
    {
        &self.family
    }

    /// Gives the rows back.
    pub fn close(self, pool: &mut Pool)
        requires width { self.width ≡ pool.old.width }
        requires out { length pool.old.free + ((F.program self.family).height + 1) ≤ pool.old.count }
        ensures { GivesBack pool.old pool.new ((F.program self.family).height + 1) }
    {
        let Node { state, .. } = self;
        state.close(pool);
    }
}
