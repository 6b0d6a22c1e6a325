//! The node that a number chooses.

ghost use Rattle.std.specs.Prelude.{◌≡◌, IfOk};
ghost use Rattle.sg_search.specs.Searches.{Task, Search};
ghost use Rattle.sg_lanes.specs.Choices.{IsChosen};
ghost use Rattle.sg_lanes.specs.Machines.{IsNumber, IsRankOf};

use crate::lanes::Lanes;
use crate::ready::open_count;
use sg_frac::Frac;
use sg_tree::Fix;
use sqlite_items::Items;
use std::alloc::{AllocError, Global};

/// What was chosen.
#[derive(Drop)]
pub(crate) enum Choice {
    /// A node to take.
    Take(Fix),
    /// A prefix to split, and its bound.
    Branch(Items<u16>, Frac),
}

impl<'a> Lanes<'a> {
    /// The node or prefix of a number.
    pub(crate) fn choose(&self, alloc: Global, n: usize) -> Result<Choice, AllocError>
        requires { IsNumber self.now.task self.now.search n }
        ensures { IfOk result (λ choice. IsChosen self.now.task self.now.search n choice) }
    {
        let takes = open_count(self.group, self.value, self.parts.as_slice());
        if n < takes {
            return Ok(Choice::Take(self.parts[n].copy(alloc)?));
        }
        if n - takes < self.lone.len() {
            return Ok(Choice::Take(self.lone[n - takes].copy(alloc)?));
        }
        let ripe = &self.ripe[n];
        Ok(Choice::Branch(
            Items::from_slice(alloc, ripe.node.acts.as_slice())?,
            ripe.bound,
        ))
    }

    /// The bound by which the node of a number is ranked: of a part the one that it inherits, of a cap node that of the
    /// root, and of a prefix to be split its own.
    pub fn bound(&self, n: u32) -> Frac
        requires { IsNumber self.now.task self.now.search n }
        ensures { IsRankOf self.now.task self.now.search n result }
    {
        let n = n as usize;
        let takes = open_count(self.group, self.value, self.parts.as_slice());
        if n < takes {
            return match self.group {
                Some(bound) => bound,
                None => unreachable!(),
            };
        }
        if n - takes < self.lone.len() {
            return self.root;
        }
        let ripe = &self.ripe[n];
        ripe.bound
    }
}
