//! The end of a search.

ghost use Rattle.std.specs.Prelude.{IfOk};
ghost use Rattle.std.specs.Prelude.{◌≡◌};
ghost use Rattle.sg_lanes.specs.Ends.{IsEndOf, first_cause};

use crate::growth::tree_of;
use crate::lanes::Lanes;
use sg_commit::Commitment;
use sg_frac::Frac;
use sg_search::Stuck;
use sg_tree::{Cap, Cause, Tree, Worked};
use sqlite_items::Items;
use std::alloc::{AllocError, Global};

/// What a search comes to.
#[derive(Drop)]
pub struct End {
    /// The incumbent.
    pub tickets: Commitment,
    /// Its value, in lowest terms.
    pub value: Frac,
    /// The caps of types 2 and up.
    pub caps: Items<Cap>,
    /// The tree, which holds copies of the facts of the worked prefixes.
    pub tree: Tree,
    /// The worked nodes, in the order in which they were finished.
    pub worked: Items<Worked>,
    /// Why the first stuck node is stuck, where one is.
    pub stuck: Option<Cause>,
}

/// The cause of the first stuck node.
fn first_cause(stuck: Vec<Stuck>) -> Option<Cause>
    ensures { result ≡ first_cause stuck.items }
{
    let mut stuck = stuck;
    if stuck.is_empty() {
        return None;
    }
    let Stuck { node: _, cause } = stuck.swap_remove(0);
    Some(cause)
}

impl<'a> Lanes<'a> {
    /// What the search comes to: its incumbent, caps, tree and worked nodes, and why the first stuck node is stuck. It may be
    /// asked at any state; what it means is known where nothing may happen. It takes memory for the tree alone.
    pub fn end(self, alloc: Global) -> Result<End, AllocError>
        ensures { IfOk result (λ end. IsEndOf self.entry.task self.entry.search end) }
    {
        let Lanes {
            game,
            splits,
            worked,
            stuck,
            best,
            value,
            caps,
            ..
        } = self;
        let tree = tree_of(alloc, game, worked.as_slice(), splits.as_slice())?;
        Ok(End {
            tickets: best,
            value,
            caps: Items::from_vec(caps),
            tree,
            worked: Items::from_vec(worked),
            stuck: first_cause(stuck),
        })
    }
}
