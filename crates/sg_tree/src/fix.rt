//! Nodes of the tree: which types are fixed, to which actions.

ghost use Rattle.std.specs.Prelude.{◌≡◌, IfOk};

use sqlite_items::Items;
use std::alloc::{AllocError, Global};

/// The node that fixes the types `first`, `first + 1` and so on to these actions. A prefix has `first = 1`; a node
/// with `first` above 1 has one action and serves a cap. Types and actions count from 1.
#[derive(Drop)]
pub struct Fix {
    /// The first fixed type.
    pub first: u8,
    /// An action for each fixed type.
    pub acts: Items<u16>,
}

impl Fix {
    /// An equal node.
    pub fn copy(&self, alloc: Global) -> Result<Fix, AllocError>
        ensures { IfOk result (λ fix. fix ≡ self.now) }
    {
        Ok(Fix {
            first: self.first,
            acts: Items::from_slice(alloc, self.acts.as_slice())?,
        })
    }
}
