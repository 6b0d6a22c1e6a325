//! The tree of splits.

use crate::fact::Fact;
use sqlite_items::Items;

/// A tree of splits by the action of a type.
#[derive(Drop)]
pub enum Tree {
    /// No fact: it has the bound of the base above it.
    Unproved,
    /// A fact bounds it.
    Closed(Fact),
    /// One part for each action of type `l`, in order. The base bounds the parts that are unproved.
    Split {
        l: u8,
        base: Option<Fact>,
        parts: Items<Tree>,
    },
}
