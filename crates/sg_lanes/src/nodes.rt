//! Nodes compared, and lists of nodes.

ghost use Rattle.std.specs.Prelude.{◌≡◌, ◌≤◌, ◌<◌, ◌∷◌, [], ◌++◌, ℕ, true, false, not, filter, length, slice_get, Some, IfOk};
ghost use Rattle.sg_bounds.specs.Regions.{prefix};
ghost use Rattle.sg_search.specs.Searches.{same};
ghost use Rattle.sg_search.specs.Events.{comes_first};

use sg_tree::Fix;
use sqlite_items::Items;
use std::alloc::{AllocError, Global};
use std::cmp::Ordering;

/// Whether two nodes are the same.
pub(crate) fn is_same(a: &Fix, b: &Fix) -> bool
    ensures { result ≡ same a.now b.now }
{
    a.first == b.first && a.acts.as_slice() == b.acts.as_slice()
}

/// Whether a node comes before another one: prefixes by their lists, then cap nodes by type and action.
pub(crate) fn precedes(a: &Fix, b: &Fix) -> bool
    ensures { result ≡ comes_first a.now b.now }
{
    match a.first.cmp(&b.first) {
        Ordering::Less => true,
        Ordering::Equal => a.acts.as_slice().cmp(b.acts.as_slice()) == Ordering::Less,
        Ordering::Greater => false,
    }
}

/// Takes a node out of a list.
pub(crate) fn take_out(nodes: &mut Vec<Fix>, node: &Fix)
    ensures { nodes.new.items ≡ filter (λ y. not (same node.now y)) nodes.old.items }
{
    nodes.retain(
        |other| -> bool
            ensures { result ≡ not (same node.entry.now other.now) }
        { !is_same(node, other) },
    );
}

/// A part of a prefix, by its action.
pub(crate) fn part_of(alloc: Global, acts: &[u16], act: u16) -> Result<Fix, AllocError>
    ensures { IfOk result (λ node. node ≡ prefix (acts.now ++ act ∷ [])) }
{
    let mut all = Items::from_slice(alloc, acts)?;
    all.push(act)?;
    Ok(Fix {
        first: 1,
        acts: all,
    })
}
