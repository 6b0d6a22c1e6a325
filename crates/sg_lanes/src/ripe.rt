//! Prefixes that may be split.

ghost use Rattle.std.specs.Prelude.{◌≡◌, ◌≤◌, ◌<◌, ℕ, true, false, filter, length, slice_index_or, vec_capacity, vec_len};
ghost use Rattle.sg_lanes.specs.declared.ripe.Ripe.{Ripe};
ghost use Rattle.sg_lanes.specs.Ripenings.{IsPutAt, IsPutIn};
ghost use Rattle.sg_search.specs.Bounding.{exceeds};
ghost use Rattle.sg_search.specs.Events.{comes_first};

use crate::bound::is_above;
use crate::nodes::precedes;
use sg_frac::Frac;
use sg_tree::Fix;

/// A worked prefix whose bound is above the incumbent.
#[derive(Drop)]
pub struct Ripe {
    /// The prefix.
    pub node: Fix,
    /// Its bound.
    pub bound: Frac,
}

/// Lets go those whose bound is not above a value.
pub(crate) fn sift(ripe: &mut Vec<Ripe>, value: Frac)
    ensures kept { ripe.new.items ≡ filter (λ (r : Ripe). exceeds r.bound value) ripe.old.items }
    ensures len { vec_len ripe.new ≤ vec_len ripe.old }
    ensures capacity { vec_capacity ripe.new ≡ vec_capacity ripe.old }
{
    ripe.retain(
        |r| -> bool
            ensures { result ≡ exceeds r.now.bound value }
        { is_above(r.bound, value) },
    );
}

/// Before which place a node stands among these: before the first that doesn't come before it.
pub(crate) fn place(ripe: &[Ripe], node: &Fix) -> usize
    ensures within { result ≤ length ripe.now }
    ensures before { (k : ℕ) (d : Ripe) → k < result → comes_first (slice_index_or ripe.now k d).node node.now ≡ true }
    ensures after { (d : Ripe) → result < length ripe.now → comes_first (slice_index_or ripe.now result d).node node.now ≡ false }
{
    for i in 0..ripe.len() {
        if !precedes(&ripe[i].node, node) {
            return i;
        }
    }
    ripe.len()
}

/// Puts a prefix among these at its place, for which there is room.
pub(crate) fn put(ripe: &mut Vec<Ripe>, entry: Ripe)
    requires { vec_len ripe.old < vec_capacity ripe.old }
    ensures { IsPutAt ripe.old.items entry ripe.new.items }
{
    let at = place(ripe.as_slice(), &entry.node);
    match ripe.insert(at, entry) {
        Ok(()) => {}
        Err(_) => unreachable!(),
    }
}

/// Puts a prefix among these, where there is one.
pub(crate) fn put_in(ripe: &mut Vec<Ripe>, entry: Option<Ripe>)
    requires { vec_len ripe.old < vec_capacity ripe.old }
    ensures { IsPutIn ripe.old.items entry ripe.new.items }
{
    match entry {
        Some(entry) => put(ripe, entry),
        None => {}
    }
}
