//! The tree of a search, read off its worked and its split prefixes.
//!
//! Prefixes are found by their lists, so that forming the tree takes about the time of its nodes.

ghost use Rattle.std.specs.Prelude.{◌≡◌, ◌+◌, ◌++◌, ◌∷◌, [], IfOk, OnOk, length, map, List, Option};
ghost use Rattle.sg_model.specs.Sums.{numbers};
ghost use Rattle.sg_model.specs.Games.{action_count};
ghost use Rattle.sg_tree.specs.declared.worked.Worked.{Worked};
ghost use Rattle.sg_bounds.specs.Regions.{prefix};
ghost use Rattle.sg_bounds.specs.Trees.{node_of};
ghost use Rattle.sg_search.specs.declared.held.Held.{Held};
ghost use Rattle.sg_search.specs.declared.held.Stuck.{Stuck};
ghost use Rattle.sg_search.specs.Searches.{Search};
ghost use Rattle.sg_search.specs.Bounding.{fact_of, leaf_with, tree_at, tree_of};
ghost use Rattle.sg_lanes.specs.Ends.{HasFacts, HasSplits};

use crate::nodes::part_of;
use sg_game::Game;
use sg_tree::{Fact, Tree, Worked};
use sqlite_items::Items;
use std::alloc::{AllocError, Global};
use std::collections::{BTreeMap, BTreeSet};

/// Puts the fact of a worked prefix at its list, in place of one that is there.
fn put_fact<'w>(facts: &mut BTreeMap<&'w [u16], &'w Fact>, w: &'w Worked) -> Result<(), AllocError>
    ensures { (rest : List Worked) → HasFacts rest facts.old → OnOk result (HasFacts (w.now ∷ rest) facts.new) }
{
    if w.fix.first == 1 {
        let _other = facts.insert(w.fix.acts.as_slice(), &w.fact)?;
    }
    Ok(())
}

/// The facts of the worked prefixes, by their lists.
fn index_facts<'w>(
    alloc: Global,
    worked: &'w [Worked],
) -> Result<BTreeMap<&'w [u16], &'w Fact>, AllocError>
    ensures { IfOk result (λ facts. HasFacts worked.now facts) }
{
    let mut facts = BTreeMap::new(alloc);
    let count = worked.len();
    for i in 0..count {
        // From the last to the first, which counts where two have one list.
        put_fact(&mut facts, &worked[count - 1 - i])?;
    }
    Ok(facts)
}

/// The lists of the split prefixes.
fn index_splits<'w>(
    alloc: Global,
    splits: &'w [Items<u16>],
) -> Result<BTreeSet<&'w [u16]>, AllocError>
    ensures { IfOk result (λ lists. HasSplits splits.now lists) }
{
    let mut lists = BTreeSet::new(alloc);
    for acts in splits {
        lists.insert(acts.as_slice())?;
    }
    Ok(lists)
}

/// The fact of a prefix, where it is worked, copied.
fn copy_fact(
    alloc: Global,
    facts: &BTreeMap<&[u16], &Fact>,
    acts: &[u16],
) -> Result<Option<Fact>, AllocError>
    ensures { (worked : List Worked) → HasFacts worked facts.now → IfOk result (λ fact. fact ≡ fact_of worked (prefix acts.now)) }
{
    match facts.get(acts) {
        None => Ok(None),
        Some(fact) => match fact.copy(alloc) {
            Ok(fact) => Ok(Some(fact)),
            Err(error) => Err(error),
        },
    }
}

/// A part without a fact, or closed by its fact.
fn leaf(fact: Option<Fact>) -> Tree
    ensures { node_of result ≡ leaf_with fact }
{
    match fact {
        None => Tree::Unproved,
        Some(fact) => Tree::Closed(fact),
    }
}

/// The parts of a split prefix, below each of which `left` types may be fixed.
#[cycle(tree)]
fn parts(
    alloc: Global,
    game: &Game,
    facts: &BTreeMap<&[u16], &Fact>,
    splits: &BTreeSet<&[u16]>,
    acts: &[u16],
    left: u8,
) -> Result<Items<Tree>, AllocError>
    requires { length acts.now + left + 1 ≡ length game.now.types }
    ensures { (s : Search) → HasFacts s.worked facts.now → HasSplits s.splits splits.now → IfOk result (λ parts. map node_of parts ≡ map (λ a. tree_at game.now s left (acts.now ++ a ∷ [])) (numbers (action_count game.now (length acts.now + 1)))) }
{
    let _types = game.types();
    let count = game.actions(acts.len() as u8 + 1);
    let mut parts = Items::new(alloc);
    for a in 0..count {
        let below = part_of(alloc, acts, a + 1)?;
        match node(alloc, game, facts, splits, below.acts.as_slice(), left) {
            Ok(part) => parts.push(part)?,
            Err(error) => return Err(error),
        }
    }
    Ok(parts)
}

/// The tree from a prefix on, below which `left` types may be fixed.
#[cycle(tree)]
fn node(
    alloc: Global,
    game: &Game,
    facts: &BTreeMap<&[u16], &Fact>,
    splits: &BTreeSet<&[u16]>,
    acts: &[u16],
    left: u8,
) -> Result<Tree, AllocError>
    requires { length acts.now + left ≡ length game.now.types }
    ensures { (s : Search) → HasFacts s.worked facts.now → HasSplits s.splits splits.now → IfOk result (λ tree. node_of tree ≡ tree_at game.now s left acts.now) }
{
    let _types = game.types();
    let fact = match copy_fact(alloc, facts, acts) {
        Ok(fact) => fact,
        Err(error) => return Err(error),
    };
    if left == 0 {
        return Ok(leaf(fact));
    }
    if !splits.contains(acts) {
        return Ok(leaf(fact));
    }
    match parts(alloc, game, facts, splits, acts, left - 1) {
        Ok(parts) => Ok(Tree::Split {
            l: acts.len() as u8 + 1,
            base: fact,
            parts,
        }),
        Err(error) => Err(error),
    }
}

/// The tree of these worked nodes and these split prefixes, made of copies of the facts.
pub(crate) fn tree_of(
    alloc: Global,
    game: &Game,
    worked: &[Worked],
    splits: &[Items<u16>],
) -> Result<Tree, AllocError>
    ensures { (lanes : List (Option Held)) (stuck : List Stuck) → IfOk result (λ tree. node_of tree ≡ tree_of game.now (record { lanes = lanes; splits = splits.now; worked = worked.now; stuck = stuck })) }
{
    let facts = index_facts(alloc, worked)?;
    let lists = index_splits(alloc, splits)?;
    node(alloc, game, &facts, &lists, [].as_slice(), game.types())
}
