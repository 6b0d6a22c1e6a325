//! A search at its start.

ghost use Rattle.std.specs.Prelude.{◌≡◌, ◌≤◌, ◌-◌, ◌∷◌, [], ◌++◌, map, flat_map, length, IfOk, OnOk, pos, replicate, None};
ghost use Rattle.sg_model.specs.Sums.{numbers, numbers_from};
ghost use Rattle.sg_model.specs.Games.{action_count};
ghost use Rattle.sg_game.specs.Counts.{IsTypeOf};
ghost use Rattle.sg_commit.specs.Committed.{IsCommitted};
ghost use Rattle.sg_bounds.specs.Regions.{alone, prefix};
ghost use Rattle.sg_search.specs.Searches.{first_search};
ghost use Rattle.sg_search.specs.Results.{IsFirst, most_caps};
ghost use Rattle.sg_lanes.specs.Machines.{first_tickets, task_on};

use crate::bound::root_bound;
use crate::cap::plain_cap;
use crate::lanes::Lanes;
use crate::nodes::part_of;
use sg_commit::{Commitment, value as value_of};
use sg_game::{Game, least_play, prior_total, shift};
use sg_model::Ticket;
use sg_search::Held;
use sg_tree::{Cap, Fix};
use sqlite_items::Items;
use std::alloc::{AllocError, Global};

/// So many free lanes.
fn free_lanes(alloc: Global, count: u8) -> Result<Vec<Option<Held>>, AllocError>
    ensures { IfOk result (λ lanes. lanes.items ≡ replicate count None) }
{
    let mut lanes = Vec::new(alloc);
    for i in 0..count {
        let _lane = i;
        lanes.push(None)?;
    }
    Ok(lanes)
}

/// The parts of the root.
fn root_parts(alloc: Global, game: &Game) -> Result<Vec<Fix>, AllocError>
    ensures { IfOk result (λ parts. parts.items ≡ map (λ a. prefix (a ∷ [])) (numbers (action_count game.now 1))) }
{
    let _types = game.types();
    let count = game.actions(1);
    let mut parts = Vec::new(alloc);
    for i in 0..count {
        parts.push(part_of(alloc, [].as_slice(), i + 1)?)?;
    }
    Ok(parts)
}

/// Adds the nodes that serve the cap of a type, by action.
fn push_cap_nodes(alloc: Global, game: &Game, l: u8, nodes: &mut Vec<Fix>) -> Result<(), AllocError>
    requires { IsTypeOf game.now l }
    ensures { OnOk result (nodes.new.items ≡ nodes.old.items ++ map (alone l) (numbers (action_count game.now l))) }
{
    let count = game.actions(l);
    for a in 0..count {
        let mut acts = Items::new(alloc);
        acts.push(a + 1)?;
        nodes.push(Fix { first: l, acts })?;
    }
    Ok(())
}

/// The nodes that serve the caps, by type and action.
fn cap_nodes(alloc: Global, game: &Game) -> Result<Vec<Fix>, AllocError>
    ensures { IfOk result (λ nodes. nodes.items ≡ flat_map (λ l. map (alone l) (numbers (action_count game.now l))) (numbers_from 2 (length game.now.types - 1))) }
{
    let count = game.types();
    let mut nodes = Vec::new(alloc);
    for l in 1..count {
        push_cap_nodes(alloc, game, l + 1, &mut nodes)?;
    }
    Ok(nodes)
}

/// The plain caps of types 2 and up.
fn plain_caps(alloc: Global, game: &Game) -> Result<Vec<Cap>, AllocError>
    ensures { IfOk result (λ caps. caps.items ≡ most_caps game.now) }
{
    let count = game.types();
    let mut caps = Vec::new(alloc);
    for l in 1..count {
        caps.push(plain_cap(alloc, game, l + 1))?;
    }
    Ok(caps)
}

/// The first commitment: all idle, or row 1, with one ticket.
fn first_commitment(alloc: Global, game: &Game) -> Result<Commitment, AllocError>
    ensures tickets { IfOk result (λ k. k.tickets ≡ first_tickets game.now) }
    ensures rules { IfOk result (λ k. IsCommitted k) }
    ensures first { IfOk result (λ k. IsFirst game.now k.tickets) }
{
    game.promises();
    let _priors = prior_total(game);
    let mut tickets = Items::new(alloc);
    tickets.push(Ticket {
        play: least_play(alloc, game)?,
        weight: 1,
    })?;
    match Commitment::of_rising(tickets, 1) {
        Some(commitment) => Ok(commitment),
        None => unreachable!(),
    }
}

impl<'a> Lanes<'a> {
    /// A search on a game without a scale, with so many lanes and so many nodes that may be worked.
    pub fn new(
        alloc: Global,
        game: &'a Game,
        lanes: u8,
        nodes: u64,
    ) -> Result<Lanes<'a>, AllocError>
        requires some { 1 ≤ lanes }
        requires few { lanes ≤ 8 }
        requires nodes { nodes ≤ 1000000 }
        requires plain { game.now.scale ≡ pos 0 }
        ensures task { IfOk result (λ m. m.task ≡ task_on game.now lanes nodes) }
        ensures search { IfOk result (λ m. m.search ≡ first_search (task_on game.now lanes nodes)) }
    {
        game.promises();
        let free = free_lanes(alloc, lanes)?;
        let mut splits = Vec::new(alloc);
        splits.push(Items::new(alloc))?;
        let best = first_commitment(alloc, game)?;
        let value = match value_of(game, &best) {
            Ok(value) => value,
            Err(_) => unreachable!(),
        };
        let root = root_bound(game);
        Ok(Lanes {
            game,
            count: lanes,
            nodes,
            root,
            shift: shift(game),
            lanes: free,
            splits,
            worked: Vec::new(alloc),
            stuck: Vec::new(alloc),
            best,
            value,
            caps: plain_caps(alloc, game)?,
            parts: root_parts(alloc, game)?,
            group: Some(root),
            lone: cap_nodes(alloc, game)?,
            tops: root_parts(alloc, game)?,
            undone: cap_nodes(alloc, game)?,
            ripe: Vec::new(alloc),
        })
    }
}
