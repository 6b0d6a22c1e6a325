//! The prefixes that may be split under a new cap. While a cap node is in work the root alone is split, so these fix one type.

ghost use Rattle.std.specs.Prelude.{◌≡◌, ◌≢◌, ◌≤◌, ◌+◌, ◌-◌, ◌⊎◌, [], List, All, IfOk, OnErr, OnOk, filter, length, set, true, false};
ghost use Rattle.sg_model.specs.Commitments.{IsCommitment};
ghost use Rattle.sg_model.specs.Games.{action_count};
ghost use Rattle.sg_model.specs.Payoffs.{IsPeopled, shift_of};
ghost use Rattle.sg_model.specs.declared.ticket.Ticket.{Ticket};
ghost use Rattle.sg_game.specs.Counts.{IsTypeOf};
ghost use Rattle.sg_search.specs.Bounding.{cap_at, cap_facts, caps_of, exceeds};
ghost use Rattle.sg_search.specs.Results.{IsResult};
ghost use Rattle.sg_lanes.specs.declared.ripe.Ripe.{Ripe};
ghost use Rattle.sg_lanes.specs.ProvedCaps.{only_worked};
ghost use Rattle.sg_lanes.specs.Ripenings.{AreTopEntries, IsTopEntry};

use crate::bound::{bound_of, is_above};
use crate::cap::{fact_at, proved_cap};
use crate::nodes::part_of;
use crate::ripe::{Ripe, sift};
use sg_frac::Frac;
use sg_game::Game;
use sg_tree::{Cap, Worked};
use std::alloc::{AllocError, Global};
use std::mem;

/// The prefix of one action with its bound, where it is worked and may be split.
fn top_entry(
    alloc: Global,
    game: &Game,
    shift: i64,
    caps: &[Cap],
    worked: &[Worked],
    value: Frac,
    act: u16,
) -> Result<Option<Ripe>, AllocError>
    requires shift { shift ≡ shift_of game.now }
    requires peopled { IsPeopled game.now }
    requires results { All (IsResult game.now) worked.now }
    requires first { (k : List Ticket) × IsCommitment game.now k }
    requires caps { caps.now ≡ caps_of game.now (only_worked worked.now) }
    ensures { IfOk result (λ entry. IsTopEntry game.now (only_worked worked.now) value act entry) }
{
    match fact_at(worked, 1, act) {
        None => Ok(None),
        Some(fact) => match bound_of(game, shift, caps, 1, fact) {
            None => Ok(None),
            Some(bound) => {
                if !is_above(bound, value) {
                    return Ok(None);
                }
                let node = part_of(alloc, &[], act)?;
                Ok(Some(Ripe { node, bound }))
            }
        },
    }
}

/// The prefixes of one action that may be split, in order.
fn ripe_tops(
    alloc: Global,
    game: &Game,
    shift: i64,
    caps: &[Cap],
    worked: &[Worked],
    value: Frac,
) -> Result<Vec<Ripe>, AllocError>
    requires shift { shift ≡ shift_of game.now }
    requires peopled { IsPeopled game.now }
    requires results { All (IsResult game.now) worked.now }
    requires first { (k : List Ticket) × IsCommitment game.now k }
    requires caps { caps.now ≡ caps_of game.now (only_worked worked.now) }
    ensures { IfOk result (λ ripe. AreTopEntries game.now (only_worked worked.now) value (action_count game.now 1) ripe.items) }
{
    let _types = game.types();
    let count = game.actions(1);
    let mut ripe = Vec::new(alloc);
    for i in 0..count {
        match top_entry(alloc, game, shift, caps, worked, value, i + 1)? {
            None => {}
            Some(entry) => ripe.push(entry)?,
        }
    }
    Ok(ripe)
}

/// Puts a cap in its place, and gives the prefixes that may be split under it. After want of memory the caps are as before.
fn put_cap(
    alloc: Global,
    game: &Game,
    shift: i64,
    caps: &mut Vec<Cap>,
    worked: &[Worked],
    value: Frac,
    cap: Cap,
) -> Result<Vec<Ripe>, AllocError>
    requires later { 2 ≤ cap.l }
    requires within { cap.l ≤ length caps.old.items + 1 }
    requires shift { shift ≡ shift_of game.now }
    requires peopled { IsPeopled game.now }
    requires results { All (IsResult game.now) worked.now }
    requires first { (k : List Ticket) × IsCommitment game.now k }
    requires caps { set caps.old.items (cap.l - 2) cap ≡ caps_of game.now (only_worked worked.now) }
    ensures ripe { IfOk result (λ ripe. AreTopEntries game.now (only_worked worked.now) value (action_count game.now 1) ripe.items) }
    ensures caps { OnOk result (caps.new.items ≡ caps_of game.now (only_worked worked.now)) }
    ensures kept { OnErr result (caps.new.items ≡ caps.old.items) }
{
    let at = cap.l as usize - 2;
    let old = mem::replace(&mut caps[at], cap);
    match ripe_tops(alloc, game, shift, caps.as_slice(), worked, value) {
        Ok(ripe) => Ok(ripe),
        Err(error) => {
            caps[at] = old;
            Err(error)
        }
    }
}

/// A cap node of type `l` was worked: the caps and the prefixes that may be split after it.
///
/// The cap is formed once no node of its type is left to be done, so at most once. Until then it stays, and so do the
/// prefixes whose bounds are above the value. After want of memory nothing is changed.
pub(crate) fn renew(
    alloc: Global,
    game: &Game,
    shift: i64,
    caps: &mut Vec<Cap>,
    ripe: &mut Vec<Ripe>,
    worked: &[Worked],
    l: u8,
    more: bool,
    value: Frac,
) -> Result<(), AllocError>
    requires known { IsTypeOf game.now l }
    requires later { 2 ≤ l }
    requires within { l ≤ length caps.old.items + 1 }
    requires shift { shift ≡ shift_of game.now }
    requires peopled { IsPeopled game.now }
    requires results { All (IsResult game.now) worked.now }
    requires first { (k : List Ticket) × IsCommitment game.now k }
    requires more { more ≡ true → length (cap_facts game.now (only_worked worked.now) l) ≢ action_count game.now l }
    requires plain { length (cap_facts game.now (only_worked worked.now) l) ≢ action_count game.now l → caps.old.items ≡ caps_of game.now (only_worked worked.now) }
    requires proved { set caps.old.items (l - 2) (cap_at game.now (only_worked worked.now) l) ≡ caps_of game.now (only_worked worked.now) }
    ensures caps { OnOk result (caps.new.items ≡ caps_of game.now (only_worked worked.now)) }
    ensures ripe { OnOk result (((caps.new.items ≡ caps.old.items) × (ripe.new.items ≡ filter (λ (r : Ripe). exceeds r.bound value) ripe.old.items)) ⊎ AreTopEntries game.now (only_worked worked.now) value (action_count game.now 1) ripe.new.items) }
    ensures caps_kept { OnErr result (caps.new.items ≡ caps.old.items) }
    ensures ripe_kept { OnErr result (ripe.new.items ≡ ripe.old.items) }
{
    let cap = if more {
        None
    } else {
        proved_cap(alloc, game, shift, worked, l)?
    };
    match cap {
        None => sift(ripe, value),
        Some(cap) => *ripe = put_cap(alloc, game, shift, caps, worked, value, cap)?,
    }
    Ok(())
}
