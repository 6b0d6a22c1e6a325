//! A game before it is tested as a whole, and those tests.

ghost use Rattle.std.specs.Prelude.{◌≡◌, ◌≤◌, ◌+◌, ◌-◌, ◌*◌, All, IfOk, length, option_map, sum_by, true, false, pos, ◌≤ℤ◌, int_rem, int_lt, ◌&&◌};
ghost use Rattle.std.specs.Ordering.{int_eq};
ghost use Rattle.sg_model.specs.Limits.{IsPayoff, program_rows};
ghost use Rattle.sg_model.specs.Games.{resource_count};
ghost use Rattle.sg_model.specs.Origami.{gap};
ghost use Rattle.sg_model.specs.declared.limit.TheConstants.{ACTION_LIMIT, SCALED_PATROL_LIMIT, SCALED_TARGET_LIMIT, TYPE_LIMIT};
ghost use Rattle.sg_game.specs.Building.{FindsAlways};
ghost use Rattle.std.specs.List.{list_all};
ghost use Rattle.sg_game.specs.Counts.{rows_by};
ghost use Rattle.sg_game.specs.Drafts.{FitsDraft, IsFewPatrols, IsCountable, drawn};
ghost use Rattle.sg_game.specs.Faults.{is_scaled_game, is_scaled_payoff, whole_fault};
ghost use Rattle.sg_model.specs.Sums.{positive_part};
ghost use Rattle.sg_game.specs.Seen.{game_of};

use crate::convert::{attackers_from, lists_from, names_from};
use crate::entries::passed;
use crate::game::{Attacker, Name, Named, Payoff};
use crate::parts::Parts;
use sg_model::limit::PROGRAM_ROW_LIMIT;
use sg_model::reason::{BAD_SCALE, TOO_LARGE};
use sg_model::{GameFault, Kind, Place};
use sqlite_items::Items;
use std::alloc::{AllocError, Global};

/// A game as it lies in memory, before it is tested as a whole.
#[derive(Drop)]
pub(crate) struct Draft {
    pub(crate) kind: Kind,
    pub(crate) scale: i64,
    pub(crate) patrols: Option<u16>,
    pub(crate) goals: Items<Name>,
    pub(crate) schedules: Items<Named>,
    pub(crate) resources: Items<Named>,
    pub(crate) types: Items<Attacker>,
}

/// A number of patrols as a short number, and 0 for a number below 0.
fn count_from(patrols: i64) -> u16
    requires { positive_part patrols ≤ 200 }
    ensures { result ≡ positive_part patrols }
{
    if patrols < 0 { 0 } else { patrols as u16 }
}

/// The number of patrols, where there are any.
fn patrols_from(patrols: Option<i64>) -> Option<u16>
    requires { IsFewPatrols (option_map positive_part patrols) }
    ensures { result ≡ option_map positive_part patrols }
{
    match patrols {
        Some(n) => Some(count_from(n)),
        None => None,
    }
}

/// The draft of parts.
pub(crate) fn draft_from(alloc: Global, parts: Parts) -> Result<Draft, AllocError>
    requires { FitsDraft parts }
    ensures { IfOk result (λ draft. drawn draft ≡ game_of parts) }
{
    let Parts {
        kind,
        scale,
        patrols,
        goals,
        schedules,
        resources,
        types,
    } = parts;
    let goals = names_from(alloc, goals)?;
    let schedules = lists_from(alloc, schedules)?;
    let resources = lists_from(alloc, resources)?;
    let types = attackers_from(alloc, types)?;
    Ok(Draft {
        kind,
        scale: scale.unwrap_or(0),
        patrols: patrols_from(patrols),
        goals,
        schedules,
        resources,
        types,
    })
}

/// What the attacker loses where the target is covered.
fn gap_of(payoff: &Payoff) -> i64
    requires { IsPayoff payoff.now }
    ensures { result ≡ gap payoff.now }
{
    payoff.au - payoff.ac
}

/// Whether the gap divides the scale.
fn divides(gap: i64, scale: i64) -> bool
    requires { pos 1 ≤ℤ gap }
    ensures { result ≡ int_eq (int_rem scale gap) (pos 0) }
{
    scale % gap == 0
}

/// Whether covering helps the defender and hurts the attacker.
fn is_useful(payoff: &Payoff) -> bool
    ensures { result ≡ (int_lt payoff.now.du payoff.now.dc && int_lt payoff.now.ac payoff.now.au) }
{
    payoff.du < payoff.dc && payoff.ac < payoff.au
}

/// Whether the payoffs fit the scale.
fn is_scaled_payoff(scale: i64, payoff: &Payoff) -> bool
    requires { IsPayoff payoff.now }
    ensures { result ≡ is_scaled_payoff scale payoff.now }
{
    is_useful(payoff) && divides(gap_of(payoff), scale)
}

/// Whether each of the payoffs fits the scale.
#[tactic(auto, using(std::proofs::lemmas::List::Folds::list_all_at))]
fn are_scaled(scale: i64, payoffs: &[Payoff]) -> bool
    requires { All IsPayoff payoffs.now }
    ensures { result ≡ list_all (is_scaled_payoff scale) payoffs.now }
{
    for payoff in payoffs {
        if !is_scaled_payoff(scale, payoff) {
            return false;
        }
    }
    true
}

/// Whether each payoff of each type fits the scale.
#[tactic(auto, using(std::proofs::lemmas::List::Folds::list_all_at))]
fn is_scaled(scale: i64, types: &[Attacker]) -> bool
    requires { All (λ x. All IsPayoff x.payoffs) types.now }
    ensures { result ≡ list_all (λ x. list_all (is_scaled_payoff scale) x.payoffs) types.now }
{
    for attacker in types {
        if !are_scaled(scale, attacker.payoffs.as_slice()) {
            return false;
        }
    }
    true
}

/// The sum over the types of their actions less 1.
fn more_actions(types: &[Attacker]) -> usize
    requires few { length types.now ≤ TYPE_LIMIT }
    requires actions { All (λ x. length x.actions ≤ ACTION_LIMIT) types.now }
    ensures sum { result ≡ sum_by (λ x. length x.actions - 1) types.now }
    ensures small { result ≤ 512 }
{
    let mut total: usize = 0;
    for attacker in types {
        total += attacker.actions.len().saturating_sub(1);
    }
    total
}

/// The rows of the largest linear program.
pub(crate) fn rows_of(kind: Kind, resources: usize, goals: usize, types: &[Attacker]) -> usize
    requires few_resources { resources ≤ SCALED_PATROL_LIMIT }
    requires few_goals { goals ≤ SCALED_TARGET_LIMIT }
    requires few_types { length types.now ≤ TYPE_LIMIT }
    requires few_actions { All (λ x. length x.actions ≤ ACTION_LIMIT) types.now }
    ensures rows { result ≡ rows_by kind resources goals types.now }
    ensures small { result ≤ 200000 }
{
    match kind {
        Kind::Matrix => 1 + more_actions(types),
        Kind::Security => 1 + resources + 2 * goals + types.len() * goals.saturating_sub(1),
    }
}

/// The number of resources of a draft.
fn resources_of(draft: &Draft) -> usize
    requires { IsCountable (drawn draft.now) }
    ensures count { result ≡ resource_count (drawn draft.now) }
    ensures few { result ≤ SCALED_PATROL_LIMIT }
{
    match draft.patrols {
        Some(patrols) => patrols as usize,
        None => draft.resources.len(),
    }
}

/// Tests a draft as a whole.
pub(crate) fn test_whole(is_scale_given: bool, draft: &Draft) -> Result<(), GameFault>
    requires { IsCountable (drawn draft.now) }
    ensures { FindsAlways result (whole_fault is_scale_given (drawn draft.now)) }
{
    let types = draft.types.as_slice();
    if is_scale_given {
        passed(is_scaled(draft.scale, types), BAD_SCALE, Place::Attacker(1))
    } else {
        let rows = rows_of(draft.kind, resources_of(draft), draft.goals.len(), types);
        passed(rows <= PROGRAM_ROW_LIMIT, TOO_LARGE, Place::Document)
    }
}
