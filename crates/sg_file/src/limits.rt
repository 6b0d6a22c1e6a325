//! The limits of a game as a whole.

ghost use Rattle.std.specs.Prelude.{◌≡◌, ◌+◌, ◌-◌, ◌*◌, ◌^◌, ◌<◌, ◌≤◌, ℕ, List, length, map, sum_by, ℤ, pos, slice_index_or, Vec, ◌<ℤ◌, ◌-ℤ◌, int_rem};
ghost use Rattle.std.specs.List.{list_all};
ghost use Rattle.std.specs.declared.alloc.Global.{Global};
ghost use Rattle.sg_model.specs.Games.{Attacker, resource_count, payoff_of};
ghost use Rattle.sg_model.specs.Limits.{program_rows};
ghost use Rattle.sg_game.specs.Seen.{number_lists, attacker_of, game_of};
ghost use Rattle.sg_game.specs.declared.parts.TypeParts.{TypeParts};
ghost use Rattle.sg_format.specs.GameFiles.{is_zero, fits_scale, limits_of};

use crate::fault::check;
use sg_game::{GameFault, Kind, Parts, Place, TypeParts};
use sg_model::limit::PROGRAM_ROW_LIMIT;
use sg_model::reason::{BAD_SCALE, TOO_LARGE};

/// The number at a place, or 0 past the end.
fn pay_at(pays: &[i64], place: usize) -> i64
    ensures { result ≡ slice_index_or pays.now place (pos 0) }
{
    match pays.get(place) {
        Some(pay) => *pay,
        None => 0,
    }
}

/// Whether the gap from low to high divides the scale.
fn divides(scale: i64, low: i64, high: i64) -> bool
    requires { low <ℤ high }
    ensures { result ≡ is_zero (int_rem scale (high -ℤ low)) }
{
    scale.unsigned_abs() % high.abs_diff(low) == 0
}

/// Whether the four payoffs of a target fit the scale.
fn target_fits(scale: i64, pays: &[i64]) -> bool
    ensures { result ≡ fits_scale scale (payoff_of pays.now) }
{
    let covered = pay_at(pays, 2);
    let uncovered = pay_at(pays, 3);
    pay_at(pays, 1) < pay_at(pays, 0) && covered < uncovered && divides(scale, covered, uncovered)
}

fn targets_fit(scale: i64, payoffs: &[Vec<i64>]) -> bool
    ensures { result ≡ list_all (λ (v : Vec ℤ Global). fits_scale scale (payoff_of v.items)) payoffs.now }
{
    payoffs.iter().all(|pays| target_fits(scale, pays))
}

fn type_fits(scale: i64, attacker: &TypeParts) -> bool
    ensures { result ≡ list_all (fits_scale scale) (attacker_of attacker.now).payoffs }
{
    targets_fit(scale, &attacker.payoffs)
}

fn types_fit(scale: i64, types: &[TypeParts]) -> bool
    ensures { result ≡ list_all (λ (x : TypeParts). list_all (fits_scale scale) (attacker_of x).payoffs) types.now }
{
    types.iter().all(|attacker| type_fits(scale, attacker))
}

fn scale_of(parts: &Parts) -> i64
    ensures { result ≡ (game_of parts.now).scale }
{
    match parts.scale {
        Some(scale) => scale,
        None => 0,
    }
}

fn fits_scale(parts: &Parts) -> bool
    ensures { result ≡ list_all (λ (x : Attacker). list_all (fits_scale (game_of parts.now).scale) x.payoffs) (game_of parts.now).types }
{
    types_fit(scale_of(parts), &parts.types)
}

/// Each type's actions less 1, summed.
fn further_actions(types: &[TypeParts]) -> u128
    ensures exact { result ≡ sum_by (λ (x : Attacker). length x.actions - 1) (map attacker_of types.now) }
    ensures small { result ≤ length types.now * 2 ^ 63 }
{
    let mut sum: u128 = 0;
    for attacker in types {
        sum += (attacker.actions.len() as u128).saturating_sub(1);
    }
    sum
}

/// How many resources there are: the patrols, or those listed.
fn resource_count(parts: &Parts) -> u128
    ensures exact { result ≡ resource_count (game_of parts.now) }
    ensures small { result < 2 ^ 64 }
{
    match parts.patrols {
        Some(patrols) => { if patrols < 0 { 0 } else { patrols as u128 } }
        None => parts.resources.len() as u128,
    }
}

/// How many rows the game's largest linear program has.
fn program_rows(parts: &Parts) -> u128
    ensures { result ≡ program_rows (game_of parts.now) }
{
    match parts.kind {
        Kind::Matrix => 1 + further_actions(&parts.types),
        Kind::Security => {
            let targets = parts.goals.len() as u128;
            let types = parts.types.len() as u128;
            1 + resource_count(parts) + 2 * targets + types * targets.saturating_sub(1)
        }
    }
}

/// With a scale, the payoffs fit it; without one, the linear program isn't too large.
#[tactic(auto, unfolding(sg_format::specs::GameFiles::limits_of))]
pub(crate) fn within_limits(parts: &Parts, scaled: bool) -> Result<(), GameFault>
    ensures { result ≡ limits_of (game_of parts.now) scaled }
{
    if scaled {
        check(fits_scale(parts), BAD_SCALE, Place::Attacker(1))
    } else {
        check(
            program_rows(parts) <= PROGRAM_ROW_LIMIT as u128,
            TOO_LARGE,
            Place::Document,
        )
    }
}
