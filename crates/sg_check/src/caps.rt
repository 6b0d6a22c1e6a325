//! The tests of the caps: of each its type, its form, its facts, and its bound against all of them.

ghost use Rattle.std.specs.Prelude.{◌≡◌, ◌+◌, ◌≤◌, ◌<◌, ◌^◌, ◌-ℤ◌, ◌+ℤ◌, ◌*ℤ◌, ◌≤ℤ◌, ◌↔◌, ℕ, All, IsTrue, length, pos};
ghost use Rattle.sg_model.specs.Games.{action_count, attacker};
ghost use Rattle.sg_model.specs.Payoffs.{shift_of};
ghost use Rattle.sg_game.specs.Counts.{IsTypeOf};
ghost use Rattle.sg_bounds.specs.Caps.{IsUnderCap};
ghost use Rattle.sg_bounds.specs.Checking.{IsCapShape, Passes, bound_stops, cap_stops, capped, proof_lines, proof_stops, root_line, value_line};
ghost use Rattle.sg_check.specs.Answering.{LineAnswers, held_line};
ghost use Rattle.sg_check.specs.Placing.{AreNumbersOf};

use crate::fact::{lines_of, stated_by, test_shown};
use crate::numbers::Numbers;
use crate::refusal::Refusal;
use sg_fixed::FixedTypes;
use sg_game::{Game, greatest};
use sg_tree::{Cap, Fact, Report};

/// Whether a number is at most a product: one that leaves 128 bits is decided by the signs of its factors.
fn is_at_most(mu: i128, rho: i128, worth: i128) -> bool
    ensures { IsTrue result ↔ (mu ≤ℤ (rho *ℤ worth)) }
{
    match rho.checked_mul(worth) {
        Some(product) => mu <= product,
        None => (rho < 0) == (worth < 0),
    }
}

/// A payoff with the shift, times the prior of type `l`.
fn shifted_worth(game: &Game, numbers: &Numbers, l: u8, v: i64) -> i128
    requires numbers { AreNumbersOf game.now numbers.now }
    requires known { IsTypeOf game.now l }
    ensures { result ≡ (attacker game.now l).prior *ℤ (v +ℤ shift_of game.now) }
{
    i128::from(game.prior(l)) * (i128::from(v) + numbers.shift)
}

/// Whether a fact's region is empty, or its bound for type `l` is at most `v`.
fn is_under(game: &Game, numbers: &Numbers, l: u8, v: i64, fact: &Fact) -> bool
    requires numbers { AreNumbersOf game.now numbers.now }
    requires known { IsTypeOf game.now l }
    ensures { IsTrue result ↔ IsUnderCap game.now l v fact.now }
{
    let stated = stated_by(fact);
    if stated.mu == 0 {
        return true;
    }
    is_at_most(stated.mu, stated.rho, shifted_worth(game, numbers, l, v))
}

/// Whether that is so of all facts.
fn are_under(game: &Game, numbers: &Numbers, l: u8, v: i64, facts: &[Fact]) -> bool
    requires numbers { AreNumbersOf game.now numbers.now }
    requires known { IsTypeOf game.now l }
    ensures { IsTrue result ↔ All (IsUnderCap game.now l v) facts.now }
{
    for fact in facts {
        if !is_under(game, numbers, l, v, fact) {
            return false;
        }
    }
    true
}

/// The bound that a cap states.
fn bound_of_cap(cap: &Cap) -> i64
    ensures { result ≡ cap.now.v }
{
    cap.v
}

/// Whether a cap of type `l` is plain at the greatest payoff, or has one fact for each action.
fn has_shape(game: &Game, l: u8, cap: &Cap) -> bool
    requires { IsTypeOf game.now l }
    ensures { IsTrue result ↔ IsCapShape game.now l cap.now.v cap.now.proof }
{
    if cap.proof.is_empty() {
        return bound_of_cap(cap) == greatest(game, l);
    }
    cap.proof.len() == game.actions(l) as usize
}

/// Whether the cap at place `i`, from 0, is that of type `i + 2`, and has its form.
fn is_capped(game: &Game, i: usize, cap: &Cap) -> bool
    requires { i + 2 < 2 ^ 64 }
    ensures { (l : ℕ) → l ≡ i + 2 → IsTrue result ↔ ((l ≤ length game.now.types) × (cap.now.l ≡ l) × IsCapShape game.now l cap.now.v cap.now.proof) }
{
    if game.types() as usize <= i + 1 || cap.l as usize != i + 2 {
        return false;
    }
    has_shape(game, cap.l, cap)
}

/// Tests the facts of a cap of type `l`, in order, from a line on. Tells the line behind them.
fn test_proof(
    game: &Game,
    report: &Report,
    numbers: &Numbers,
    l: u8,
    facts: &[Fact],
    line: u64,
) -> Result<u64, Refusal>
    requires numbers { AreNumbersOf game.now numbers.now }
    requires known { IsTypeOf game.now l }
    requires few { length facts.now ≤ action_count game.now l }
    ensures { (n : ℕ) → line ≡ held_line n → LineAnswers game.now report.now (proof_stops l 1 n facts.now) (n + proof_lines facts.now) result }
{
    let _actions = game.actions(l);
    let mut next = line;
    let mut a: u16 = 0;
    for fact in facts {
        a += 1;
        match test_shown(game, report, numbers, &FixedTypes::alone(l, a), fact, next) {
            Ok(()) => next = next.saturating_add(lines_of(fact)),
            Err(refusal) => return Err(refusal),
        }
    }
    Ok(next)
}

/// Tests the cap at place `i`, from 0, at its line. Tells the line behind it.
fn test_cap(
    game: &Game,
    report: &Report,
    numbers: &Numbers,
    i: usize,
    cap: &Cap,
    line: u64,
) -> Result<u64, Refusal>
    requires numbers { AreNumbersOf game.now numbers.now }
    requires place { i + 2 < 2 ^ 64 }
    ensures { (n : ℕ) → line ≡ held_line n → LineAnswers game.now report.now (cap_stops (i + 2) n cap.now) (n + 1 + proof_lines cap.now.proof) result }
{
    if !is_capped(game, i, cap) {
        return Err(Refusal { line, reason: 4 });
    }
    let facts = cap.proof.as_slice();
    match test_proof(game, report, numbers, cap.l, facts, line.saturating_add(1)) {
        Ok(next) => {
            if !are_under(game, numbers, cap.l, bound_of_cap(cap), facts) {
                return Err(Refusal { line, reason: 4 });
            }
            Ok(next)
        }
        Err(refusal) => Err(refusal),
    }
}

/// Tests the caps, from the line behind the value on, and that none is missing. Tells the line behind them.
pub(crate) fn test_caps(
    game: &Game,
    report: &Report,
    numbers: &Numbers,
    line: u64,
) -> Result<u64, Refusal>
    requires numbers { AreNumbersOf game.now numbers.now }
    requires line { line ≡ held_line (value_line report.now + 1) }
    ensures { LineAnswers game.now report.now (bound_stops report.now) (root_line report.now) result }
{
    let caps = report.caps.as_slice();
    let mut next = line;
    for i in 0..caps.len() {
        match test_cap(game, report, numbers, i, &caps[i], next) {
            Ok(behind) => next = behind,
            Err(refusal) => return Err(refusal),
        }
    }
    if caps.len() + 1 != game.types() as usize {
        return Err(Refusal {
            line: next,
            reason: 4,
        });
    }
    Ok(next)
}
