//! The tests of a fact: its size sum, its inequalities, and its bound.

ghost use Rattle.std.specs.Prelude.{◌≡◌, ◌+◌, ◌↔◌, ◌≤◌, ◌≤ℤ◌, ℕ, All, IsTrue, length, pos};
ghost use Rattle.sg_num.specs.Exact.{Fits};
ghost use Rattle.sg_bounds.specs.Checking.{fact_lines, fact_stops};
ghost use Rattle.sg_bounds.specs.Facts.{HoldsFor, mu_of, rho_of};
ghost use Rattle.sg_bounds.specs.Leaves.{fact_bound, listed};
ghost use Rattle.sg_bounds.specs.Regions.{IsFix, prefix};
ghost use Rattle.sg_bounds.specs.Sizes.{bound_sums, size_sums};
ghost use Rattle.sg_check.specs.Answering.{AnswersTests, BoundAnswers, held_line};
ghost use Rattle.sg_check.specs.Parts.{bounded_stops, shown_stops};
ghost use Rattle.sg_check.specs.Placing.{AreNumbersOf, IsSetting};

use crate::bound::{Stated, bound_of};
use crate::numbers::Numbers;
use crate::quotient::reduced;
use crate::refusal::Refusal;
use sg_cover_fact::holds as cover_holds;
use sg_fixed::FixedTypes;
use sg_frac::Frac;
use sg_game::Game;
use sg_plays_fact::{holds as plays_hold, size_fits};
use sg_tree::{Fact, Report};

/// Whether the size sum of a fact and the numbers under it fit.
fn fits(game: &Game, numbers: &Numbers, fix: &FixedTypes, fact: &Fact) -> bool
    requires numbers { AreNumbersOf game.now numbers.now }
    requires fix { IsFix game.now fix.now }
    ensures { IsTrue result ↔ All Fits (size_sums game.now fix.now fact.now) }
{
    size_fits(game, &numbers.measures, fix, fact)
}

/// Whether a fact holds where the fixed types take their actions.
fn holds(game: &Game, numbers: &Numbers, fix: &FixedTypes, fact: &Fact) -> bool
    requires numbers { AreNumbersOf game.now numbers.now }
    requires fix { IsFix game.now fix.now }
    requires size { All Fits (size_sums game.now fix.now fact.now) }
    ensures { IsTrue result ↔ HoldsFor game.now fix.now fact.now }
{
    match fact {
        Fact::Plays { rho, mu, marks } => {
            plays_hold(game, &numbers.measures, fix, *rho, *mu, marks.as_slice())
        }
        Fact::Cover { rho, mu, lines } => cover_holds(game, fix, *rho, *mu, lines.as_slice()),
        Fact::Water { .. } => false,
    }
}

/// Tests the size sum and the inequalities of a fact where the fixed types take their actions.
pub(crate) fn test_shown(
    game: &Game,
    report: &Report,
    numbers: &Numbers,
    fix: &FixedTypes,
    fact: &Fact,
    line: u64,
) -> Result<(), Refusal>
    requires numbers { AreNumbersOf game.now numbers.now }
    requires fix { IsFix game.now fix.now }
    ensures { (n : ℕ) → line ≡ held_line n → AnswersTests game.now report.now (shown_stops n fix.now fact.now) result }
{
    if !fits(game, numbers, fix, fact) {
        return Err(Refusal { line, reason: 9 });
    }
    if !holds(game, numbers, fix, fact) {
        return Err(Refusal { line, reason: 6 });
    }
    Ok(())
}

/// What a fact states besides its marks or lines.
pub(crate) fn stated_by(fact: &Fact) -> Stated
    ensures rho { result.rho ≡ rho_of fact.now }
    ensures mu { result.mu ≡ mu_of fact.now }
{
    match fact {
        Fact::Plays { rho, mu, .. } => Stated { rho: *rho, mu: *mu },
        Fact::Cover { rho, mu, .. } => Stated { rho: *rho, mu: *mu },
        Fact::Water { .. } => Stated { rho: 1, mu: 0 },
    }
}

/// Tests the bound of a fact that holds where so many types are fixed. Tells it, which it has where mu is above 0.
fn test_bound(
    game: &Game,
    report: &Report,
    numbers: &Numbers,
    fixed: u8,
    fact: &Fact,
    line: u64,
) -> Result<Option<Frac>, Refusal>
    requires setting { IsSetting game.now report.now numbers.now }
    requires some { 1 ≤ fixed }
    requires types { fixed ≤ length game.now.types }
    requires positive { pos 1 ≤ℤ rho_of fact.now }
    ensures { (n : ℕ) → line ≡ held_line n → BoundAnswers game.now report.now (bounded_stops n fixed fact.now) (listed (fact_bound game.now report.now.caps fixed fact.now)) result }
{
    let stated = stated_by(fact);
    if stated.mu < 1 {
        return Ok(None);
    }
    match bound_of(game, report, numbers, fixed, &stated) {
        Some(bound) => Ok(Some(reduced(&bound))),
        None => Err(Refusal { line, reason: 9 }),
    }
}

/// Tests a fact where the first types take these actions. Tells its bound, which it has where mu is above 0.
pub(crate) fn test_fact(
    game: &Game,
    report: &Report,
    numbers: &Numbers,
    acts: &[u16],
    fact: &Fact,
    line: u64,
) -> Result<Option<Frac>, Refusal>
    requires setting { IsSetting game.now report.now numbers.now }
    requires fix { IsFix game.now (prefix acts.now) }
    ensures { (n : ℕ) → line ≡ held_line n → BoundAnswers game.now report.now (fact_stops n acts.now fact.now) (listed (fact_bound game.now report.now.caps (length acts.now) fact.now)) result }
{
    let _types = game.types();
    match test_shown(game, report, numbers, &FixedTypes::prefix(acts), fact, line) {
        Ok(()) => test_bound(game, report, numbers, acts.len() as u8, fact, line),
        Err(refusal) => Err(refusal),
    }
}

/// How many lines a fact has.
pub(crate) fn lines_of(fact: &Fact) -> u64
    ensures { result ≡ held_line (fact_lines fact.now) }
{
    match fact {
        Fact::Plays { marks, .. } => (marks.len() as u64).saturating_add(1),
        Fact::Cover { lines, .. } => (lines.len() as u64).saturating_add(1),
        Fact::Water { .. } => 1,
    }
}
