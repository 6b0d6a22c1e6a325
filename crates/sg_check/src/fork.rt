//! The tests of a split: its type and the number of its parts, and then its base.

ghost use Rattle.std.specs.Prelude.{◌≡◌, ◌≢◌, ◌+◌, ◌<◌, ◌≤◌, ◌↔◌, ℕ, [], IfOk, IsTrue, Option, Some, length, map};
ghost use Rattle.sg_frac.specs.Fractions.{Fraction};
ghost use Rattle.sg_model.specs.Games.{action_count};
ghost use Rattle.sg_bounds.specs.Checking.{Passes, base_lines, base_stops, forks};
ghost use Rattle.sg_bounds.specs.Leaves.{base_bound, listed};
ghost use Rattle.sg_bounds.specs.Trees.{node_of, part_count, parts_of};
ghost use Rattle.sg_check.specs.Answering.{BaseAnswers, ForkAnswers, ShowsOnly, held_line};
ghost use Rattle.sg_check.specs.Placing.{AreActions, IsSetting};

use crate::fact::{lines_of, test_fact};
use crate::numbers::Numbers;
use crate::refusal::Refusal;
use sg_frac::Frac;
use sg_game::Game;
use sg_tree::{Fact, Report, Tree};

/// A split whose tests pass: the line behind its base, and the bound of its open parts.
#[derive(Clone, Copy)]
pub(crate) struct Fork {
    pub(crate) next: u64,
    pub(crate) bound: Option<Frac>,
}

/// Whether a split behind these actions is by the next type, with one part for each of its actions.
pub(crate) fn is_fork(game: &Game, report: &Report, acts: &[u16], l: u8, parts: &[Tree]) -> bool
    requires { length acts.now ≤ length game.now.types }
    ensures { IsTrue result ↔ Passes game.now report.now (forks acts.now l (part_count (parts_of (map node_of parts.now)))) }
{
    if l as usize != acts.len() + 1 || game.types() < l {
        return false;
    }
    parts.len() == game.actions(l) as usize
}

/// Tests the base of a split, at its line. An open base has the bound above.
fn test_base(
    game: &Game,
    report: &Report,
    numbers: &Numbers,
    acts: &[u16],
    above: &Option<Frac>,
    base: &Option<Fact>,
    line: u64,
) -> Result<Fork, Refusal>
    requires setting { IsSetting game.now report.now numbers.now }
    requires some { acts.now ≢ [] }
    requires acts { AreActions game.now acts.now }
    ensures { (n : ℕ) (shown : Option Fraction) → line ≡ held_line n → ShowsOnly (listed shown) above.now → BaseAnswers game.now report.now acts.now base.now n shown result }
{
    match base {
        None => Ok(Fork {
            next: line.saturating_add(1),
            bound: *above,
        }),
        Some(fact) => match test_fact(game, report, numbers, acts, fact, line) {
            Ok(bound) => Ok(Fork {
                next: line.saturating_add(lines_of(fact)),
                bound,
            }),
            Err(refusal) => Err(refusal),
        },
    }
}

/// Tests a split behind some actions, at its line, with its base.
pub(crate) fn test_fork(
    game: &Game,
    report: &Report,
    numbers: &Numbers,
    acts: &[u16],
    above: &Option<Frac>,
    l: u8,
    base: &Option<Fact>,
    parts: &[Tree],
    line: u64,
) -> Result<Fork, Refusal>
    requires setting { IsSetting game.now report.now numbers.now }
    requires some { acts.now ≢ [] }
    requires acts { AreActions game.now acts.now }
    ensures next { IfOk result (λ fork. length acts.now < length game.now.types) }
    ensures count { IfOk result (λ fork. length parts.now ≡ action_count game.now (length acts.now + 1)) }
    ensures answers { (n : ℕ) (shown : Option Fraction) → line ≡ held_line n → ShowsOnly (listed shown) above.now → ForkAnswers game.now report.now acts.now l (part_count (parts_of (map node_of parts.now))) base.now n shown result }
{
    if !is_fork(game, report, acts, l, parts) {
        return Err(Refusal { line, reason: 5 });
    }
    test_base(
        game,
        report,
        numbers,
        acts,
        above,
        base,
        line.saturating_add(1),
    )
}
