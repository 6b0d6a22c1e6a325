//! Whether a small fact of the coverage table holds at a node.

ghost use Rattle.std.specs.Prelude.{◌≡◌, ◌<◌, ◌≤◌, ◌+◌, ◌^◌, All, IfOk, IfSome, IsTrue, length, pos, slice_index};
ghost use Rattle.sg_model.specs.Games.{action_count};
ghost use Rattle.sg_model.specs.declared.kind.Kind.TheVariants.{Security};
ghost use Rattle.sg_num.specs.Exact.{Fits, IsAtMost};
ghost use Rattle.sg_tree.specs.declared.fact.Fact.{Fact};
ghost use Rattle.sg_bounds.specs.Regions.{IsFix};
ghost use Rattle.sg_bounds.specs.Sizes.{size_sums};
ghost use Rattle.sg_cover_fact_tests.specs.Smallness.{AreSmallLines};

use sg_cover_fact::holds;
use sg_fixed::FixedTypes;
use sg_game::{Game, Kind};
use sg_tree::Line;
use std::alloc::{AllocError, Global};

/// Whether the i-th action, from 0, is one of its type.
fn is_action(game: &Game, acts: &[u16], i: usize) -> bool
    requires in_range { length acts.now ≤ length game.now.types }
    requires inside { i < length acts.now }
    ensures { IsTrue result → (1 ≤ slice_index acts.now i) × (slice_index acts.now i ≤ action_count game.now (1 + i)) }
{
    let _types = game.types();
    acts[i] != 0 && acts[i] <= game.actions(1 + i as u8)
}

/// The node that fixes the first types to these actions; `None` where the game has none such.
pub fn node_of(game: &Game, acts: &[u16]) -> Option<FixedTypes>
    ensures { IfSome result (λ f. IsFix game.now f) }
{
    if acts.len() == 0 || acts.len() > game.types() as usize {
        return None;
    }
    for i in 0..acts.len() {
        if !is_action(game, acts, i) {
            return None;
        }
    }
    Some(FixedTypes::prefix(acts))
}

/// At most 64 lines, each with a multiplier of 32 bits; `None` where there are more.
pub fn lines_of(alloc: Global, rows: &[(u32, i32)]) -> Result<Option<Vec<Line>>, AllocError>
    ensures { IfOk result (λ lines. IfSome lines (λ v. AreSmallLines v.items)) }
{
    if rows.len() > 64 {
        return Ok(None);
    }
    let mut lines = Vec::new(alloc);
    for (row, v) in rows {
        lines.push(Line {
            row: *row,
            v: i128::from(*v),
        })?;
    }
    Ok(Some(lines))
}

/// Whether a fact of such lines holds at a node of a game in security form.
pub fn small_holds(game: &Game, fix: &FixedTypes, rho: i32, mu: i32, lines: &[Line]) -> bool
    requires security { game.now.kind ≡ Security }
    requires is_fix { IsFix game.now fix.now }
    requires small { AreSmallLines lines.now }
{
    game.promises();
    holds(game, fix, i128::from(rho), i128::from(mu), lines)
}

/// Whether a fact holds; `None` where the game is in matrix form, has no such node, or the lines are too many.
pub fn is_held(
    alloc: Global,
    game: &Game,
    acts: &[u16],
    rho: i32,
    mu: i32,
    rows: &[(u32, i32)],
) -> Result<Option<bool>, AllocError> {
    let fix = match node_of(game, acts) {
        Some(fix) => fix,
        None => return Ok(None),
    };
    let lines = match lines_of(alloc, rows)? {
        Some(lines) => lines,
        None => return Ok(None),
    };
    match game.kind() {
        Kind::Matrix => Ok(None),
        Kind::Security => Ok(Some(small_holds(game, &fix, rho, mu, lines.as_slice()))),
    }
}
