//! The marks of a node's fact: its multipliers above 0, by rising row.

ghost use Rattle.std.specs.Prelude.{◌≡◌, ◌≤◌, ◌<◌, ◌+◌, ◌*◌, ◌^◌, ◌++◌, ◌∷◌, [], drop, length, slice_index, IfOk};
ghost use Rattle.sg_game.specs.Counts.{IsTypeOf};
ghost use Rattle.sg_bounds.specs.PlayRows.{comparisons, other_actions};
ghost use Rattle.sg_bounds.specs.Regions.{IsFix};
ghost use Rattle.sg_rows.specs.Rows.{place};
ghost use Rattle.sg_programs.specs.Marks.{marks_of};

use sg_game::Game;
use sg_tree::{Fix, Mark};
use sqlite_items::Items;
use std::alloc::{AllocError, Global};

/// The multiplier of a row, from 0.
fn multiplier(y: &[i128], row: usize) -> i128
    ensures { result ≡ place y.now row }
{
    match y.get(row) {
        Some(v) => *v,
        None => 0,
    }
}

/// A mark more, where its multiplier is above 0.
fn put(marks: &mut Items<Mark>, l: u8, a: u16, v: i128) -> Result<(), AllocError>
    ensures { IfOk result (λ _. marks.new ≡ marks.old ++ marks_of ((l, a) ∷ []) (v ∷ [])) }
{
    if v > 0 {
        marks.push(Mark { l, a, v })?;
    }
    Ok(())
}

/// The marks of a type that is fixed to an action, whose rows stand from this one on; and the row behind them.
fn put_type(
    marks: &mut Items<Mark>,
    game: &Game,
    l: u8,
    act: u16,
    y: &[i128],
    row: usize,
) -> Result<usize, AllocError>
    requires known { IsTypeOf game.now l }
    requires few { row ≤ 2 ^ 32 }
    ensures next { IfOk result (λ next. next ≡ row + length (other_actions game.now (l, act))) }
    ensures near { IfOk result (λ next. next ≤ row + 2 ^ 16) }
    ensures marks { IfOk result (λ _. marks.new ≡ marks.old ++ marks_of (other_actions game.now (l, act)) (drop row y.now)) }
{
    let mut next = row;
    for i in 0..game.actions(l) {
        if i + 1 != act {
            put(marks, l, i + 1, multiplier(y, next))?;
            next += 1;
        }
    }
    Ok(next)
}

/// The i-th fixed type, from 0.
fn type_at(game: &Game, fix: &Fix, i: usize) -> u8
    requires is_fix { IsFix game.now fix.now }
    requires inside { i < length fix.now.acts }
    ensures number { result ≡ fix.now.first + i }
    ensures known { IsTypeOf game.now result }
{
    game.promises();
    fix.first + i as u8
}

/// The action that it is fixed to.
fn act_at(fix: &Fix, i: usize) -> u16
    requires { i < length fix.now.acts }
    ensures { result ≡ slice_index fix.now.acts i }
{
    fix.acts.as_slice()[i]
}

/// The marks of multipliers by row, of which that of row 0 is none.
pub(crate) fn marks(
    alloc: Global,
    game: &Game,
    fix: &Fix,
    y: &[i128],
) -> Result<Items<Mark>, AllocError>
    requires { IsFix game.now fix.now }
    ensures { IfOk result (λ marks. marks ≡ marks_of (comparisons game.now fix.now) (drop 1 y.now)) }
{
    game.promises();
    let mut marks = Items::new(alloc);
    let mut row = 1;
    for i in 0..fix.acts.len() {
        let l = type_at(game, fix, i);
        row = put_type(&mut marks, game, l, act_at(fix, i), y, row)?;
    }
    Ok(marks)
}
