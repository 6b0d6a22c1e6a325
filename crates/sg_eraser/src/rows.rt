//! The rows of a node's coverage table, in order.

ghost use Rattle.std.specs.Prelude.{◌≡◌, IfOk, map, flat_map, length};
ghost use Rattle.sg_model.specs.declared.kind.Kind.TheVariants.{Security};
ghost use Rattle.sg_model.specs.Games.{resource_count};
ghost use Rattle.sg_model.specs.Sums.{numbers};
ghost use Rattle.sg_game.specs.Counts.{IsGoalOf};
ghost use Rattle.sg_bounds.specs.Coverage.{gains, held, others, spends, within};
ghost use Rattle.sg_bounds.specs.Regions.{IsFix, fixed};
ghost use Rattle.sg_eraser.specs.Covers.{all_rows};
ghost use Rattle.sg_eraser.specs.TableValues.{meant_row};

use crate::fixed::{target_at, type_at};
use crate::table::CoverRow;
use sg_game::Game;
use sg_tree::Fix;
use sqlite_items::Items;
use std::alloc::{AllocError, Global};

/// The rows that say that a resource makes one choice.
fn resource_rows(alloc: Global, game: &Game) -> Result<Items<CoverRow>, AllocError>
    ensures { IfOk result (λ rows. map meant_row rows ≡ map spends (numbers (resource_count game.now))) }
{
    let mut rows = Items::new(alloc);
    for k in 0..game.resources() {
        rows.push(CoverRow::Spends(k + 1))?;
    }
    Ok(rows)
}

/// The rows that say that a target is held where it is covered.
fn held_rows(alloc: Global, game: &Game) -> Result<Items<CoverRow>, AllocError>
    requires security { game.now.kind ≡ Security }
    ensures { IfOk result (λ rows. map meant_row rows ≡ map held (numbers (length game.now.goals))) }
{
    let mut rows = Items::new(alloc);
    for k in 0..game.targets() {
        rows.push(CoverRow::Held(k + 1))?;
    }
    Ok(rows)
}

/// The rows that say that a target is covered at most always.
fn within_rows(alloc: Global, game: &Game) -> Result<Items<CoverRow>, AllocError>
    requires security { game.now.kind ≡ Security }
    ensures { IfOk result (λ rows. map meant_row rows ≡ map within (numbers (length game.now.goals))) }
{
    let mut rows = Items::new(alloc);
    for k in 0..game.targets() {
        rows.push(CoverRow::Within(k + 1))?;
    }
    Ok(rows)
}

/// The rows that compare the target of a type with its others.
fn type_rows(alloc: Global, game: &Game, l: u8, own: u16) -> Result<Items<CoverRow>, AllocError>
    requires security { game.now.kind ≡ Security }
    ensures { IfOk result (λ rows. map meant_row rows ≡ map (gains l) (others game.now own)) }
{
    let mut rows = Items::new(alloc);
    for k in 0..game.targets() {
        if k + 1 != own {
            rows.push(CoverRow::Gains { l, other: k + 1 })?;
        }
    }
    Ok(rows)
}

/// The same of all fixed types.
fn gains_rows(alloc: Global, game: &Game, fix: &Fix) -> Result<Items<CoverRow>, AllocError>
    requires security { game.now.kind ≡ Security }
    requires is_fix { IsFix game.now fix.now }
    ensures { IfOk result (λ rows. map meant_row rows ≡ flat_map (λ p. map (gains p.0) (others game.now p.1)) (fixed fix.now)) }
{
    let mut rows = Items::new(alloc);
    for i in 0..fix.acts.len() {
        let l = type_at(game, fix, i);
        let own = target_at(game, fix, i);
        rows.append(type_rows(alloc, game, l, own)?)?;
    }
    Ok(rows)
}

/// All rows, from row 0.
pub(crate) fn rows(alloc: Global, game: &Game, fix: &Fix) -> Result<Items<CoverRow>, AllocError>
    requires security { game.now.kind ≡ Security }
    requires is_fix { IsFix game.now fix.now }
    ensures { IfOk result (λ rows. map meant_row rows ≡ all_rows game.now fix.now) }
{
    let mut rows = Items::new(alloc);
    rows.push(CoverRow::Whole)?;
    rows.append(resource_rows(alloc, game)?)?;
    rows.append(held_rows(alloc, game)?)?;
    rows.append(within_rows(alloc, game)?)?;
    rows.append(gains_rows(alloc, game, fix)?)?;
    Ok(rows)
}
