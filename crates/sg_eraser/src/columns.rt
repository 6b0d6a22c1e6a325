//! The columns of the coverage table, in order.

ghost use Rattle.std.specs.Prelude.{◌≡◌, IfOk, map, flat_map, length};
ghost use Rattle.sg_model.specs.declared.kind.Kind.TheVariants.{Security};
ghost use Rattle.sg_model.specs.Games.{resource_count, resource_schedules};
ghost use Rattle.sg_model.specs.Sums.{numbers};
ghost use Rattle.sg_game.specs.Counts.{IsResourceOf};
ghost use Rattle.sg_bounds.specs.Coverage.{chooses, columns, covering};
ghost use Rattle.sg_eraser.specs.TableValues.{meant_column};

use crate::table::CoverColumn;
use sg_game::Game;
use sqlite_items::Items;
use std::alloc::{AllocError, Global};

/// The columns of the choices of a resource.
fn resource_columns(alloc: Global, game: &Game, r: u16) -> Result<Items<CoverColumn>, AllocError>
    requires { IsResourceOf game.now r }
    ensures { IfOk result (λ columns. map meant_column columns ≡ map (chooses r) (numbers (length (resource_schedules game.now r)))) }
{
    let mut columns = Items::new(alloc);
    for k in 0..game.resource_schedules(r).len() {
        columns.push(CoverColumn::Chooses { r, j: k + 1 })?;
    }
    Ok(columns)
}

/// The columns of the choices of all resources.
fn choice_columns(alloc: Global, game: &Game) -> Result<Items<CoverColumn>, AllocError>
    ensures { IfOk result (λ columns. map meant_column columns ≡ flat_map (λ r. map (chooses r) (numbers (length (resource_schedules game.now r)))) (numbers (resource_count game.now))) }
{
    let mut columns = Items::new(alloc);
    for k in 0..game.resources() {
        columns.append(resource_columns(alloc, game, k + 1)?)?;
    }
    Ok(columns)
}

/// The columns of the targets.
fn target_columns(alloc: Global, game: &Game) -> Result<Items<CoverColumn>, AllocError>
    requires security { game.now.kind ≡ Security }
    ensures { IfOk result (λ columns. map meant_column columns ≡ map covering (numbers (length game.now.goals))) }
{
    let mut columns = Items::new(alloc);
    for k in 0..game.targets() {
        columns.push(CoverColumn::Covering(k + 1))?;
    }
    Ok(columns)
}

/// All columns: the whole, each choice of each resource, each target.
pub(crate) fn columns(alloc: Global, game: &Game) -> Result<Items<CoverColumn>, AllocError>
    requires security { game.now.kind ≡ Security }
    ensures { IfOk result (λ all. map meant_column all ≡ columns game.now) }
{
    let mut all = Items::new(alloc);
    all.push(CoverColumn::Always)?;
    all.append(choice_columns(alloc, game)?)?;
    all.append(target_columns(alloc, game)?)?;
    Ok(all)
}
