// From matchings of resources and targets to plays.
ghost use Rattle.std.specs.Prelude.{◌≡◌, ◌≤◌, ◌<◌, ◌+◌, All, IfOk, length};
ghost use Rattle.sg_model.specs.Games.{resource_schedules};
ghost use Rattle.sg_matchings.specs.declared.part.Part.{Part};
ghost use Rattle.sg_game.specs.Counting.{IsSingle};
ghost use Rattle.sg_game.specs.Counts.{IsResourceOf};
ghost use Rattle.sg_split.specs.ByTarget.{AreServed, AreTicketsFor, HasChoiceTo, IsChoiceFor, IsChoiceTo, IsPlayFor, IsTicketFor};

use crate::targeting::target_of;
use sg_game::Game;
use sg_matchings::Part;
use sg_model::{Play, Ticket};
use sqlite_items::Items;
use std::alloc::{AllocError, Global};

/// How many schedules resource `r` may take.
fn choices(game: &Game, r: u16) -> usize
    requires single { IsSingle game.now }
    requires resource { IsResourceOf game.now r }
    ensures count { result ≡ length (resource_schedules game.now r) }
    ensures few { result ≤ 10000 }
{
    game.promises();
    game.resource_schedules(r).len()
}

/// The first choice of a resource that goes to a target.
fn choice_to(game: &Game, r: u16, t: u16) -> u16
    requires single { IsSingle game.now }
    requires resource { IsResourceOf game.now r }
    requires some { HasChoiceTo game.now r t }
    ensures { IsChoiceTo game.now r t result }
{
    for j in 0..choices(game, r) {
        if target_of(game, r, j) == t {
            return j as u16 + 1;
        }
    }
    0
}

/// The choice of a resource for a column: idle where it is no target.
fn choice_for(game: &Game, r: u16, column: usize) -> u16
    requires single { IsSingle game.now }
    requires resource { IsResourceOf game.now r }
    requires some { column < length game.now.goals → HasChoiceTo game.now r (column + 1) }
    ensures { IsChoiceFor game.now r column result }
{
    if column < game.targets() as usize {
        choice_to(game, r, column as u16 + 1)
    } else {
        0
    }
}

/// The play in which each resource goes to the target of its column.
fn play_for(alloc: Global, game: &Game, columns: &[usize]) -> Result<Items<u16>, AllocError>
    requires single { IsSingle game.now }
    requires served { AreServed game.now columns.now }
    ensures { IfOk result (λ code. IsPlayFor game.now columns.now code) }
{
    let mut code = Items::new(alloc);
    for r in 0..game.resources() {
        code.push(choice_for(game, r + 1, columns[r as usize]))?;
    }
    Ok(code)
}

/// The ticket of a matching.
fn ticket_for(alloc: Global, game: &Game, part: &Part) -> Result<Ticket, AllocError>
    requires single { IsSingle game.now }
    requires served { AreServed game.now part.now.columns }
    ensures { IfOk result (λ ticket. IsTicketFor game.now part.now ticket) }
{
    let code = play_for(alloc, game, part.columns.as_slice())?;
    let weight = part.weight;
    Ok(Ticket {
        play: Play { code },
        weight,
    })
}

/// The tickets of matchings.
pub(crate) fn tickets_for(
    alloc: Global,
    game: &Game,
    parts: &[Part],
) -> Result<Vec<Ticket>, AllocError>
    requires single { IsSingle game.now }
    requires served { All (λ (part : Part). AreServed game.now part.columns) parts.now }
    ensures { IfOk result (λ tickets. AreTicketsFor game.now parts.now tickets.items) }
{
    let mut tickets = Vec::new(alloc);
    for part in parts {
        tickets.push(ticket_for(alloc, game, part)?)?;
    }
    Ok(tickets)
}
