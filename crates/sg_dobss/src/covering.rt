//! What plays cover, found for all of them at once.

ghost use Rattle.std.specs.Prelude.{◌≡◌, ◌≤◌, ◌++◌, ◌∷◌, [], ◌||◌, false, flat_map, length, map, nat_eq, IfOk, OnOk};
ghost use Rattle.std.specs.List.{list_any};
ghost use Rattle.sg_model.specs.Games.{is_matrix, resource_schedules};
ghost use Rattle.sg_model.specs.PlayLists.{choices_of, legal_plays};
ghost use Rattle.sg_model.specs.Plays.{covers};
ghost use Rattle.sg_game.specs.Counts.{IsGoalOf, IsResourceOf};
ghost use Rattle.sg_dobss.specs.Covering.{AreCovered, holds_target};

use sg_game::Game;
use sqlite_items::Items;
use std::alloc::{AllocError, Global};

/// Whether `t` is one of the members.
fn has(members: &[u16], t: u16) -> bool
    ensures { result ≡ list_any (λ x. nat_eq x t) members.now }
{
    members.iter().any(|x| *x == t)
}

/// Whether choice `c` of resource `r` covers target `t`; choice 0 is idle.
fn choice_holds(game: &Game, r: u16, c: usize, t: u16) -> bool
    requires resource { IsResourceOf game.now r }
    requires choice { c ≤ length (resource_schedules game.now r) }
    requires target { 1 ≤ t }
    ensures { result ≡ holds_target game.now r t c }
{
    if c == 0 {
        return false;
    }
    let s = game.resource_schedules(r)[c - 1];
    has(game.schedule_targets(s), t)
}

/// Whether one of the two holds.
fn is_either(a: bool, b: bool) -> bool
    ensures { result ≡ (a || b) }
{
    a || b
}

/// Adds what is covered by one choice before each of the plays of the resources behind it.
fn add_choice(all: &mut Items<bool>, holds: bool, rest: &[bool]) -> Result<(), AllocError>
    ensures { OnOk result (all.new ≡ all.old ++ map (λ b. holds || b) rest.now) }
{
    for b in rest {
        all.push(is_either(holds, *b))?;
    }
    Ok(())
}

/// Which plays of the resources from `r` on cover the target, from those of the resources behind it.
fn with_choices(
    alloc: Global,
    game: &Game,
    r: u16,
    t: u16,
    rest: &[bool],
) -> Result<Items<bool>, AllocError>
    requires resource { IsResourceOf game.now r }
    requires target { 1 ≤ t }
    ensures { IfOk result (λ all. all ≡ flat_map (λ c. map (λ b. holds_target game.now r t c || b) rest.now) (choices_of game.now r)) }
{
    let mut all = Items::new(alloc);
    let choices = game.resource_schedules(r).len() + 1;
    for c in 0..choices {
        add_choice(&mut all, choice_holds(game, r, c, t), rest)?;
    }
    Ok(all)
}

/// The one play of no resources, which covers nothing.
fn nothing_covered(alloc: Global) -> Result<Items<bool>, AllocError>
    ensures { IfOk result (λ all. all ≡ false ∷ []) }
{
    let mut all = Items::new(alloc);
    all.push(false)?;
    Ok(all)
}

/// Which of the legal plays, in order, cover a target.
fn covering(alloc: Global, game: &Game, t: u16) -> Result<Items<bool>, AllocError>
    requires security { is_matrix game.now ≡ false }
    requires target { IsGoalOf game.now t }
    ensures { IfOk result (λ all. all ≡ map (λ play. covers game.now play t) (legal_plays game.now)) }
{
    let mut all = nothing_covered(alloc)?;
    let resources = game.resources();
    for k in 0..resources {
        all = with_choices(alloc, game, resources - k, t, all.as_slice())?;
    }
    Ok(all)
}

/// For each target, which of the legal plays cover it; nothing in matrix form.
pub(crate) fn coverage(alloc: Global, game: &Game) -> Result<Items<Items<bool>>, AllocError>
    ensures { IfOk result (AreCovered game.now) }
{
    let mut all = Items::new(alloc);
    for t in 0..game.targets() {
        all.push(covering(alloc, game, t + 1)?)?;
    }
    Ok(all)
}
