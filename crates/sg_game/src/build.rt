//! Making a game of its parts.

ghost use Rattle.std.specs.Prelude.{◌≡◌, IfOk};
ghost use Rattle.sg_model.specs.Limits.{IsGame};
ghost use Rattle.sg_game.specs.Building.{Finds, HasOwnFields};
ghost use Rattle.sg_game.specs.Drafts.{drawn};
ghost use Rattle.sg_game.specs.Faults.{fault_of};
ghost use Rattle.sg_game.specs.Seen.{game_of};

use crate::convert::{numbers_to, patrols_named};
use crate::draft::{Draft, draft_from, test_whole};
use crate::fault::BuildFault;
use crate::fields::test_fields;
use crate::game::Game;
use crate::parts::Parts;
use std::alloc::{AllocError, Global};

/// The game of a draft.
pub(crate) fn game_from(alloc: Global, draft: Draft) -> Result<Game, AllocError>
    requires { IsGame (drawn draft) }
    ensures { IfOk result (λ game. game ≡ drawn draft) }
{
    let all = numbers_to(alloc, draft.goals.len() as u16)?;
    let patrol_names = patrols_named(alloc, draft.patrols)?;
    let Draft {
        kind,
        scale,
        patrols,
        goals,
        schedules,
        resources,
        types,
    } = draft;
    Ok(Game {
        kind,
        scale,
        patrols,
        goals,
        schedules,
        resources,
        types,
        all,
        patrol_names,
    })
}

impl Game {
    /// The game of these parts.
    ///
    /// # Errors
    ///
    /// `Refused` with the first rule of a game file that they break, in the order in which a game file is tested:
    /// 3 a scale without patrols, 6 an empty list, 7 an unknown member, 8 a repeated name or member, 9 a name or a
    /// number that is out of range, 10 too large, 11 a payoff that doesn't fit the scale. `Memory` where memory ran out.
    #[tactic(auto, unfolding(crate::specs::Faults::fault_of))]
    pub fn of(alloc: Global, parts: Parts) -> Result<Game, BuildFault>
        requires { HasOwnFields parts }
        ensures game { IfOk result (λ game. game ≡ game_of parts) }
        ensures fault { Finds result (fault_of parts) }
    {
        test_fields(alloc, &parts)?;
        let is_scale_given = parts.scale.is_some();
        let draft = draft_from(alloc, parts)?;
        test_whole(is_scale_given, &draft)?;
        Ok(game_from(alloc, draft)?)
    }
}
