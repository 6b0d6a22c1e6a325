//! What enters at a state.

ghost use Rattle.std.specs.Prelude.{◌≡◌, length};
ghost use Rattle.sg_lp.specs.Programs.{IsWithinLimits};
ghost use Rattle.sg_lp.specs.Moves.{AreAbove};
ghost use Rattle.sg_simplex.specs.Choices.{Chooses};

use crate::entering::low_row;
use crate::turn::Turn;
use sg_lp::{Column, Enter, Family, Priced, State};

/// What happens at a state: a member enters, or the node ends.
#[derive(Drop)]
pub(crate) enum Choice {
    Enters(Enter),
    Ends(Turn),
}

/// What happens where no slack enters.
fn priced<F: Family>(family: &F, state: &State, looks: u64) -> Choice
    requires long { length state.now.tableau.y ≡ (F.program family.now).height }
    requires above { AreAbove state.now.tableau.y }
    ensures { Chooses (F.program family.now) (F.answer family.now) state.now.tableau looks result }
{
    let mut found = Column {
        len: 0,
        code: [0; 32],
    };
    match family.price(state.multipliers(), state.rho(), looks, &mut found) {
        Priced::Found => Choice::Enters(Enter::Col(found)),
        Priced::Clean { .. } => Choice::Ends(Turn::Done),
        Priced::Spent => Choice::Ends(Turn::LooksSpent),
        Priced::Wide(name, wide) => Choice::Ends(Turn::Wide(name, wide)),
    }
}

/// What happens at a state: the slack of the least row with a multiplier below 0 enters, else pricing decides.
pub(crate) fn choose<F: Family>(family: &F, state: &State, looks: u64) -> Choice
    requires sized { IsWithinLimits (F.program family.now) }
    requires long { length state.now.tableau.y ≡ (F.program family.now).height }
    ensures { Chooses (F.program family.now) (F.answer family.now) state.now.tableau looks result }
{
    match low_row(state.multipliers()) {
        Some(i) => Choice::Enters(Enter::Slack(i as u16)),
        None => priced(family, state, looks),
    }
}
