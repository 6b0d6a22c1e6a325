//! Turns of a node.

ghost use Rattle.std.specs.Prelude.{◌≡◌, ℕ, ◌<◌, ◌≤◌};
ghost use Rattle.sg_lp.specs.Programs.{enough_pivots};
ghost use Rattle.sg_lp.specs.States.{HaveSameBasis, StandsAbove, Tableau};
ghost use Rattle.sg_lp.specs.Moves.{Runs};
ghost use Rattle.sg_simplex.specs.Nodes.{NodeView};
ghost use Rattle.sg_simplex.specs.Turns.{EntersBy, Turns};
ghost use Rattle.sg_simplex.specs.declared.turn.Turn.{Turn};

use crate::choosing::{Choice, choose};
use crate::node::Node;
use crate::trying::try_move;
use crate::turn::Turn;
use sg_lp::{Enter, Family};

impl<F: Family + Drop> Node<F> {
    /// A turn in which a member enters.
    fn enter(&mut self, member: Enter) -> Turn
        requires { EntersBy (F.program self.old.family) (F.answer self.old.family) self.old.tableau self.old.looks member }
        ensures { Turns F.program F.answer self.old self.new result }
    {
        if self.steps >= self.pivots {
            return Turn::PivotsSpent;
        }
        let entries = self.entries.as_mut_slice();
        let products = self.products.as_mut_slice();
        match try_move(&self.family, &self.state, &member, entries, products) {
            Ok(exchange) => {
                let products = self.products.as_slice();
                self.state
                    .exchange(member, exchange.row, products, exchange.gap);
                self.steps += 1;
                Turn::Moved
            }
            Err(misfit) => Turn::Wide(misfit.name, misfit.wide),
        }
    }

    /// The next move of the run, or why there is none; it takes no memory. After any answer but `Moved` the node is as it was, so each later turn
    /// gives the same answer. At each move the multipliers over their denominator rise, so no basis comes twice, and the moves are spent only
    /// where fewer may be made than there are bases.
    pub fn turn(&mut self) -> Turn
        ensures turned { Turns F.program F.answer self.old self.new result }
        ensures lasting { self.new ≡ record self.old { tableau = self.new.tableau; steps = self.new.steps } }
        ensures run { Runs (F.program self.new.family) self.new.steps self.new.tableau }
        ensures rises { result ≡ Turn.Moved → StandsAbove (F.program self.old.family) self.new.tableau self.old.tableau }
        ensures fresh { result ≡ Turn.Moved → (k : ℕ) (t : Tableau) → k ≤ self.old.steps → Runs (F.program self.old.family) k t → ¬ (HaveSameBasis (F.program self.old.family) t self.new.tableau) }
        ensures again { ¬ (result ≡ Turn.Moved) → (later : NodeView F) (answer : Turn) → Turns F.program F.answer self.new later answer → answer ≡ result }
        ensures few { result ≡ Turn.PivotsSpent → self.old.pivots < enough_pivots (F.program self.old.family) }
    {
        match choose(&self.family, &self.state, self.looks) {
            Choice::Enters(member) => self.enter(member),
            Choice::Ends(turn) => turn,
        }
    }
}
