//! What a run that has ended came to.

ghost use Rattle.std.specs.Prelude.{◌≡◌, ◌++◌, pos, true, IfOk, Some, None};
ghost use Rattle.sg_num.specs.Operations.{first_wide};
ghost use Rattle.sg_model.specs.Commitments.{AreLegal};
ghost use Rattle.sg_tree.specs.declared.fact.Fact.TheVariants.{Plays};
ghost use Rattle.sg_bounds.specs.Regions.{IsNode};
ghost use Rattle.sg_bounds.specs.SizeSteps.{size_steps};
ghost use Rattle.sg_rows.specs.Rows.{place};
ghost use Rattle.sg_lp.specs.Moves.{first_shown};
ghost use Rattle.sg_programs.specs.NodeTests.{listed_plays};
ghost use Rattle.sg_programs.specs.Shown.{both_bounds, commitment_values, fact_at, fact_values};
ghost use Rattle.sg_work.specs.declared.work.Ended.TheVariants.{Stuck};
ghost use Rattle.sg_desk.specs.Runs.{IsOutcome, IsRunOf, has_ended};
ghost use Rattle.sg_desk.specs.Ending.{DoneTells, IsDoneRun, TellsAt};

use crate::bounding::bounds_misfit;
use crate::committing::{commitment_at, commitment_misfit};
use crate::marking::marks;
use crate::run::Run;
use crate::sizing::size_misfit;
use sg_commit::Commitment;
use sg_dual::{PointFault, dual_of};
use sg_game::Game;
use sg_num::Wide;
use sg_simplex::Turn;
use sg_tree::{Cause, Fact, Fix, Mark};
use sg_work::Ended;
use sqlite_items::Items;
use std::alloc::{AllocError, Global};

/// The first operation that doesn't fit of the size sum of a fact over plays, and then of its bounds.
fn fact_misfit(game: &Game, fix: &Fix, rho: i128, mu: i128, marks: &[Mark]) -> Option<Wide>
    requires { IsNode game.now fix.now }
    ensures { result ≡ first_wide (size_steps game.now fix.now (Plays rho mu marks.now) ++ both_bounds game.now fix.now (Plays rho mu marks.now)) }
{
    match size_misfit(game, fix, rho, marks) {
        Some(wide) => Some(wide),
        None => bounds_misfit(game, fix, rho, mu),
    }
}

/// The first multiplier.
fn first_of(y: &[i128]) -> i128
    ensures { result ≡ place y.now 0 }
{
    match y.first() {
        Some(v) => *v,
        None => 0,
    }
}

impl<'a> Run<'a> {
    /// That a value doesn't fit.
    fn wide(&self, alloc: Global, name: u8, wide: Wide) -> Result<Ended, AllocError>
        ensures { IfOk result (λ e. e ≡ Stuck (Cause.Wide name wide self.now.node.steps self.now.fix)) }
    {
        let fix = self.fix.copy(alloc)?;
        let step = self.node.steps();
        Ok(Ended::Stuck(Cause::Wide {
            name,
            wide,
            step,
            fix,
        }))
    }

    /// A run that is done, whose fact's values and point's values fit: its commitment's values are formed.
    fn close_at(
        &self,
        alloc: Global,
        game: &Game,
        fact: Fact,
        k: Commitment,
    ) -> Result<Ended, AllocError>
        requires legal { AreLegal game.now k.tickets }
        ensures { IfOk result (λ e. TellsAt self.now fact k (first_shown (commitment_values game.now k.tickets)) e) }
    {
        match commitment_misfit(game, &k) {
            Some(misfit) => self.wide(alloc, misfit.name, misfit.wide),
            None => Ok(Ended::Worked(fact, Some(k))),
        }
    }

    /// A run that is done, whose fact's values fit: its point and commitment are formed.
    fn close_with(
        &self,
        alloc: Global,
        game: &Game,
        rho: i128,
        mu: i128,
        marks: Items<Mark>,
    ) -> Result<Ended, AllocError>
        requires run { IsDoneRun game.now self.now }
        requires fact { fact_at game.now self.now.fix self.now.node.tableau ≡ Plays rho mu marks }
        requires fits { first_shown (fact_values game.now self.now.fix (Plays rho mu marks)) ≡ None }
        ensures { IfOk result (DoneTells game.now self.now) }
    {
        let fact = Fact::Plays { rho, mu, marks };
        if mu < 1 {
            return Ok(Ended::Worked(fact, None));
        }
        match commitment_at(alloc, game, &self.node) {
            Ok(k) => self.close_at(alloc, game, fact, k),
            Err(PointFault::Wide(wide)) => self.wide(alloc, 5, wide),
            Err(PointFault::Memory) => Err(AllocError),
        }
    }

    /// A run that is done: its fact is formed, then its point, then its commitment.
    fn close_done(&self, alloc: Global, game: &Game) -> Result<Ended, AllocError>
        requires { IsDoneRun game.now self.now }
        ensures { IfOk result (DoneTells game.now self.now) }
    {
        let dual = dual_of(&self.node);
        let mu = first_of(dual.y);
        let marks = marks(alloc, game, &self.fix, dual.y)?;
        match fact_misfit(game, &self.fix, dual.rho, mu, marks.as_slice()) {
            Some(wide) => self.wide(alloc, 4, wide),
            None => self.close_with(alloc, game, dual.rho, mu, marks),
        }
    }

    /// What a run that has ended came to: what closes its node, or the cause that stops it.
    pub(crate) fn finish(
        &self,
        alloc: Global,
        game: &Game,
        pivots: u64,
        looks: u64,
    ) -> Result<Ended, AllocError>
        requires unscaled { game.now.scale ≡ pos 0 }
        requires run { IsRunOf game.now pivots looks self.now.node.width self.now }
        requires ended { has_ended self.now.answer ≡ true }
        ensures { IfOk result (IsOutcome game.now (listed_plays game.now pivots looks) self.now.fix) }
    {
        match self.answer {
            Some(Turn::Done) => self.close_done(alloc, game),
            Some(Turn::PivotsSpent) => Ok(Ended::Stuck(Cause::Pivots {
                budget: pivots,
                fix: self.fix.copy(alloc)?,
            })),
            Some(Turn::LooksSpent) => Ok(Ended::Stuck(Cause::Looks {
                budget: looks,
                step: self.node.steps(),
                fix: self.fix.copy(alloc)?,
            })),
            Some(Turn::Wide(name, wide)) => self.wide(alloc, name, wide),
            _ => unreachable!(),
        }
    }
}
