//! The work on nodes, several at once.

ghost use Rattle.std.specs.Prelude.{◌≡◌, IfOk, OnErr, OnOk, List, Option, true, false, None, ℕ};
ghost use Rattle.sg_model.specs.Games.{Game};
ghost use Rattle.sg_commit.specs.Committed.{Committed};
ghost use Rattle.sg_tree.specs.declared.fact.Fact.{Fact};
ghost use Rattle.sg_tree.specs.declared.fix.Fix.{Fix};
ghost use Rattle.sg_tree.specs.declared.report.Cause.{Cause};
ghost use Rattle.sg_bounds.specs.Regions.{IsNode};

use sg_commit::Commitment;
use sg_tree::{Cause, Fact, Fix};
use std::alloc::{AllocError, Global};

/// What a step of a node's program came to.
#[derive(Clone, Copy, Debug, PartialEq, Eq)]
pub enum Step {
    /// It made a move.
    Moved,
    /// It has ended.
    Ended,
}

/// What the work on a node came to.
#[derive(Drop)]
pub enum Ended {
    /// A fact that bounds the node's region and the best commitment there, or none where the region is empty.
    Worked(Fact, Option<Commitment>),
    /// The node could not be worked, for this cause.
    Stuck(Cause),
}

/// Programs of nodes, one in each lane. Lanes count from 1.
///
/// Its meaning is its game, what each lane holds, three tests that no call changes (after how many moves a node's
/// program ends, which results close a node, and which causes stop one), and how many moves a program makes at most.
pub trait Work {
    /// The game.
    ghost game: { Self → Game };

    ghost use Rattle.sg_work.specs.Works.{Load, AreSameTests, IsFinding, IsLoaded, IsStep, IsUnloaded, begun_load, with_load};

    /// What each lane holds.
    ghost loads: { Self → List (Option Load) };

    /// Whether a node's program ends after so many moves.
    ghost ends: { Self → Fix → ℕ → Type 0 };

    /// Whether a result closes a node.
    ghost closes: { Self → Fix → Fact → Option Committed → Type 0 };

    /// Whether a cause stops a node.
    ghost stops: { Self → Fix → Cause → Type 0 };

    /// How many moves a node's program makes at most.
    ghost most_moves: { Self → ℕ };

    /// A lane takes a node. After want of memory the work is as before.
    fn start(&mut self, alloc: Global, lane: u8, fix: &Fix) -> Result<(), AllocError>
        requires node { IsNode (game self.old) fix.now }
        requires free { IsUnloaded (loads self.old) lane }
        ensures started { OnOk result (loads self.new ≡ with_load (loads self.old) lane (begun_load fix.now)) }
        ensures kept { OnErr result (self.new ≡ self.old) }
        ensures same { game self.new ≡ game self.old }
        ensures tests { AreSameTests (ends self.old) (closes self.old) (stops self.old) (ends self.new) (closes self.new) (stops self.new) }
        ensures most { most_moves self.new ≡ most_moves self.old };

    /// A lane's program makes a step, which takes no memory.
    fn step(&mut self, lane: u8) -> Step
        requires { IsLoaded (loads self.old) lane false }
        ensures step { IsStep (ends self.old) (most_moves self.old) (loads self.old) (loads self.new) lane result }
        ensures same { game self.new ≡ game self.old }
        ensures tests { AreSameTests (ends self.old) (closes self.old) (stops self.old) (ends self.new) (closes self.new) (stops self.new) }
        ensures most { most_moves self.new ≡ most_moves self.old };

    /// What the work on a lane's node came to.
    fn finish(&self, alloc: Global, lane: u8) -> Result<Ended, AllocError>
        requires { IsLoaded (loads self.now) lane true }
        ensures { IfOk result (λ e. IsFinding (game self.now) (closes self.now) (stops self.now) (loads self.now) lane e) };

    /// A lane lets its node go, which takes no memory.
    fn clear(&mut self, lane: u8)
        requires { IsLoaded (loads self.old) lane true }
        ensures cleared { loads self.new ≡ with_load (loads self.old) lane None }
        ensures same { game self.new ≡ game self.old }
        ensures tests { AreSameTests (ends self.old) (closes self.old) (stops self.old) (ends self.new) (closes self.new) (stops self.new) }
        ensures most { most_moves self.new ≡ most_moves self.old };
}
