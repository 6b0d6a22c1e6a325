//! The choices of a walk so far, and what they cover.

ghost use Rattle.std.specs.Prelude.{◌≡◌, ◌≤◌, ◌<◌, ◌+◌, ◌++◌, ◌∷◌, [], ℕ, All, length};
ghost use Rattle.sg_model.specs.Games.{resource_count, resource_schedules};
ghost use Rattle.sg_game.specs.Counts.{IsGoalOf, IsResourceOf};
ghost use Rattle.sg_walk.specs.declared.trail.Trail.{Trail as TrailView};
ghost use Rattle.sg_walk.specs.Marks.{IsEntered, IsMarked, mark_of, targets_by};
ghost use Rattle.sg_walk.specs.Partials.{IsPartial};
ghost use Rattle.sg_walk.specs.Sums.{IsWeighted};
ghost use Rattle.sg_walk.specs.Weights.{covered_sum};

use crate::marking::{Marks, cover, uncover};
use crate::partial_play::PartialPlay;
use crate::weighted::Weighted;
use sg_game::Game;
use sg_model::limit::SCALED_TARGET_LIMIT;

/// A partial play, and marks on the targets that it covers.
#[derive(Drop)]
pub(crate) struct Trail {
    pub(crate) play: PartialPlay,
    pub(crate) marks: Marks,
}

/// The targets that resource `r` covers by a choice: none by choice 0.
fn choice_targets(game: &Game, r: u16, choice: u16) -> &[u16]
    requires resource { IsResourceOf game.now r }
    requires in_list { choice ≤ length (resource_schedules game.now r) }
    ensures list { result.now ≡ targets_by game.now r choice }
    ensures known { All (IsGoalOf game.now) result.now }
{
    if choice == 0 {
        return &[];
    }
    let s = game.resource_schedules(r)[choice as usize - 1];
    game.schedule_targets(s)
}

impl Trail {
    /// No choice.
    pub(crate) fn new() -> Trail
        ensures play { result.play ≡ [] }
        ensures unmarked { (t : ℕ) → mark_of result.marks t ≡ 0 }
    {
        Trail {
            play: PartialPlay::new(),
            marks: [0; SCALED_TARGET_LIMIT],
        }
    }

    /// Takes one more choice, and tells the sum of the covered weights with it.
    pub(crate) fn enter(&mut self, weighted: &Weighted, choice: u16, covered: i128) -> i128
        requires weighted { IsWeighted weighted.now.game.now weighted.now.weights.now }
        requires few { resource_count weighted.now.game.now ≤ 32 }
        requires later { length self.old.play < resource_count weighted.now.game.now }
        requires in_list { choice ≤ length (resource_schedules weighted.now.game.now (length self.old.play + 1)) }
        requires marked { IsMarked weighted.now.game.now self.old }
        requires sum { covered ≡ covered_sum weighted.now.game.now weighted.now.weights.now self.old.play }
        ensures entered { IsEntered weighted.now.game.now self.old choice self.new }
        ensures marked { IsMarked weighted.now.game.now self.new }
        ensures sum { result ≡ covered_sum weighted.now.game.now weighted.now.weights.now self.new.play }
    {
        let r = self.play.len() as u16 + 1;
        let targets = choice_targets(weighted.game, r, choice);
        self.play.push(choice);
        cover(weighted.weights, targets, r as u8, &mut self.marks, covered)
    }

    /// Takes back the last choice.
    pub(crate) fn leave(&mut self, weighted: &Weighted)
        requires weighted { IsWeighted weighted.now.game.now weighted.now.weights.now }
        requires few { resource_count weighted.now.game.now ≤ 32 }
        requires partial { IsPartial weighted.now.game.now self.old.play }
        requires some { 0 < length self.old.play }
        ensures { (before : TrailView) (choice : ℕ) → IsEntered weighted.now.game.now before choice self.old → self.new ≡ before }
    {
        let r = self.play.len() as u16;
        let choice = self.play.pop();
        uncover(
            choice_targets(weighted.game, r, choice),
            r as u8,
            &mut self.marks,
        );
    }
}
