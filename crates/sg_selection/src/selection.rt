//! The event that comes next.

ghost use Rattle.std.specs.Prelude.{◌≡◌, ◌↔◌, ◌<◌, ◌≤◌, ℕ, IfNone, IfSome, IsNone};
ghost use Rattle.sg_search.specs.Searches.{Task, Search};
ghost use Rattle.sg_search.specs.Events.{IsEnd};
ghost use Rattle.sg_selection.specs.Selections.{Selects, first_selection, word_drawn, words_behind};
ghost use Rattle.sg_selection.specs.Handing.{IsAskable, IsHanded};
ghost use Rattle.sg_selection.specs.Ranking.{IsNumberBy};
ghost use Rattle.sg_selection.specs.Readiness.{IsPlaceBy};

use crate::ranked::Ranked;
use crate::ranking::best_choice;
use crate::readiness::{next_ready, ready_count, ready_of_number};
use rand_chacha::ChaCha20Rng;
use rand_core::utils::NextWord;
use sg_options::{Order, Walk};
use sg_search::{Event, Ready};
use sg_seed::generator;
use std::marker::Model;

/// Names the events of a search, one after the other, seen as its walk, the lane of the event before and the words of the
/// seed that are left.
#[derive(Drop)]
pub struct Selection {
    walk: Walk,
    // The lane of the event before, and 0 at first.
    lane: u8,
    words: ChaCha20Rng,
}

impl Model for Selection {
    ghost use Rattle.sg_selection.specs.Selections.{SelectionState};

    ghost Value = { SelectionState };

    ghost view = { λ c. record { walk = c.walk; lane_before = c.lane; words = c.words } };
}

impl Selection {
    /// A selection by this order, before the first event.
    pub fn new(order: &Order) -> Selection
        ensures { result ≡ first_selection order.now }
    {
        Selection {
            walk: order.walk,
            lane: 0,
            words: generator(order.seed),
        }
    }

    /// The next word of the seed.
    #[tactic(auto, unfolding(crate::specs::Selections::word_drawn, crate::specs::Selections::words_behind))]
    fn draw(&mut self) -> u32
        ensures word { result ≡ word_drawn self.old.words }
        ensures left { self.new ≡ record self.old { words = words_behind self.old.words } }
    {
        self.words.next_word()
    }

    /// The place of the lane of the next event.
    fn place(&mut self, ready: &[Ready]) -> Option<usize>
        ensures named { IsPlaceBy self.old.walk ready.now self.old.lane_before self.old.words self.new.words result }
        ensures walk { self.new.walk ≡ self.old.walk }
        ensures lane { self.new.lane_before ≡ self.old.lane_before }
    {
        match self.walk {
            Walk::File | Walk::Best => next_ready(ready, self.lane),
            Walk::Seeded => {
                let count = ready_count(ready);
                if count == 0 {
                    return None;
                }
                let word = self.draw();
                ready_of_number(ready, word as usize % count)
            }
        }
    }

    /// The number of the choice, where a lane begins one of so many.
    fn choice<R: Ranked>(&mut self, count: u32, ranks: &R) -> u32
        requires some { 1 ≤ count }
        requires ranked { (n : ℕ) → n < count → R.is_choice ranks.now n }
        ensures named { IsNumberBy self.old.walk (R.is_rank ranks.now) count self.old.words self.new.words result }
        ensures walk { self.new.walk ≡ self.old.walk }
        ensures lane { self.new.lane_before ≡ self.old.lane_before }
    {
        match self.walk {
            Walk::File => 0,
            Walk::Best => best_choice(count, ranks),
            Walk::Seeded => self.draw() % count,
        }
    }

    /// The event that comes next, where lane 1 is told the first of `ready`, and none exactly where no event may happen:
    /// then all stays as it was. It takes no memory. By `Walk::Best` a lane that begins a node asks once for each rank.
    pub fn event<R: Ranked>(&mut self, ready: &[Ready], ranks: &R) -> Option<Event>
        requires { IsAskable (R.is_choice ranks.now) ready.now }
        ensures selects { (p : Task) (s : Search) → IsHanded (R.is_rank ranks.now) ready.now p s → IfSome result (λ e. Selects p s self.old e self.new) }
        ensures ends { (p : Task) (s : Search) → IsHanded (R.is_rank ranks.now) ready.now p s → IsNone result ↔ IsEnd p s }
        ensures kept { IfNone result (self.new ≡ self.old) }
    {
        let place = self.place(ready)?;
        self.lane = place as u8 + 1;
        let e = match ready[place] {
            Ready::Nothing => unreachable!(),
            Ready::Begin(count) => Event::Begin(self.lane, self.choice(count, ranks)),
            Ready::Turn => Event::Turn(self.lane),
            Ready::Finish => Event::Finish(self.lane),
        };
        Some(e)
    }
}
