//! The words that a seed gives.

ghost use Rattle.std.specs.Prelude.{◌≡◌, ◌+◌, ◌<◌, ◌^◌, ℕ};
ghost use Rattle.rand_chacha.specs.ChaCha.{next_word};
ghost use Rattle.sg_seed.specs.Seeds.{generator_of_seed, key_of_seed};
ghost use Rattle.sg_gen.specs.Draws.{generator_at, word_of_seed};
ghost use Rattle.sg_gen.specs.Making.{Draws};

use rand_chacha::ChaCha20Rng;
use rand_core::utils::NextWord;

/// The generator of a seed, at the start of stream 0.
#[tactic(auto, unfolding(crate::specs::Draws::generator_at))]
pub(crate) fn generator(seed: u64) -> ChaCha20Rng
    ensures { result ≡ generator_at seed 0 }
{
    sg_seed::generator(seed)
}

/// The next word.
pub(crate) fn draw(rng: &mut ChaCha20Rng) -> u32
    ensures { Draws rng.old rng.new 1 result word_of_seed }
{
    rng.next_word()
}
