//! Seeds: the generator that a whole number gives.
//!
//! [`generator`] is ChaCha with 20 rounds (`rand_chacha`), at the start of stream 0, whose key is the seed's eight bytes, low byte
//! first, and 24 zero bytes. `specs/Seeds.antt` says so; which words it gives is what `rand_chacha` states of its stream.
#![tactic(auto)]

ghost use Rattle.std.specs.Prelude.{◌≡◌};
ghost use Rattle.sg_seed.specs.Seeds.{generator_of_seed, key_of_seed};

use rand_chacha::ChaCha20Rng;
use rand_core::SeedableRng;

/// The key of a seed: its eight bytes, low byte first, and 24 zero bytes.
fn key_of_seed(seed: u64) -> [u8; 32]
    ensures { result ≡ key_of_seed seed }
{
    let mut key = [0; 32];
    key[0..8].copy_from_slice(&seed.to_le_bytes());
    key
}

/// The generator of a seed.
pub fn generator(seed: u64) -> ChaCha20Rng
    ensures { result ≡ generator_of_seed seed }
{
    ChaCha20Rng::from_seed(key_of_seed(seed))
}
