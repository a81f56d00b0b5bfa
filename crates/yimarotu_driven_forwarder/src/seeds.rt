//! What one seed serves: what a pool draws from, and by what names and questions are hashed.
ghost use Rattle.std.specs.Prelude.{◌≡◌, IfOk};
ghost use Rattle.yimarotu_driven_forwarder.specs.Seeds.{pool_seed};

use rand_chacha::ChaCha20Rng;
use rand_core::SeedableRng;
use rand_core::utils::fill_bytes_via_u32;
use std::hash::RandomState;
use std::io;
use std::random::RandomSource;

// What one seed serves.
#[derive(Drop)]
pub(crate) struct Seeds {
    // The seed of the pool.
    pub(crate) pool: [u8; 32],
    // The hasher of names and questions.
    pub(crate) hasher: RandomState,
}

// The octets that are drawn first are the pool's seed. Nothing that is seen hangs on the key of the hasher behind them.
pub(crate) fn seeds_of(seed: [u8; 32]) -> io::Result<Seeds>
    ensures { IfOk result (λ seeds. seeds.pool ≡ pool_seed seed) }
{
    let mut generator = ChaCha20Rng::from_seed(seed);
    let mut pool = [0; 32];
    fill_bytes_via_u32(&mut generator, &mut pool);
    Ok(Seeds {
        pool,
        hasher: keyed_hasher(&mut generator)?,
    })
}

// A hasher (SipHash) whose key is drawn.
fn keyed_hasher(generator: &mut ChaCha20Rng) -> io::Result<RandomState> {
    let mut octets = [0; 16];
    fill_bytes_via_u32(generator, &mut octets);
    RandomState::new(&Key { octets })
}

// A source of chance that gives the octets of a key.
#[derive(Drop)]
struct Key {
    octets: [u8; 16],
}

impl RandomSource for Key {
    fn fill_bytes(&self, buf: &mut [u8]) -> io::Result<()> {
        for (octet, key) in buf.iter_mut().zip(self.octets.iter()) {
            *octet = *key;
        }
        Ok(())
    }
}
