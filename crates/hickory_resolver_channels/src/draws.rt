//! What is drawn by chance.
ghost use Rattle.std.specs.Prelude.{◌≡◌, IfOk};
ghost use Rattle.rand_chacha.specs.ChaCha.{of_seed};
ghost use Rattle.hickory_resolver_channels.specs.Draws.{next_drawn, id_drawn, letters_drawn, try_drawn, after_try};

use rand_chacha::ChaCha20Rng;
use rand_core::SeedableRng;
use rand_core::utils::{NextWord, fill_bytes_via_u32};
use std::alloc::AllocError;
use std::marker::Model;

/// What is drawn for one try.
#[derive(Clone, Copy, Debug)]
pub struct Drawn {
    /// The number of its message.
    pub id: u16,
    /// Which letters of the name are varied.
    pub letters: [u8; 32],
}

/// What is drawn by chance, from a seed that nobody knows. Two of one seed draw the same, so a copy of a process draws
/// what the other draws, unless it begins anew with another seed.
#[derive(Drop)]
pub struct Draws {
    generator: ChaCha20Rng,
}

impl Model for Draws {
    ghost use Rattle.rand_chacha.specs.ChaCha.{ChaCha};

    ghost Value = { ChaCha };

    ghost view = { λ d. d.generator };
}

impl Draws {
    /// The draws of a seed.
    pub fn new(seed: [u8; 32]) -> Draws
        ensures { result ≡ of_seed seed }
    {
        Draws {
            generator: ChaCha20Rng::from_seed(seed),
        }
    }

    /// A number, as that of a place from which servers are asked in turn.
    pub fn number(&mut self) -> u32
        ensures { (result, self.new) ≡ next_drawn self.old }
    {
        self.generator.next_word()
    }

    /// The number of a message.
    pub fn id(&mut self) -> u16
        ensures id { result ≡ id_drawn self.old }
        ensures after { self.new ≡ (next_drawn self.old).1 }
    {
        (self.number() % 65536) as u16
    }

    /// Which letters of a name are varied.
    pub fn letters(&mut self) -> [u8; 32]
        ensures { (result, self.new) ≡ letters_drawn self.old }
    {
        let mut letters = [0; 32];
        fill_bytes_via_u32(&mut self.generator, &mut letters);
        letters
    }

    /// What is drawn next for a try, and the draws after that. These stay as they are, so that a try for which memory
    /// is refused costs nothing.
    pub fn for_try(&self) -> Result<(Drawn, Draws), AllocError>
        ensures drawn { IfOk result (λ r. r.0 ≡ try_drawn self.now) }
        ensures after { IfOk result (λ r. r.1 ≡ after_try self.now) }
    {
        let generator = Clone::clone(&self.generator)?;
        let mut after = Draws { generator };
        let id = after.id();
        let letters = after.letters();
        Ok((Drawn { id, letters }, after))
    }
}
