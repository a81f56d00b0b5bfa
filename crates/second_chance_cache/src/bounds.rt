//! The bounds of a cache.
ghost use Rattle.std.specs.Prelude.{◌≡◌};
ghost use Rattle.second_chance_cache.specs.SecondChance.{is_kept};

/// How much a cache holds at the most.
#[derive(Clone, Copy, Debug, PartialEq, Eq)]
pub struct CacheBounds {
    /// How many entries.
    pub entries: usize,
    /// How many octets its entries weigh together; `u64::MAX` is as good as no bound.
    pub octets: u64,
}

impl CacheBounds {
    /// Whether an entry of this weight (octets) is kept: it is no heavier than a 256th of the octets.
    pub fn is_kept(&self, weight: u64) -> bool
        ensures { result ≡ is_kept self.now weight }
    {
        0 < self.entries && weight <= self.octets / 256
    }
}
