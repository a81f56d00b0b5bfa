//! What is kept, one reply after another.
ghost use Rattle.std.specs.Prelude.{◌≡◌};
ghost use Rattle.yimarotu_forwarder.specs.Listing.{first_listed, listed, listed_behind};

use crate::cached::CachedReply;
use crate::forwarder::Forwarder;
use second_chance_cache::Kept;
use std::marker::Model;

/// A reply that is kept.
#[derive(Debug, Drop)]
pub struct CachedEntry<'a> {
    /// Under what: an octet, of which DO is 1 and CD 2, and then the question, its name in lower case (RFC 1035,
    /// section 4.1.2).
    pub key: &'a [u8],
    /// Its response code.
    pub code: u16,
    /// For how many seconds more it is told, as it ages; 0 where it is past its end.
    pub seconds: u64,
    /// How many octets of memory it takes.
    pub weight: u64,
}

impl<'a> Model for CachedEntry<'a> {
    ghost use Rattle.yimarotu_forwarder.specs.Listing.{ListedValue};

    ghost Value = { ListedValue };

    ghost view = { λ e. record { key = e.key.now; code = e.code; seconds = e.seconds; weight = e.weight } };
}

impl Forwarder {
    /// The first of the replies that are kept. With `cached_behind` a program goes through them all, where no other
    /// call comes between. Takes no memory.
    pub fn first_cached(&self) -> Option<CachedEntry<'_>>
        ensures { result ≡ first_listed self.now }
    {
        match self.cache.first() {
            Some(kept) => Some(listed(kept, self.second())),
            None => None,
        }
    }

    /// The reply behind that of a key; none behind the last, and none where nothing is kept under the key. Takes no
    /// memory.
    pub fn cached_behind(&self, key: &[u8]) -> Option<CachedEntry<'_>>
        ensures { result ≡ listed_behind key.now self.now }
    {
        match self.cache.behind(key) {
            Some(kept) => Some(listed(kept, self.second())),
            None => None,
        }
    }
}

fn listed(kept: &Kept<CachedReply>, now: u64) -> CachedEntry<'_>
    ensures { result ≡ listed now kept.now }
{
    CachedEntry {
        key: kept.key(),
        code: kept.value.reply.code(),
        seconds: kept.value.told_until.saturating_sub(now),
        weight: kept.weight(),
    }
}
