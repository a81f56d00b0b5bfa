//! A bounded cache of failures.
ghost use Rattle.std.specs.Prelude.{◌≡◌, ◌+◌, ℕ, Bool, List, false, filter, length, not, IsOk, OnOk, OnErr};
ghost use Rattle.std.specs.Fn.{FnReturnsAt};
ghost use Rattle.second_chance_cache.specs.SecondChance.{IsCache, is_kept, no_entries, without, told};
ghost use Rattle.kept_failures.specs.Failures.{failure_at, noted, seconds_after, weight_of};

use crate::choices::{FAILURE, FIRST_SECONDS};
use crate::failure::KeptFailure;
use second_chance_cache::{CacheBounds, SecondChanceCache};
use std::alloc::{AllocError, Global};
use std::hash::{BuildHasher, BuildHasherDefault, FoldHasher};
use std::marker::Model;

/// Failures by key (octets), such as those of a question and of who was asked. A failure is told again for one second,
/// and each further one that comes while it is remembered for twice as long as the one before, `MOST_SECONDS` at the
/// most (RFC 9520, section 3.2). It is remembered for `REMEMBERED_SECONDS` after it was told last. Moments are whole
/// seconds, and the last one counts, so that none is told for less.
///
/// What is not kept for want of room is not told again: then servers are asked more often, and nothing else changes.
#[derive(Drop)]
pub struct FailureCache<R, S: BuildHasher = BuildHasherDefault<FoldHasher>> {
    cache: SecondChanceCache<KeptFailure<R>, S>,
}

impl<R, S: BuildHasher> Model for FailureCache<R, S> {
    ghost use Rattle.kept_failures.specs.Failures.{FailuresValue};

    ghost Value = { FailuresValue R };

    ghost view = { λ c. c.cache };
}

impl<R: Drop> FailureCache<R> {
    /// No failures yet, within these bounds, with the default hasher, whose seed is fixed: where strangers choose the
    /// keys, take `with_hasher`. Takes no memory.
    pub fn new(alloc: Global, bounds: CacheBounds) -> FailureCache<R>
        ensures { result ≡ no_entries bounds }
    {
        FailureCache::with_hasher(alloc, bounds, BuildHasherDefault::new())
    }
}

impl<R: Drop, S: BuildHasher> FailureCache<R, S> {
    /// As `new`, with this hasher: one of random state where strangers choose the keys. Takes no memory.
    pub fn with_hasher(alloc: Global, bounds: CacheBounds, hasher: S) -> FailureCache<R, S>
        ensures { result ≡ no_entries bounds }
    {
        FailureCache {
            cache: SecondChanceCache::with_hasher(alloc, bounds, hasher),
        }
    }

    // For how many seconds a failure of this second is told.
    fn seconds_for(&self, key: &[u8], now: u64) -> u64
        ensures { result ≡ seconds_after (told key.now now self.now.entries) }
    {
        match self.cache.peek(key, now) {
            Some(last) => last.seconds_behind(),
            None => FIRST_SECONDS,
        }
    }

    /// Something failed at this second. The only error is to be out of memory. A refused call changes nothing. What is
    /// not kept for its weight takes no memory.
    pub fn note(&mut self, key: &[u8], reason: R, now: u64) -> Result<(), AllocError>
        ensures ok { OnOk result (self.new ≡ noted key.now reason now self.old) }
        ensures err { OnErr result (self.new ≡ self.old) }
        ensures not_kept { is_kept self.old.bounds (weight_of key.now) ≡ false → IsOk result }
    {
        let failure = KeptFailure::from(reason, self.seconds_for(key, now), now);
        let until = failure.remembered_until();
        self.cache.store(key, failure, weight_of(key), until, now)
    }

    /// Something was answered, or is to be tried anew: the failure under its key is forgotten. Takes no memory.
    pub fn forget(&mut self, key: &[u8])
        ensures { self.new ≡ record self.old { entries = without key.now self.old.entries } }
    {
        self.cache.remove(key);
    }

    /// Forgets the failures whose keys pass a test, such as those of a zone. It asks of each key, and so takes time for
    /// each failure. Takes no memory.
    pub fn remove_where<F: Fn(&[u8]) -> bool>(&mut self, is_gone: F)
        requires { F.IsAlwaysCallable is_gone }
        ensures { (test : List ℕ → Bool)
            → ((key : List ℕ) (gone : Bool) → FnReturnsAt F.Fn is_gone key gone → gone ≡ test key)
            → self.new ≡ record self.old { entries = filter (λ e. not (test e.key)) self.old.entries } }
    {
        self.cache.remove_where(is_gone);
    }

    /// Forgets all failures. The bounds stay. Takes no memory.
    pub fn clear(&mut self)
        ensures { self.new ≡ no_entries self.old.bounds }
    {
        self.cache.clear();
    }

    /// How many failures there are, told or only remembered or neither.
    pub fn len(&self) -> usize
        ensures len { result ≡ length self.now.entries }
        ensures cache { IsCache self.now }
    {
        self.cache.len()
    }
}

impl<R: Copy + Drop, S: BuildHasher> FailureCache<R, S> {
    /// Why something failed, where that is told at this second. Takes no memory.
    pub fn failure(&self, key: &[u8], now: u64) -> Option<R>
        ensures { result ≡ failure_at key.now now self.now }
    {
        match self.cache.peek(key, now) {
            Some(failure) => failure.reason_at(now),
            None => None,
        }
    }
}

// How many octets of memory a failure takes.
fn weight_of(key: &[u8]) -> u64
    ensures { result ≡ weight_of key.now }
{
    FAILURE.saturating_add(key.len() as u64)
}
