//! A bounded cache that gives a second chance.
ghost use Rattle.std.specs.Prelude.{◌≡◌, ◌==◌, false, length, option_copied, slice_get, IsOk, OnOk, OnErr};
ghost use Rattle.std.specs.Borrow.{sem};
ghost use Rattle.std.specs.Fn.{FnReturnsAt};
ghost use Rattle.second_chance_cache.specs.SecondChance.{IsCache, IsLeft, all_weight, asked, behind, is_kept, no_entries, stored, told, without};
ghost use Rattle.second_chance_cache.specs.Lending.{ends_as};

use crate::bounds::CacheBounds;
use crate::clock::Clock;
use crate::kept::Kept;
use std::alloc::{AllocError, Global};
use std::hash::{BuildHasher, BuildHasherDefault, FoldHasher};
use std::marker::Model;

/// Values by key (octets), within bounds: at most so many entries, which weigh at most so many octets together. A value
/// is told up to its deadline, the deadline included. Moments are whole seconds.
///
/// Entries stand in a circle, and a hand goes round. Where a new one has no room, the hand looks at one after another:
/// what was asked for since it was there last, and is current, it passes by; all else it drops, until there is room. So
/// names that are asked for once, however many, do not drop what is asked for again before the hand comes round.
///
/// Each call but `clear` and `remove_where` takes constant time in the long run, whatever is in it: a store that drops
/// many entries, or a removal after which empty slots are let go, is paid for by the stores that filled them.
#[derive(Drop)]
pub struct SecondChanceCache<V, S: BuildHasher = BuildHasherDefault<FoldHasher>> {
    alloc: Global,
    bounds: CacheBounds,
    clock: Clock<V, S>,
}

impl<V, S: BuildHasher> Model for SecondChanceCache<V, S> {
    ghost use Rattle.second_chance_cache.specs.SecondChance.{CacheValue};

    ghost Value = { CacheValue V };

    ghost use Rattle.second_chance_cache.specs.Clock.{IsKept, entries_of};

    ghost view = { λ c. record { bounds = c.bounds; entries = entries_of c.clock } };

    ghost invariant = { λ c. IsKept c.bounds c.clock };
}

impl<V: Drop> SecondChanceCache<V> {
    /// An empty cache within these bounds, with the default hasher, whose seed is fixed: where strangers choose the
    /// keys, take `with_hasher`. Takes no memory.
    pub fn new(alloc: Global, bounds: CacheBounds) -> SecondChanceCache<V>
        ensures { result ≡ no_entries bounds }
    {
        SecondChanceCache::with_hasher(alloc, bounds, BuildHasherDefault::new())
    }
}

impl<V: Drop, S: BuildHasher> SecondChanceCache<V, S> {
    /// As `new`, with this hasher: one of random state where strangers choose the keys. Takes no memory.
    pub fn with_hasher(alloc: Global, bounds: CacheBounds, hasher: S) -> SecondChanceCache<V, S>
        ensures { result ≡ no_entries bounds }
    {
        SecondChanceCache {
            alloc,
            bounds,
            clock: Clock::new(alloc, hasher),
        }
    }

    /// Stores a value under a key: it weighs so many octets, and is current up to its deadline (a second). The key's
    /// entry leaves. One that is heavier than a 256th of the octets is not kept, and takes no memory; nor is any where
    /// there may be no entries. Else the hand makes room for it, and it comes in at the end, unmarked. The only error
    /// is to be out of memory. A refused call changes nothing.
    pub fn store(
        &mut self,
        key: &[u8],
        value: V,
        weight: u64,
        deadline: u64,
        now: u64,
    ) -> Result<(), AllocError>
        ensures ok { OnOk result (self.new ≡ stored key.now value weight deadline now self.old) }
        ensures err { OnErr result (self.new ≡ self.old) }
        ensures not_kept { is_kept self.old.bounds weight ≡ false → IsOk result }
    {
        if !self.bounds.is_kept(weight) {
            self.clock.take_out(key);
            return Ok(());
        }
        match Kept::new(self.alloc, key, value, weight, deadline) {
            Ok(kept) => self.clock.store(self.alloc, &self.bounds, kept, now),
            Err(error) => Err(error),
        }
    }

    /// The value of a key, where its entry is current at a second: that is then one that was asked for again. Takes no
    /// memory.
    pub fn get(&mut self, key: &[u8], now: u64) -> Option<&V>
        ensures* marks { sem 𝓛 (ends_as V.row S.row S.Hasher.row S.BuildHasher S.Hasher.Hasher self.entry
            (asked key.now now self.old.entries)) }
        ensures told { option_copied result ≡ told key.now now self.old.entries }
    {
        let place = self.clock.mark(key, now);
        self.clock.told_at(place, now)
    }

    /// As `get`, and its entry is not marked.
    pub fn peek(&self, key: &[u8], now: u64) -> Option<&V>
        ensures { option_copied result ≡ told key.now now self.now.entries }
    {
        self.clock.told(key, now)
    }

    /// The first of its entries, current or not, in the order in which the hand comes to them. With `behind` it goes
    /// through them all, where nothing is changed between. Takes no memory.
    pub fn first(&self) -> Option<&Kept<V>>
        ensures { option_copied result ≡ slice_get self.now.entries 0 }
    {
        self.clock.first_entry()
    }

    /// The entry behind that of a key; none behind the last, and none where there is no entry of the key. Takes no
    /// memory.
    pub fn behind(&self, key: &[u8]) -> Option<&Kept<V>>
        ensures { option_copied result ≡ slice_get (behind key.now self.now.entries) 0 }
    {
        self.clock.entry_behind(key)
    }

    /// Drops the entry of a key. Takes no memory.
    pub fn remove(&mut self, key: &[u8])
        ensures { self.new ≡ record self.old { entries = without key.now self.old.entries } }
    {
        self.clock.take_out(key);
    }

    /// Drops the entries whose keys pass a test, such as those of a zone. It asks of each key, and so takes time for
    /// each entry. Takes no memory.
    pub fn remove_where<F: Fn(&[u8]) -> bool>(&mut self, is_gone: F)
        requires { F.IsAlwaysCallable is_gone }
        ensures left { IsLeft (FnReturnsAt F.Fn is_gone) self.old.entries self.new.entries }
        ensures bounds { self.new.bounds ≡ self.old.bounds }
    {
        self.clock.remove_where(&is_gone);
    }

    /// Drops every entry. The bounds stay. Takes no memory.
    pub fn clear(&mut self)
        ensures { self.new ≡ no_entries self.old.bounds }
    {
        self.clock.clear();
    }

    /// How many entries there are, current or not.
    pub fn len(&self) -> usize
        ensures len { result ≡ length self.now.entries }
        ensures cache { IsCache self.now }
    {
        self.clock.count
    }

    /// Whether there is no entry.
    pub fn is_empty(&self) -> bool
        ensures { result ≡ (length self.now.entries == 0) }
    {
        self.clock.count == 0
    }

    /// How many octets its entries weigh, current or not.
    pub fn octets(&self) -> u64
        ensures octets { result ≡ all_weight self.now.entries }
        ensures cache { IsCache self.now }
    {
        self.clock.octets
    }

    /// Its bounds.
    pub fn bounds(&self) -> CacheBounds
        ensures { result ≡ self.now.bounds }
    {
        self.bounds
    }
}
