//! A bounded cache of outcomes by question.
ghost use Rattle.std.specs.Prelude.{◌≡◌, ◌≤◌, ◌<◌, ◌*◌, true, false, nat_lt, None, [], length, find, option_copied, IsTrue, IsOk, IsSome, IfSome, IsNone, OnOk, OnErr, IfOk, IsOkUnless, if◌then◌else◌};
ghost use Rattle.std.specs.Option.{option_map, option_map_or};
ghost use Rattle.hickory_proto_weights.specs.Weights.{saturated, weight_of};
ghost use Rattle.hickory_resolver_model.specs.Cache.{AreWithin, CacheValue, IsCache, IsGot, IsGotUntil, IsNewest, NeverLater, OutlivesNoAnswer, all_weight, current, entry_weight, insert_within, is_for, is_light, without_query, entry_of, not_after, not_after_current, store, store_clamped, store_until};
ghost use Rattle.hickory_resolver_cache.specs.Outcome.{kept_entry};
ghost use Rattle.hickory_resolver_cache.specs.Times.{times_of};
ghost use Rattle.hickory_resolver_cache.specs.Turns.{shown, shown_entry};

use crate::entry::{CacheEntry, entry_of};
use crate::kept::Kept;
use crate::octets::{Octets, lowered, most, none_held};
use crate::renumber::next_number;
use crate::turns::{Index, Order, take_out, turn_of};
use crate::weighed::store_within;
use hickory_proto_core::{Message, NetError, Query};
use hickory_proto_weights::weight_of;
use hickory_resolver_lookup::TtlConfig;
use indexmap::IndexMap;
use std::alloc::Global;
use std::collections::BTreeMap;
use std::hash::{BuildHasher, BuildHasherDefault, FoldHasher};
use std::marker::Model;

/// Outcomes by question, the oldest first: at most as many as its capacity, and one for each question. An
/// outcome is given back while it is current, with its times to live counted down (RFC 2181, sections 5.4.1
/// and 8; RFC 2308, section 5). A capacity of 0 keeps nothing. What its entries weigh, in octets, may be bounded
/// too. Moments are whole seconds.
#[derive(Drop)]
pub struct ResponseCache<S: BuildHasher = BuildHasherDefault<FoldHasher>> {
    index: Index<S>,
    order: Order,
    next_number: u64,
    capacity: u64,
    octets: Option<Octets>,
    ttl_config: TtlConfig,
}

impl<S: BuildHasher> Model for ResponseCache<S> {
    ghost use Rattle.hickory_resolver_model.specs.Cache.{CacheValue};

    ghost Value = { CacheValue };

    ghost use Rattle.hickory_resolver_cache.specs.Octets.{most_of, AreWeighed};
    ghost use Rattle.hickory_resolver_cache.specs.Turns.{entries_of, IsSound};

    ghost view = { λ c. record {
      capacity = c.capacity;
      octets = most_of c.octets;
      config = c.ttl_config;
      entries = entries_of c.index.entries c.next_number;
    } };

    ghost invariant = { λ c. IsSound c.ttl_config c.capacity c.next_number c.index.entries c.order
        × AreWeighed c.octets c.next_number c.index.entries };
}

impl ResponseCache {
    /// An empty cache of so many entries at the most, with these bounds, and the default hasher. Its octets are not
    /// bounded. Takes no memory.
    pub fn new(alloc: Global, capacity: u64, ttl_config: TtlConfig) -> ResponseCache
        ensures { result ≡ record { capacity = capacity; octets = None; config = ttl_config; entries = [] } }
    {
        ResponseCache::with_hasher(alloc, capacity, ttl_config, BuildHasherDefault::new())
    }
}

impl<S: BuildHasher> ResponseCache<S> {
    /// As `new`, with this hasher: one of random state where the questions come from strangers. Takes no
    /// memory.
    pub fn with_hasher(
        alloc: Global,
        capacity: u64,
        ttl_config: TtlConfig,
        hasher: S,
    ) -> ResponseCache<S>
        ensures { result ≡ record { capacity = capacity; octets = None; config = ttl_config; entries = [] } }
    {
        ResponseCache::with_limits(alloc, capacity, None, ttl_config, hasher)
    }

    /// As `with_hasher`, and where `octets` is given, its entries weigh no more octets than that together: each what
    /// `hickory_proto_weights::weight_of` says, which counts the memory that it takes. Where a new entry has no room,
    /// those of the earliest deadlines leave, the oldest of several first, as few as leave room for it. An entry that
    /// weighs more than a 256th of the bound is not kept. Takes no memory.
    pub fn with_limits(
        alloc: Global,
        capacity: u64,
        octets: Option<u64>,
        ttl_config: TtlConfig,
        hasher: S,
    ) -> ResponseCache<S>
        ensures { result ≡ record { capacity = capacity; octets = octets; config = ttl_config; entries = [] } }
    {
        ResponseCache::numbered_from(alloc, capacity, octets, ttl_config, hasher, 0)
    }

    /// Keeps an outcome for a question from a moment on: an answer, its TTLs clamped, or a negative answer
    /// (RFC 2308, section 5). Other errors are not kept, which takes no memory. The question's entry leaves,
    /// or where it has none and the cache is full, the entry of the earliest deadline, the oldest of several.
    /// The new entry is the newest. Where the octets are bounded, the question's entry leaves, and after it as many of
    /// the earliest deadlines as have to, so that there is room for the new one; an entry that weighs more than a
    /// 256th of the bound is not kept, and its question has none then. A refused call changes nothing.
    pub fn insert(
        &mut self,
        query: Query,
        outcome: Result<Message, NetError>,
        now: u64,
    ) -> Result<(), NetError>
        ensures ok { OnOk result (self.new ≡ store self.old query outcome now) }
        ensures unchanged { OnErr result (self.new ≡ self.old) }
        ensures err { IsOkUnless result NetError.OutOfMemory }
        ensures not_kept { IsNone (entry_of self.old.config query outcome now)
            → IsOk result × (self.new ≡ self.old) }
        ensures no_capacity { self.old.capacity ≡ 0 → IsOk result }
        ensures newest { OnOk result
            (0 < self.old.capacity
            → IfSome (entry_of self.old.config query outcome now)
            (λ e. is_light self.old.octets e ≡ true → IsNewest e self.new.entries)) }
    {
        self.insert_until(query, outcome, now, u64::MAX)
    }

    /// As `insert`, and the new entry is current up to a limit (a moment, in seconds) at the most. A TTL is the
    /// greatest time for which a record may be kept, and the least of several counts for what is told together
    /// (RFC 2181, sections 5.2 and 8): so what was found by way of other records, as of a CNAME, is kept no
    /// longer than they live. TTLs stay as they are. A limit before the moment of the store makes an entry that
    /// is never current from then on. The only error is to be out of memory.
    pub fn insert_until(
        &mut self,
        query: Query,
        outcome: Result<Message, NetError>,
        now: u64,
        limit: u64,
    ) -> Result<(), NetError>
        ensures ok { OnOk result (self.new ≡ store_until self.old query outcome now limit) }
        ensures unchanged { OnErr result (self.new ≡ self.old) }
        ensures err { IsOkUnless result NetError.OutOfMemory }
        ensures not_kept { IsNone (entry_of self.old.config query outcome now)
            → IsOk result × (self.new ≡ self.old) }
        ensures no_capacity { self.old.capacity ≡ 0 → IsOk result }
        ensures newest { OnOk result
            (0 < self.old.capacity
            → IfSome (entry_of self.old.config query outcome now)
            (λ e. is_light self.old.octets e ≡ true → IsNewest (not_after limit e) self.new.entries)) }
        ensures within { OnOk result
            (IsSome (entry_of self.old.config query outcome now)
            → IfSome (find (is_for query) self.new.entries) (λ e. e.valid_until ≤ limit)) }
    {
        let weight = self.weigh(&query, &outcome);
        match self.entry_of(query, outcome, now)? {
            Some(entry) => self.insert_entry(entry.not_after(limit), weight),
            None => Ok(()),
        }
    }

    /// As `insert`. Where `clamp_valid_until` is set, the new entry is current no longer than the question's
    /// entry that is current at this moment, if it has one.
    pub fn upsert_clamped_ttl(
        &mut self,
        query: Query,
        outcome: Result<Message, NetError>,
        now: u64,
        clamp_valid_until: bool,
    ) -> Result<(), NetError>
        ensures ok { OnOk result
            (self.new
            ≡ (if clamp_valid_until
            then store_clamped self.old query outcome now
            else store self.old query outcome now)) }
        ensures unchanged { OnErr result (self.new ≡ self.old) }
        ensures err { IsOkUnless result NetError.OutOfMemory }
        ensures not_kept { IsNone (entry_of self.old.config query outcome now)
            → IsOk result × (self.new ≡ self.old) }
        ensures no_capacity { self.old.capacity ≡ 0 → IsOk result }
        ensures no_later { OnOk result
            (IsTrue clamp_valid_until → NeverLater query now self.old.entries self.new.entries) }
    {
        let weight = self.weigh(&query, &outcome);
        let Some(entry) = self.entry_of(query, outcome, now)? else {
            return Ok(());
        };
        if clamp_valid_until {
            let entry = self.not_after_current(entry, now);
            return self.insert_entry(entry, weight);
        }
        self.insert_entry(entry, weight)
    }

    /// The outcome of the question's current entry, a copy whose times to live are lower by the seconds since
    /// it was stored, or out of memory for that copy. None without a current entry, which takes no memory. An
    /// entry is current up to its deadline, the deadline included.
    pub fn get(&self, query: &Query, now: u64) -> Option<Result<Message, NetError>>
        ensures { IsGot (current query.now now self.now.entries) now result }
    {
        let (outcome, _) = self.get_with_deadline(query, now)?;
        Some(outcome)
    }

    /// As `get`, and beside what it gives, also where that is out of memory, the deadline of the entry: the last
    /// moment (seconds) at which it is current.
    pub fn get_with_deadline(
        &self,
        query: &Query,
        now: u64,
    ) -> Option<(Result<Message, NetError>, u64)>
        ensures { IsGotUntil (current query.now now self.now.entries) now result }
    {
        let entry = self.current(query, now)?;
        let outcome = entry.aged_result(self.allocator(), now);
        Some((outcome, entry.valid_until))
    }

    /// When the question's current entry was stored, and its deadline: the last moment at which it is current
    /// (seconds). None without a current entry. Takes no memory.
    pub fn current_times(&self, query: &Query, now: u64) -> Option<(u64, u64)>
        ensures { result ≡ option_map times_of (current query.now now self.now.entries) }
    {
        let entry = self.current(query, now)?;
        Some((entry.original_time, entry.valid_until))
    }

    /// Drops every entry. The bounds stay. Takes no memory.
    pub fn clear(&mut self)
        ensures { self.new ≡ record self.old { entries = [] } }
    {
        self.index.clear();
        self.order.clear();
        self.next_number = 0;
        self.octets = none_held(most(self.octets));
    }

    /// Drops the question's entry. Takes no memory.
    pub fn clear_query(&mut self, query: &Query)
        ensures { self.new ≡ without_query self.old query.now }
    {
        let turn = turn_of(&self.index, query);
        let gone = take_out(&mut self.index, &mut self.order, turn);
        self.octets = lowered(self.octets, gone);
    }

    /// How many entries there are, current or not.
    pub fn len(&self) -> usize
        ensures len { result ≡ length self.now.entries }
        ensures within { result ≤ self.now.capacity }
        ensures cache { IsCache self.now.config self.now.capacity self.now.entries }
    {
        self.index.len()
    }

    /// How many octets its entries weigh, current or not, where these are bounded, and no more than the bound. None
    /// where they are not bounded, since they are not weighed then.
    pub fn octets(&self) -> Option<u64>
        ensures held { result ≡ option_map (λ _. all_weight self.now.entries) self.now.octets }
        ensures within { AreWithin self.now.octets self.now.entries }
    {
        match self.octets {
            Some(octets) => Some(octets.held),
            None => None,
        }
    }

    /// The bounds that it keeps to.
    pub fn ttl_config(&self) -> &TtlConfig
        ensures { result.now ≡ self.now.config }
    {
        &self.ttl_config
    }

    /// The allocator that its collections take their memory from.
    pub fn allocator(&self) -> Global
        ensures cache { IsCache self.now.config self.now.capacity self.now.entries }
    {
        *self.index.allocator()
    }

    // An empty cache whose first store gets this number.
    fn numbered_from(
        alloc: Global,
        capacity: u64,
        octets: Option<u64>,
        ttl_config: TtlConfig,
        hasher: S,
        next_number: u64,
    ) -> ResponseCache<S>
        ensures { result ≡ record { capacity = capacity; octets = octets; config = ttl_config; entries = [] } }
    {
        ResponseCache {
            index: IndexMap::with_hasher(alloc, hasher),
            order: BTreeMap::new(alloc),
            next_number,
            capacity,
            octets: none_held(octets),
            ttl_config,
        }
    }

    // The entry that an outcome becomes at a moment, where it is kept. A cache without room keeps none.
    fn entry_of(
        &self,
        query: Query,
        outcome: Result<Message, NetError>,
        now: u64,
    ) -> Result<Option<CacheEntry>, NetError>
        ensures entry { IfOk result (λ entry. entry ≡ kept_entry self.now query outcome now) }
        ensures err { IsOkUnless result NetError.OutOfMemory }
        ensures not_kept { IsNone (kept_entry self.now query outcome now) → IsOk result }
        ensures cache { IsCache self.now.config self.now.capacity self.now.entries }
    {
        if self.capacity == 0 {
            return Ok(None);
        }
        let entry = entry_of(self.allocator(), &self.ttl_config, query, outcome, now)?;
        Ok(entry)
    }

    // What an outcome weighs that is kept for a question, where the octets are bounded; else it is not weighed.
    fn weigh(&self, query: &Query, outcome: &Result<Message, NetError>) -> u64
        ensures { IsSome self.now.octets → result ≡ saturated (weight_of query.now outcome.now) }
    {
        match self.octets {
            Some(_) => weight_of(query, outcome),
            None => 0,
        }
    }

    // Puts an entry of this weight in as the newest. A heavy one only takes out its question's. A refused call changes
    // nothing.
    fn insert_entry(&mut self, entry: CacheEntry, weight: u64) -> Result<(), NetError>
        requires some { 0 < self.old.capacity }
        requires timely { OutlivesNoAnswer self.old.config entry }
        requires weight { IsSome self.old.octets → weight ≡ entry_weight entry }
        ensures ok { OnOk result (self.new ≡ record self.old {
          entries = insert_within self.old.octets self.old.capacity self.old.entries entry;
        }) }
        ensures unchanged { OnErr result (self.new ≡ self.old) }
        ensures err { IsOkUnless result NetError.OutOfMemory }
    {
        if self.is_heavy(weight) {
            self.clear_query(&entry.query);
            return Ok(());
        }
        self.insert_light(entry, weight)
    }

    // Whether an entry of this weight is heavy.
    fn is_heavy(&self, weight: u64) -> bool
        ensures { result ≡ option_map_or (λ most. nat_lt most (256 * weight)) self.now.octets false }
    {
        match self.octets {
            Some(octets) => octets.is_heavy(weight),
            None => false,
        }
    }

    // Puts an entry that is not heavy in as the newest. A refused call changes nothing.
    fn insert_light(&mut self, entry: CacheEntry, weight: u64) -> Result<(), NetError>
        requires some { 0 < self.old.capacity }
        requires timely { OutlivesNoAnswer self.old.config entry }
        requires weight { IsSome self.old.octets → weight ≡ entry_weight entry }
        requires light { is_light self.old.octets entry ≡ true }
        ensures ok { OnOk result (self.new ≡ record self.old {
          entries = insert_within self.old.octets self.old.capacity self.old.entries entry;
        }) }
        ensures unchanged { OnErr result (self.new ≡ self.old) }
        ensures err { IsOkUnless result NetError.OutOfMemory }
    {
        match next_number(&mut self.index, &mut self.order, self.next_number) {
            Ok(number) => self.next_number = number,
            Err(error) => {
                drop(entry);
                return Err(NetError::from(error));
            }
        }
        store_within(
            &mut self.index,
            &mut self.order,
            self.capacity,
            &mut self.octets,
            self.next_number,
            entry,
            weight,
        )?;
        self.next_number += 1;
        Ok(())
    }

    // The entry, current no longer than the question's current one.
    fn not_after_current(&self, mut entry: CacheEntry, now: u64) -> CacheEntry
        ensures { result ≡ not_after_current self.now.entries now entry }
    {
        let valid_until = match self.current(&entry.query, now) {
            Some(current) => entry.valid_until.min(current.valid_until),
            None => entry.valid_until,
        };
        entry.valid_until = valid_until;
        entry
    }

    // What is kept for the question, where it is current.
    fn current(&self, query: &Query, now: u64) -> Option<&Kept>
        ensures { option_map shown (option_copied result)
            ≡ option_map shown_entry (current query.now now self.now.entries) }
    {
        let kept = self.index.get(query)?;
        if now <= kept.valid_until {
            Some(kept)
        } else {
            None
        }
    }
}
