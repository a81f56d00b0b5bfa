//! A caching forwarder.
ghost use Rattle.std.specs.Prelude.{◌≡◌, length, Err, IfOk, IsOkUnless, None, OnErr, OnOk, Some};
ghost use Rattle.hickory_resolver_pool.specs.Pool.{after_octets, after_servers};
ghost use Rattle.hickory_resolver_pool.specs.Servers.{first_fixed};
ghost use Rattle.second_chance_cache.specs.SecondChance.{all_weight};
ghost use Rattle.yimarotu_forwarder.specs.Late.{deadline_of};
ghost use Rattle.yimarotu_forwarder.specs.Forwarders.{at_moment, channel_failed, cleared, is_since, moment_passes, new_forwarder, second_of, with_local, with_pool};

use crate::cached::CachedReply;
use crate::chain_ends::ChainEnd;
use crate::counting::ForwarderCounts;
use crate::fetches::Fetches;
use crate::late::{earlier, first_moment};
use crate::local::Local;
use crate::options::ForwarderOptions;
use crate::replying::Replying;
use crate::telling::Telling;
use client_limits::ClientCounts;
use client_requests::{ReplyKey, ReplyRoom};
use failure_replies::FailureReason;
use hickory_resolver_pool::{Failure, NameServerPool, PoolServer, ServersError};
use kept_failures::FailureCache;
use local_answers::LocalData;
use second_chance_cache::{CacheBounds, SecondChanceCache};
use std::alloc::{AllocError, Global};
use std::collections::VecDeque;
use std::hash::RandomState;
use std::marker::Model;

// The pool that questions go to.
pub(crate) type Pool = NameServerPool<RandomState>;

// What is kept, under keys that strangers choose.
pub(crate) type Cache = SecondChanceCache<CachedReply, RandomState>;

pub(crate) type Failures = FailureCache<FailureReason, RandomState>;

/// A caching forwarder: queries of clients go in, and replies come out, out of local data, out of what is kept, or
/// after servers were asked. Events take in what came, and `next_action` does what follows of it, one step a call: after each
/// event, and before the next, it is called until it answers `None`. Moments are milliseconds of a clock that does not
/// go back.
#[derive(Drop)]
pub struct Forwarder {
    pub(crate) alloc: Global,
    pub(crate) options: ForwarderOptions,
    pub(crate) local: Local,
    pub(crate) pool: Pool,
    pub(crate) cache: Cache,
    pub(crate) failures: Failures,
    pub(crate) counts: ClientCounts,
    pub(crate) counted: ForwarderCounts,
    pub(crate) fetches: Fetches,
    pub(crate) telling: Option<Telling>,
    pub(crate) replying: Option<Replying>,
    pub(crate) chain_end: Option<ChainEnd>,
    pub(crate) prefetch: Option<ReplyKey>,
    pub(crate) late: VecDeque<(u64, ReplyKey)>,
    pub(crate) generation: u64,
    pub(crate) stalled: Option<u64>,
    pub(crate) clock: u64,
    pub(crate) reply: ReplyRoom,
}

impl Model for Forwarder {
    ghost use Rattle.yimarotu_forwarder.specs.FetchTables.{fetches_of};
    ghost use Rattle.yimarotu_forwarder.specs.Forwarders.{ForwarderValue};

    ghost Value = { ForwarderValue };

    ghost view = { λ f. record {
      options = f.options;
      local = record { hosts = f.local.hosts; rules = f.local.rules };
      pool = f.pool;
      cache = f.cache;
      failures = f.failures;
      counts = f.counts;
      counted = f.counted;
      fetches = fetches_of f.fetches;
      telling = f.telling;
      replying = f.replying;
      chain_end = f.chain_end;
      prefetch = f.prefetch;
      late = f.late.items;
      generation = f.generation;
      stalled = f.stalled;
      clock = f.clock;
      reply = f.reply;
    } };
}

impl Forwarder {
    /// A forwarder over a pool, of whose groups none has servers yet, with bounds of its cache and of the failures that
    /// it keeps. The hasher is for questions, which come from strangers.
    pub fn new(
        alloc: Global,
        options: ForwarderOptions,
        local: LocalData<RandomState>,
        pool: NameServerPool<RandomState>,
        cache: CacheBounds,
        failures: CacheBounds,
        hasher: RandomState,
    ) -> Result<Forwarder, AllocError>
        ensures { IfOk result (λ made. made ≡ new_forwarder options
            (record { hosts = local.hosts; rules = local.rules }) cache failures pool) }
    {
        match ReplyRoom::new(alloc) {
            Ok(reply) => Ok(Forwarder {
                alloc,
                options,
                local,
                pool,
                cache: SecondChanceCache::with_hasher(alloc, cache, hasher),
                failures: FailureCache::with_hasher(alloc, failures, hasher),
                counts: ClientCounts::new(alloc),
                counted: ForwarderCounts::new(),
                fetches: Fetches::new(alloc, hasher),
                telling: None,
                replying: None,
                chain_end: None,
                prefetch: None,
                late: VecDeque::new(alloc),
                generation: 0,
                stalled: None,
                clock: 0,
                reply,
            }),
            Err(error) => {
                drop(local);
                drop(pool);
                Err(error)
            }
        }
    }

    /// Other local data from now on. What was kept is let go, and so is what comes of look-ups that began before, once
    /// it is told.
    pub fn set_local(&mut self, local: LocalData<RandomState>)
        ensures { self.new ≡ with_local (record { hosts = local.hosts; rules = local.rules }) self.old }
    {
        self.clear();
        self.local = local;
        self.generation = self.generation.wrapping_add(1);
    }

    /// Other options from now on. What is kept stays, and who waits goes on to.
    pub fn set_options(&mut self, options: ForwarderOptions)
        ensures { self.new ≡ record self.old { options = options } }
    {
        self.options = options;
    }

    /// Lets go of the replies and the failures that are kept. Look-ups go on.
    pub fn clear(&mut self)
        ensures { self.new ≡ cleared self.old }
    {
        self.cache.clear();
        self.failures.clear();
    }

    // The second of the latest moment that was told.
    pub(crate) fn second(&self) -> u64
        ensures { result ≡ second_of self.now }
    {
        self.clock / 1000
    }

    /// Time passed. A moment before one that was told counts as that one.
    pub fn tick(&mut self, now: u64)
        ensures { self.new ≡ at_moment now self.old }
    {
        self.clock = self.clock.max(now);
        self.pool.tick(now);
    }

    /// The servers of a group from now on, of which nothing is known yet. What is in flight goes on with those that it
    /// began with.
    pub fn set_servers(&mut self, group: u64, servers: &[PoolServer]) -> Result<(), ServersError>
        ensures ok { OnOk result (self.new ≡ with_pool (after_servers group servers.now self.old.pool) self.old) }
        ensures err { OnErr result (self.new ≡ self.old) }
        ensures fixed { (place : _) → first_fixed servers.now ≡ Some place
            → result ≡ Err (ServersError.FixedPort place) }
        ensures free { first_fixed servers.now ≡ None → IsOkUnless result ServersError.OutOfMemory }
    {
        self.pool.set_servers(group, servers)
    }

    /// Octets came on a channel: a datagram, or a piece of a stream, cut anywhere. On a channel that is not open they
    /// change nothing. A refused call changes nothing.
    pub fn came(&mut self, channel: u64, octets: &[u8], now: u64) -> Result<(), AllocError>
        ensures ok { OnOk result (self.new ≡ moment_passes now
            (with_pool (after_octets channel octets.now now self.old.pool) self.old)) }
        ensures err { OnErr result (self.new ≡ self.old) }
    {
        self.pool.came(channel, octets, now)?;
        self.clock = self.clock.max(now);
        Ok(())
    }

    /// A channel failed. A datagram channel is kept open after that until an action closes it, unless it could not be
    /// opened at all. Where it could not for want of something of this machine, no failure of a look-up is kept that
    /// began before. A refused call changes nothing.
    pub fn failed(&mut self, channel: u64, why: Failure, now: u64) -> Result<(), AllocError>
        ensures ok { OnOk result
            (self.new ≡ channel_failed (record { channel = channel; why = why }) now self.old) }
        ensures err { OnErr result (self.new ≡ self.old) }
    {
        self.pool.failed(channel, why, now)?;
        self.clock = self.clock.max(now);
        match why {
            Failure::Local => self.stalled = Some(self.clock),
            _ => {}
        }
        Ok(())
    }

    // Whether a channel could not be opened here since a moment.
    pub(crate) fn is_stalled_since(&self, moment: u64) -> bool
        ensures { result ≡ is_since moment self.now.stalled }
    {
        match self.stalled {
            Some(stalled) => moment <= stalled,
            None => false,
        }
    }

    /// The earliest moment at which time ends something, or a look-up is late, where nothing is left to be done.
    pub fn next_deadline(&self) -> Option<u64>
        ensures { result ≡ deadline_of self.now }
    {
        earlier(self.pool.next_deadline(), first_moment(&self.late))
    }

    /// The octets of the reply that was written last.
    pub fn reply(&self) -> &[u8]
        ensures { result.now ≡ self.now.reply }
    {
        self.reply.as_slice()
    }

    // ---- numbers

    /// How many queries came, and what became of them.
    pub fn counts(&self) -> ForwarderCounts
        ensures { result ≡ self.now.counted }
    {
        self.counted
    }

    /// How many requests wait.
    pub fn waiting(&self) -> u64
        ensures { result ≡ self.now.counts.all }
    {
        self.counts.count() as u64
    }

    /// How many replies are kept, current or not.
    pub fn cache_len(&self) -> u64
        ensures { result ≡ length self.now.cache.entries }
    {
        self.cache.len() as u64
    }

    /// How many octets of memory the replies take that are kept.
    pub fn cache_octets(&self) -> u64
        ensures { result ≡ all_weight self.now.cache.entries }
    {
        self.cache.octets()
    }
}
