//! A session with a network: a resolver and its look-ups, whose questions go to a pool of name servers by themselves.
ghost use Rattle.std.specs.Prelude.{◌≡◌, Err, IfErr, IfOk, IsOkUnless, None, Ok, OnErr, OnOk, Some};
ghost use Rattle.hickory_resolver.specs.Explaining.{Explains};
ghost use Rattle.hickory_resolver_model.specs.Resolver.{settings};
ghost use Rattle.hickory_resolver_model.specs.Run as run;
ghost use Rattle.hickory_resolver_pool.specs.Pool.{after_failure, after_octets, after_servers, after_tick};
ghost use Rattle.hickory_resolver_pool.specs.Servers.{first_fixed};
ghost use Rattle.hickory_resolver_traffic.specs.Tasks.{next_deadline};
ghost use Rattle.yimarotu_session.specs.NetworkSessions.{BeginsHost, BeginsName, Cancels, ClearsName, cleared, found_at, new_session, question_at, with_pool};

use crate::ahead::Ahead;
use crate::lookup_table::LookupTable;
use crate::network_lookup::{NetworkLookup, asker_of, lookup_of};
use crate::network_steps::forget_asker;
use crate::session_error::SessionError;
use crate::telling::Telling;
use hickory_proto_core::{NetError, Query, RecordType, ScriptHandle};
use hickory_resolver::{Attempted, Lookup, Request, Resolver, ResponseCache};
use hickory_resolver_pool::{
    Failure, NameServerPool, Opening, PoolLimits, PoolServer, Sent, ServersError,
};
use std::alloc::{AllocError, Global};
use std::hash::RandomState;
use std::marker::Model;

/// What a program has to do next.
#[derive(Drop)]
pub enum NetworkAction {
    /// It opens a channel.
    Open(Opening),
    /// It writes octets on a channel.
    Send(Sent),
    /// It closes a channel. Each that was opened is closed once, also one that failed.
    Close(u64),
    /// The look-up of this number is done.
    Done(u64),
    /// Nothing: something was done of which it has no part.
    Continue,
}

// The number of the group of servers that are asked.
pub(crate) const GROUP: u64 = 0;

// The pool that questions go to.
pub(crate) type Pool = NameServerPool<RandomState>;

// Names come from strangers, so that cache, hosts and the pool hash them by a secret.
pub(crate) type NetworkResolver = Resolver<ScriptHandle, RandomState>;

/// A resolver, look-ups under numbers of the caller's, and a pool of name servers that their questions go to. Events
/// take in what the caller wants and what came, and `next_action` does what follows of it, one step a call: after each
/// event, and before the next, it is called until it answers `None`. Moments are milliseconds of the pool's clock. A
/// call that runs out of memory changes nothing, and may be made again.
#[derive(Drop)]
pub struct NetworkSession {
    pub(crate) resolver: NetworkResolver,
    pub(crate) pool: Pool,
    pub(crate) table: LookupTable,
    pub(crate) telling: Option<Telling>,
}

impl Model for NetworkSession {
    ghost use Rattle.yimarotu_session.specs.LookupTables.{table_of};
    ghost use Rattle.yimarotu_session.specs.NetworkSessions.{NetworkValue};

    ghost Value = { NetworkValue };

    ghost view = { λ s. record {
      resolver = s.resolver;
      pool = s.pool;
      table = table_of s.table;
      telling = s.telling;
    } };
}

impl NetworkSession {
    /// A session over a resolver, whose own handle is never asked. The pool has the options of the resolver, these
    /// limits, and no servers yet. The seed is 32 octets that nobody knows; a child of `fork`, or a copied machine,
    /// begins anew with another one. The hasher is for names of questions, which come from strangers.
    pub fn new(
        alloc: Global,
        resolver: Resolver<ScriptHandle, RandomState>,
        limits: PoolLimits,
        seed: [u8; 32],
        hasher: RandomState,
    ) -> Result<NetworkSession, AllocError>
        ensures { IfOk result (λ session. session ≡ new_session resolver limits seed) }
    {
        match Clone::clone(resolver.options()) {
            Ok(options) => Ok(NetworkSession {
                resolver,
                pool: NameServerPool::new(alloc, options, limits, seed, hasher),
                table: LookupTable::new(alloc),
                telling: None,
            }),
            Err(error) => {
                drop(resolver);
                Err(error)
            }
        }
    }

    // ---- events

    /// Starts a look-up of records of a type for a name, at a moment, under a number that no other has. It waits to ask
    /// its question, or is done at once.
    pub fn start(
        &mut self,
        number: u64,
        name: &str,
        record_type: RecordType,
        now: u64,
    ) -> Result<(), SessionError>
        ensures { BeginsName number name.now record_type now self.old result self.new }
    {
        self.table.reserve_lookup(number)?;
        let progress = self.resolver.start_lookup(name, record_type, now / 1000);
        self.pool.tick(now);
        self.table.begin(number, lookup_of(progress), None);
        Ok(())
    }

    /// The same of the addresses of a host. Where both families are wanted, the question of the second is asked beside
    /// that of the first.
    pub fn start_ip(&mut self, number: u64, host: &str, now: u64) -> Result<(), SessionError>
        ensures { BeginsHost number host.now now self.old result self.new }
    {
        self.table.reserve_lookup(number)?;
        let progress = self.resolver.start_lookup_ip(host, now / 1000);
        self.pool.tick(now);
        self.table
            .begin(number, lookup_of(progress), Some(Ahead::Nothing));
        Ok(())
    }

    /// Forgets the look-up of a number, at a moment, and tells whether there was one. Where nobody else asks its
    /// question, that is not asked on, and the place that it had is taken at this moment.
    pub fn cancel(&mut self, number: u64, now: u64) -> Result<bool, AllocError>
        ensures ok { IfOk result (λ was_there. Cancels number now self.old was_there self.new) }
        ensures err { OnErr result (self.new ≡ self.old) }
    {
        self.table.reserve_forgetting()?;
        forget_asker(&mut self.pool, asker_of(self.table.lookups.get(&number)))?;
        self.pool.tick(now);
        Ok(self.table.forget(number))
    }

    /// The servers that are asked from now on, of which nothing is known yet. What is in flight goes on with those that
    /// it began with.
    pub fn set_servers(&mut self, servers: &[PoolServer]) -> Result<(), ServersError>
        ensures ok { OnOk result (self.new ≡ with_pool (after_servers 0 servers.now self.old.pool) self.old) }
        ensures err { OnErr result (self.new ≡ self.old) }
        ensures fixed { (place : _) → first_fixed servers.now ≡ Some place
            → result ≡ Err (ServersError.FixedPort place) }
        ensures free { first_fixed servers.now ≡ None → IsOkUnless result ServersError.OutOfMemory }
    {
        self.pool.set_servers(GROUP, servers)
    }

    /// Octets came on a channel: a datagram, or a piece of a stream, cut anywhere. On a channel that is not open they
    /// change nothing.
    pub fn came(&mut self, channel: u64, octets: &[u8], now: u64) -> Result<(), AllocError>
        ensures ok { OnOk result (self.new ≡ with_pool (after_octets channel octets.now now self.old.pool) self.old) }
        ensures err { OnErr result (self.new ≡ self.old) }
    {
        self.pool.came(channel, octets, now)
    }

    /// A channel failed. A datagram channel is kept open after that until an action closes it, unless it could not be
    /// opened at all.
    pub fn failed(&mut self, channel: u64, why: Failure, now: u64) -> Result<(), AllocError>
        ensures ok { OnOk result (self.new
            ≡ with_pool (after_failure (record { channel = channel; why = why }) now self.old.pool) self.old) }
        ensures err { OnErr result (self.new ≡ self.old) }
    {
        self.pool.failed(channel, why, now)
    }

    /// Time passed. A moment before one that was told counts as that one.
    pub fn tick(&mut self, now: u64)
        ensures { self.new ≡ with_pool (after_tick now self.old.pool) self.old }
    {
        self.pool.tick(now);
    }

    /// The earliest moment at which time ends something, where nothing is left to be done.
    pub fn next_deadline(&self) -> Option<u64>
        ensures { result ≡ next_deadline self.now.pool.traffic }
    {
        self.pool.next_deadline()
    }

    /// Drops from the cache what it has for the names that are attempted for this one, of this type, and what came for
    /// them ahead of a look-up. What is no name clears nothing. The look-ups stay, and what is in flight goes on.
    pub fn clear_name(&mut self, name: &str, record_type: RecordType) -> Result<(), SessionError>
        ensures { ClearsName name.now record_type self.old result self.new }
    {
        let Ok(attempted) = attempted_for(&self.resolver, name, record_type) else {
            return Err(SessionError::OutOfMemory);
        };
        match self.resolver.clear_lookup_cache(name, record_type) {
            Ok(()) => {
                self.table.let_go_of(&attempted);
                Ok(())
            }
            Err(_) => Err(SessionError::OutOfMemory),
        }
    }

    /// Empties the cache, and lets go of what came ahead of a look-up. The look-ups stay, and what is in flight goes on.
    pub fn clear(&mut self)
        ensures { self.new ≡ cleared self.old }
    {
        self.resolver.clear_cache();
        self.table.let_go();
    }

    // ---- what is known

    /// The cache.
    pub fn cache(&self) -> &ResponseCache<RandomState>
        ensures { result.now ≡ self.now.resolver.client.cache }
    {
        self.resolver.client().cache()
    }

    /// The question that the look-up of a number waits for.
    pub fn question(&self, number: u64) -> Result<&Query, SessionError>
        ensures ok { IfOk result (λ question. question_at number self.now ≡ Ok question.now) }
        ensures err { IfErr result (λ error. question_at number self.now ≡ Err error) }
    {
        match self.table.lookups.get(&number) {
            None => Err(SessionError::NoLookup),
            Some(NetworkLookup::Asks(call)) => Ok(call.question()),
            Some(NetworkLookup::Asked(call, _)) => Ok(call.question()),
            Some(NetworkLookup::Done { .. }) => Err(SessionError::IsDone),
        }
    }

    /// What the look-up of a number came to.
    pub fn found(&self, number: u64) -> Result<&Result<Lookup, NetError>, SessionError>
        ensures ok { IfOk result (λ found. found_at number self.now ≡ Ok found.now) }
        ensures err { IfErr result (λ error. found_at number self.now ≡ Err error) }
    {
        match self.table.lookups.get(&number) {
            None => Err(SessionError::NoLookup),
            Some(NetworkLookup::Done { found, .. }) => Ok(found),
            Some(_) => Err(SessionError::Waits),
        }
    }
}

// The questions that a look-up of records of a type attempts for a name. What is none attempts nothing.
fn attempted_for(
    resolver: &NetworkResolver,
    name: &str,
    record_type: RecordType,
) -> Result<Vec<Attempted>, AllocError>
    ensures { IfOk result (λ attempted. Explains (settings resolver.now) resolver.now.client.cache
        (run.Lookup name.now record_type 0) attempted.items) }
{
    let alloc = resolver.client().cache().allocator();
    let name = String::from_str(alloc, name)?;
    resolver.explain(&Request::Lookup {
        name,
        record_type,
        now: 0,
    })
}
