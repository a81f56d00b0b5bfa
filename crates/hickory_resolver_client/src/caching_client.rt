//! A client that asks an upstream through a cache.
ghost use Rattle.std.specs.Prelude.{◌≡◌, ◌≤◌, length, []};
ghost use Rattle.hickory_resolver_model.specs.Cache.{IsCache, without_query};
ghost use Rattle.hickory_resolver_model.specs.Client.{ClientValue, context_of, KeepsHandle, empty_cache};
ghost use Rattle.hickory_resolver_model.specs.Resuming.{Starts, Resumes};
ghost use Rattle.hickory_resolver_theorems.specs.CallFacts.{KeepsWhatIsKnown};
ghost use Rattle.hickory_resolver_theorems.specs.Promises.{IsPromisedLookup};
ghost use Rattle.hickory_resolver_client.specs.Contexts.{Advances, progress_of};

use crate::client_state::ClientState;
use crate::verdict::Hop;
use crate::waiting::{Progress, Waiting};
use hickory_proto_core::{DnsHandle, DnsRequest, DnsRequestOptions, NetError, Outcome, Query};
use hickory_resolver_cache::ResponseCache;
use hickory_resolver_lookup::{Lookup, TtlConfig};
use std::alloc::Global;
use std::hash::{BuildHasher, BuildHasherDefault, FoldHasher};
use std::marker::Model;

/// A client over a handle. What the handle answers is kept in a cache, and is not asked again while it is
/// current.
#[derive(Drop)]
pub struct CachingClient<H: DnsHandle, S: BuildHasher = BuildHasherDefault<FoldHasher>> {
    state: ClientState<S>,
    handle: H,
}

impl<H: DnsHandle, S: BuildHasher> Model for CachingClient<H, S> {
    ghost use Rattle.hickory_resolver_model.specs.Client.{ClientValue};

    ghost Value = { ClientValue H };

    ghost view = { λ c. record {
      cache = c.state.cache;
      handle = c.handle;
      preserve_intermediates = c.state.preserve_intermediates;
    } };
}

impl<H: DnsHandle> CachingClient<H> {
    /// The client over this handle with an empty cache of at most `max_size` entries and the default bounds.
    pub fn new(
        alloc: Global,
        max_size: u64,
        handle: H,
        preserve_intermediates: bool,
    ) -> CachingClient<H>
        ensures { result
            ≡ record {
              cache = empty_cache max_size;
              handle = handle;
              preserve_intermediates = preserve_intermediates;
            } }
    {
        let cache = ResponseCache::new(alloc, max_size, TtlConfig::default(alloc));
        CachingClient::with_cache(cache, handle, preserve_intermediates)
    }
}

impl<H: DnsHandle, S: BuildHasher> CachingClient<H, S> {
    /// The client over this handle and this cache.
    pub fn with_cache(
        cache: ResponseCache<S>,
        handle: H,
        preserve_intermediates: bool,
    ) -> CachingClient<H, S>
        ensures { result ≡ record {
          cache = cache;
          handle = handle;
          preserve_intermediates = preserve_intermediates;
        } }
    {
        CachingClient {
            state: ClientState::with_cache(cache, preserve_intermediates),
            handle,
        }
    }

    /// The handle.
    pub fn handle(&self) -> &H
        ensures { result.now ≡ self.now.handle }
    {
        &self.handle
    }

    /// The cache.
    pub fn cache(&self) -> &ResponseCache<S>
        ensures { result.now ≡ self.now.cache }
    {
        self.state.cache()
    }

    /// Answers a question at a moment (seconds), hop by hop: each hop is a special name, a current entry of
    /// the cache as it was before the call, or a question that is sent to the handle with these options. The
    /// alias of a question leads to the next hop, and eight questions are sent at most; an alias too many
    /// comes to no records. What the last question got is kept where it is an answer or a negative answer,
    /// and then the result under each question before it, from the last to the first (RFC 1034, section
    /// 3.6.2; RFC 2308, section 5). Where memory runs out, a beginning of this was done.
    pub fn lookup(
        &mut self,
        query: Query,
        options: DnsRequestOptions,
        now: u64,
    ) -> Result<Lookup, NetError>
        ensures { IsPromisedLookup H.step options now self.old query result self.new }
    {
        let mut progress = self.start(query, now);
        loop {
            match progress {
                Progress::Waiting(waiting) => progress = self.advance(waiting, options),
                Progress::Done(result) => return result,
            }
        }
    }

    /// Starts a look-up, and leaves it to the caller to send its questions: see `ClientState::start`.
    pub fn start(&mut self, query: Query, now: u64) -> Progress<Waiting>
        ensures starts { Starts (context_of self.old now) query (progress_of result) self.new.cache }
        ensures stays { KeepsHandle self.old self.new }
        ensures cache { IsCache self.old.cache.config self.old.cache.capacity self.old.cache.entries }
    {
        self.state.start(query, now)
    }

    /// Goes on with a look-up by what came back to its question: see `ClientState::resume`.
    pub fn resume(&mut self, waiting: Waiting, outcome: Outcome) -> Progress<Waiting>
        ensures resumes { Resumes (context_of self.old waiting.now) waiting outcome
            (progress_of result) self.new.cache }
        ensures stays { KeepsHandle self.old self.new }
    {
        self.state.resume(waiting, outcome)
    }

    /// Sends the question of a look-up to the handle, with these options, and goes on with what comes back.
    pub fn advance(&mut self, waiting: Waiting, options: DnsRequestOptions) -> Progress<Waiting>
        ensures advances { Advances H.step options waiting self.old (progress_of result) self.new }
        ensures few { length waiting.passed ≤ 7 }
    {
        let (waiting, outcome) = self.ask(waiting, options);
        self.resume(waiting, outcome)
    }

    /// Sends the question of a look-up to the handle, with these options, and gives what came back beside the
    /// look-up.
    pub fn ask(&mut self, waiting: Waiting, options: DnsRequestOptions) -> (Waiting, Outcome)
        ensures same { result.0 ≡ waiting }
        ensures few { length waiting.passed ≤ 7 }
        ensures sent { H.step self.old.handle (record { query = waiting.hop.query; options = options }) result.1
            self.new.handle }
        ensures stays { self.new ≡ record self.old { handle = self.new.handle } }
    {
        let Waiting {
            moment,
            passed,
            hop,
        } = waiting;
        let Hop { query, preserved } = hop;
        let asked = DnsRequest { query, options };
        let outcome = self.handle.send(&asked);
        let hop = Hop {
            query: asked.query,
            preserved,
        };
        let waiting = Waiting {
            moment,
            passed,
            hop,
        };
        (waiting, outcome)
    }

    /// Empties the cache. Takes no memory.
    pub fn clear_cache(&mut self)
        ensures cleared { self.new ≡ record self.old { cache = record self.old.cache { entries = [] } } }
        ensures keeps { KeepsWhatIsKnown self.old.cache self.new.cache }
    {
        self.state.clear_cache();
    }

    /// Drops what the cache has for a question. Takes no memory.
    pub fn clear_cache_query(&mut self, query: &Query)
        ensures cleared { self.new ≡ record self.old { cache = without_query self.old.cache query.now } }
        ensures keeps { KeepsWhatIsKnown self.old.cache self.new.cache }
    {
        self.state.clear_cache_query(query);
    }
}
