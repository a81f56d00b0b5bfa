//! What is kept is looked up anew before its end, while nobody waits for it.
ghost use Rattle.std.specs.Prelude.{◌≡◌, ◌++◌, drop, false, get_or, nat_lt, IfOk, None, OnErr, OnOk};
ghost use Rattle.std.specs.Option.{option_map_or};
ghost use Rattle.second_chance_cache.specs.SecondChance.{told};
ghost use Rattle.yimarotu_forwarder.specs.Fetches.{fetch_at};
ghost use Rattle.yimarotu_forwarder.specs.LookingUp.{pool_question};
ghost use Rattle.yimarotu_forwarder.specs.Prefetching.{BeginsLoneWith, DecidesLone, PrefetchesKey, PrefetchesUnasked, PrefetchesWhere, key_dnssec, key_query, key_unchecked, lone_fetch, may_prefetch, query_header};
ghost use Rattle.yimarotu_forwarder.specs.Queries.{prefetch_after};

use crate::answering::query_of;
use crate::choices::FEW_FETCHES;
use crate::counting::one_more;
use crate::fetch::Fetch;
use crate::forwarder::{Cache, Forwarder};
use crate::looking_up::{ask, copy_of};
use client_requests::ReplyKey;
use hickory_proto_core::Query;
use hickory_resolver_pool::Asked;
use local_answers::Decision;
use std::alloc::{AllocError, Global};
use std::collections::VecDeque;
use whole_lookups::WholeLookup;

// A query with one question (RFC 1035, section 4.1.1).
const QUERY_HEADER: [u8; 12] = [0, 0, 0, 0, 0, 1, 0, 0, 0, 0, 0, 0];

impl Forwarder {
    // What is told out of the cache shortly before its end is noted to be looked up anew, where that is wanted and no
    // other is noted.
    pub(crate) fn note_prefetch(&mut self, key: &ReplyKey)
        ensures { self.new ≡ record self.old { prefetch = prefetch_after key.now self.old } }
    {
        let second = self.second();
        if self.options.prefetches
            && self.prefetch.is_none()
            && is_ageing(&self.cache, key, second)
        {
            self.prefetch = Some(key.copied());
        }
    }

    // The question of a key is looked up, where it is not already, and where it may be. A refused call changes nothing.
    pub(crate) fn prefetch(&mut self, key: ReplyKey) -> Result<(), AllocError>
        ensures ok { OnOk result (PrefetchesKey key self.old self.new) }
        ensures err { OnErr result (self.new ≡ self.old) }
    {
        match self.fetches.get(&key) {
            Some(_) => Ok(()),
            None => self.prefetch_where(self.may_prefetch(&key), key),
        }
    }

    // Whether few are looked up, and it did not fail shortly before.
    fn may_prefetch(&self, key: &ReplyKey) -> bool
        ensures { result ≡ may_prefetch key.now self.now }
    {
        let failed = self.failures.failure(key.as_slice(), self.second());
        self.fetches.number() < FEW_FETCHES && failed.is_none()
    }

    fn prefetch_where(&mut self, may: bool, key: ReplyKey) -> Result<(), AllocError>
        ensures ok { OnOk result (PrefetchesWhere may key self.old self.new) }
        ensures err { OnErr result (self.new ≡ self.old) }
    {
        if may {
            self.prefetch_unasked(key)
        } else {
            Ok(())
        }
    }

    fn prefetch_unasked(&mut self, key: ReplyKey) -> Result<(), AllocError>
        ensures ok { OnOk result (PrefetchesUnasked key self.old self.new) }
        ensures err { OnErr result (self.new ≡ self.old) }
    {
        match key_query(self.alloc, &key)? {
            Some(query) => self.prefetch_query(key, query),
            None => Ok(()),
        }
    }

    fn prefetch_query(&mut self, key: ReplyKey, query: Query) -> Result<(), AllocError>
        ensures ok { OnOk result (DecidesLone key self.old self.new query) }
        ensures err { OnErr result (self.new ≡ self.old) }
    {
        match self.decide(&query)? {
            Decision::Answer(_) => Ok(()),
            Decision::Ask(group) => self.begin_lone(key, query, group),
        }
    }

    // A fetch begins for which nobody waits, where a group has a place and servers.
    fn begin_lone(&mut self, key: ReplyKey, query: Query, group: u64) -> Result<(), AllocError>
        ensures ok { OnOk result (BeginsLoneWith query key
            (pool_question query (key_dnssec key) (key_unchecked key) self.old) group self.old self.new) }
        ensures err { OnErr result (self.new ≡ self.old) }
    {
        let (dnssec_ok, unchecked) = (is_dnssec(&key), is_unchecked(&key));
        let dnssec = self.dnssec_of(dnssec_ok, unchecked);
        self.fetches.reserve()?;
        let copy = copy_of(&query)?;
        let fetch = lone_fetch(self.alloc, copy, &key, self.generation, self.clock)?;
        let asked = ask(&mut self.pool, group, query, dnssec, self.clock)?;
        match asked {
            Asked::Asker(asker) => {
                self.fetches.begin(key, fetch, asker.number);
                self.counted.prefetched = one_more(self.counted.prefetched);
                Ok(())
            }
            Asked::Overloaded | Asked::NoServers => {
                drop(fetch);
                Ok(())
            }
        }
    }
}

// Whether what is kept under a key is in the last tenth of the time for which it is.
fn is_ageing(cache: &Cache, key: &ReplyKey, second: u64) -> bool
    ensures { result ≡ option_map_or (λ cached. nat_lt cached.fresh_until second)
        (told key.now second cache.now.entries) false }
{
    match cache.peek(key.as_slice(), second) {
        Some(cached) => cached.fresh_until < second,
        None => false,
    }
}

// A fetch of the question of a key, for which nobody waits.
fn lone_fetch(
    alloc: Global,
    query: Query,
    key: &ReplyKey,
    generation: u64,
    began: u64,
) -> Result<Fetch, AllocError>
    ensures { IfOk result (λ fetch. fetch ≡ lone_fetch query key.now generation began) }
{
    let lookup = WholeLookup::new(query, is_dnssec(key))?;
    Ok(Fetch {
        lookup,
        checking_disabled: is_unchecked(key),
        heard: None,
        generation,
        began,
        waiting: VecDeque::new(alloc),
    })
}

// ---- what a key asks

// The question of a key.
fn key_query(alloc: Global, key: &ReplyKey) -> Result<Option<Query>, AllocError>
    ensures { IfOk result (λ query. query ≡ key_query key.now) }
{
    let octets = key_message(alloc, key.as_slice())?;
    query_of(alloc, &octets)
}

// A query that asks it.
fn key_message(alloc: Global, key: &[u8]) -> Result<Vec<u8>, AllocError>
    ensures { IfOk result (λ octets. octets.items ≡ query_header ++ drop 1 key.now) }
{
    let mut octets = Vec::from_slice(alloc, &QUERY_HEADER)?;
    octets.extend_from_slice(&key[key.len().min(1)..])?;
    Ok(octets)
}

// Whether DNSSEC records are asked for.
fn is_dnssec(key: &ReplyKey) -> bool
    ensures { result ≡ key_dnssec key.now }
{
    first_octet(key) % 2 == 1
}

// Whether servers are asked not to check.
fn is_unchecked(key: &ReplyKey) -> bool
    ensures { result ≡ key_unchecked key.now }
{
    first_octet(key) / 2 % 2 == 1
}

fn first_octet(key: &ReplyKey) -> u8
    ensures { result ≡ get_or key.now 0 0 }
{
    match key.as_slice().first() {
        Some(octet) => *octet,
        None => 0,
    }
}
