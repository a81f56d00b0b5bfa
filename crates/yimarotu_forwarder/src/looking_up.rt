//! Requests that wait for what servers say.
ghost use Rattle.std.specs.Prelude.{◌≡◌, true, false, if◌then◌else◌, IfOk, MatchOption, None, OnErr, OnOk};
ghost use Rattle.client_requests.specs.Keys.{key_of};
ghost use Rattle.hickory_proto_wire.specs.Messages.{bit};
ghost use Rattle.hickory_resolver_model.specs.Options.{request_options_of};
ghost use Rattle.hickory_resolver_pool.specs.Pool.{after_asking, asking_told, list_of, settings_for};
ghost use Rattle.client_limits.specs.Counts.{admits};
ghost use Rattle.hickory_resolver_tries.specs.Question as in_tries;
ghost use Rattle.stored_replies.specs.Told.{asks_dnssec};
ghost use Rattle.yimarotu_forwarder.specs.Stale.{stale_hit};
ghost use Rattle.yimarotu_forwarder.specs.LookingUp.{BeginsLookup, BeginsWith, IsPastBound, JoinsFetch, JoinsOr, JoinsOrTold, LooksUp, counts_after, dnssec_of, may_begin, new_fetch, pool_question};

use crate::answered::Outcome;
use crate::fetch::Fetch;
use crate::forwarder::{Forwarder, Pool};
use crate::late::{is_late, note_late, reserve_late};
use client_limits::ClientCounts;
use client_queries::{ClientQuery, Refusal};
use client_requests::{ReplyKey, Request, WaitingRequest};
use failure_replies::FailureReason;
use hickory_proto_core::{DnsRequestOptions, Query};
use hickory_resolver_config::ResolverOpts;
use hickory_resolver_pool::{Asked, DnssecOptions};
use std::alloc::{AllocError, Global};
use std::collections::VecDeque;
use std::net::IpAddr;
use whole_lookups::WholeLookup;

impl Forwarder {
    // A question is looked up once for all who ask it.
    pub(crate) fn look_up(
        &mut self,
        request: &Request<'_>,
        query: Query,
        group: u64,
    ) -> Result<Outcome, AllocError>
        ensures ok { IfOk result (λ answered. LooksUp request.now query group self.old answered self.new) }
        ensures err { OnErr result (self.new ≡ self.old) }
    {
        let key = ReplyKey::of(request);
        match self.fetches.get(&key) {
            None => self.begin(request, key, query, group),
            Some(fetch) if fetch.has_request(request) => Ok(Outcome::Dropped),
            Some(fetch) => {
                let (waiting, is_late) = (fetch.waiting_number(), is_late(fetch, self.clock));
                self.join_or_tell(request, &key, waiting, is_late)
            }
        }
    }

    // ---- one more waits for a fetch

    // Where it is late, what is kept past its end is told. Tells whether it was.
    fn tell_if_late(&mut self, request: &Request<'_>, key: &ReplyKey, is_late: bool) -> bool
        ensures { MatchOption (if is_late then stale_hit request.now key.now self.old else None)
            ((result ≡ false) × (self.new ≡ self.old))
            (λ octets. (result ≡ true) × (self.new ≡ record self.old { reply = octets })) }
    {
        is_late && self.tell_stale(request, key)
    }

    fn join_or_tell(
        &mut self,
        request: &Request<'_>,
        key: &ReplyKey,
        waiting: usize,
        is_late: bool,
    ) -> Result<Outcome, AllocError>
        requires { key.now ≡ key_of request.now }
        ensures ok { IfOk result (λ answered.
            JoinsOrTold (if is_late then stale_hit request.now key.now self.old else None) waiting request.now self.old
            answered self.new) }
        ensures err { OnErr result (self.new ≡ self.old) }
    {
        if self.tell_if_late(request, key, is_late) {
            Ok(Outcome::FromCache)
        } else {
            self.join(request, key, waiting)
        }
    }

    fn join(
        &mut self,
        request: &Request<'_>,
        key: &ReplyKey,
        waiting: usize,
    ) -> Result<Outcome, AllocError>
        requires { key.now ≡ key_of request.now }
        ensures ok { IfOk result (λ answered.
            JoinsOr (admits self.old.options.limits request.now.client.address waiting self.old.counts)
            request.now self.old answered self.new) }
        ensures err { OnErr result (self.new ≡ self.old) }
    {
        if !self.admits(request, waiting) {
            return Ok(self.turn_away(request));
        }
        match WaitingRequest::of(self.alloc, request)? {
            Some(waiting) => self.join_with(request, key, waiting),
            None => Ok(self.refuse(request, Refusal::FormErr)),
        }
    }

    fn join_with(
        &mut self,
        request: &Request<'_>,
        key: &ReplyKey,
        waiting: WaitingRequest,
    ) -> Result<Outcome, AllocError>
        requires { key.now ≡ key_of request.now }
        ensures ok { IfOk result (λ answered. JoinsFetch request.now self.old answered self.new waiting) }
        ensures err { OnErr result (self.new ≡ self.old) }
    {
        let address = request.client().address;
        self.counts.add(address)?;
        match self.fetches.join(key, waiting) {
            Ok(()) => Ok(Outcome::Waits),
            Err(error) => {
                self.counts.remove(address);
                Err(error)
            }
        }
    }

    // ---- a fetch begins

    fn begin(
        &mut self,
        request: &Request<'_>,
        key: ReplyKey,
        query: Query,
        group: u64,
    ) -> Result<Outcome, AllocError>
        requires { key ≡ key_of request.now }
        ensures ok { IfOk result (λ answered. BeginsLookup query request.now group self.old answered self.new) }
        ensures err { OnErr result (self.new ≡ self.old) }
    {
        if !self.may_begin(request) {
            return Ok(self.turn_away(request));
        }
        match WaitingRequest::of(self.alloc, request)? {
            Some(waiting) => self.begin_with(request, key, query, group, waiting),
            None => Ok(self.refuse(request, Refusal::FormErr)),
        }
    }

    fn begin_with(
        &mut self,
        request: &Request<'_>,
        key: ReplyKey,
        query: Query,
        group: u64,
        waiting: WaitingRequest,
    ) -> Result<Outcome, AllocError>
        requires { key ≡ key_of request.now }
        ensures ok { IfOk result (λ answered. BeginsWith query request.now
            (pool_question query (asks_dnssec request.now.query.edns) (bit 16 request.now.query.flags) self.old) group
            self.old answered self.new waiting) }
        ensures err { OnErr result (self.new ≡ self.old) }
    {
        let dnssec = self.dnssec_of(asks_dnssec(request.query()), is_unchecked(request.query()));
        let is_noted = self.is_noted_late(&key);
        self.fetches.reserve()?;
        reserve_late(&mut self.late)?;
        let copy = copy_of(&query)?;
        let fetch = new_fetch(
            self.alloc,
            copy,
            request,
            waiting,
            self.generation,
            self.clock,
        )?;
        let asked = ask_counted(
            &mut self.counts,
            &mut self.pool,
            request.client().address,
            group,
            query,
            dnssec,
            self.clock,
        )?;
        match asked {
            Asked::Asker(asker) => {
                note_late(&mut self.late, is_noted, &key, self.clock);
                self.fetches.begin(key, fetch, asker.number);
                Ok(Outcome::Waits)
            }
            Asked::Overloaded => {
                drop(fetch);
                Ok(self.turn_away(request))
            }
            Asked::NoServers => {
                drop(fetch);
                Ok(self.fail(request, FailureReason::NoReachableAuthority))
            }
        }
    }

    // ---- parts

    // What is asked of DNSSEC with a question, and AD where it is passed on.
    pub(crate) fn dnssec_of(&self, dnssec: bool, checking_disabled: bool) -> DnssecOptions
        ensures { result ≡ dnssec_of dnssec checking_disabled self.now }
    {
        DnssecOptions {
            dnssec_ok: dnssec,
            checking_disabled,
            authentic_data: self.options.trusts_authentic_data,
        }
    }

    // Whether one more may wait for a question for which so many do.
    fn admits(&self, request: &Request<'_>, waiting: usize) -> bool
        ensures { result ≡ admits self.now.options.limits request.now.client.address waiting self.now.counts }
    {
        self.counts
            .admits(&self.options.limits, request.client().address, waiting)
    }

    // Whether one more may wait, and not as many questions are looked up as clients may wait.
    fn may_begin(&self, request: &Request<'_>) -> bool
        ensures { result ≡ may_begin request.now self.now }
    {
        self.admits(request, 0) && self.fetches.number() < self.options.limits.all
    }

    // There is no place for one more.
    fn turn_away(&mut self, request: &Request<'_>) -> Outcome
        ensures { IsPastBound request.now self.old result self.new }
    {
        if request.client().is_stream {
            self.fail(request, FailureReason::NotReady)
        } else {
            Outcome::Dropped
        }
    }
}

// A fetch of a question that is not asked yet, for which one waits.
fn new_fetch(
    alloc: Global,
    query: Query,
    request: &Request<'_>,
    waiting: WaitingRequest,
    generation: u64,
    began: u64,
) -> Result<Fetch, AllocError>
    ensures { IfOk result (λ fetch. fetch ≡ new_fetch query request.now waiting generation began) }
{
    let dnssec = asks_dnssec(request.query());
    let lookup = WholeLookup::new(query, dnssec)?;
    let mut list = VecDeque::new(alloc);
    list.push_back(waiting)?;
    Ok(Fetch {
        lookup,
        checking_disabled: is_unchecked(request.query()),
        heard: None,
        generation,
        began,
        waiting: list,
    })
}

// What is asked of the pool counts one more who waits, where it is on its way. A refused call changes nothing.
fn ask_counted(
    counts: &mut ClientCounts,
    pool: &mut Pool,
    address: IpAddr,
    group: u64,
    query: Query,
    dnssec: DnssecOptions,
    now: u64,
) -> Result<Asked, AllocError>
    ensures told { IfOk result (λ told. told ≡ asking_told (list_of group pool.old.traffic)
        (in_tries.question_of query (request_options_of pool.old.options) dnssec) pool.old) }
    ensures pool { OnOk result (pool.new ≡ after_asking (list_of group pool.old.traffic)
        (in_tries.question_of query (request_options_of pool.old.options) dnssec)
        (settings_for pool.old.options (request_options_of pool.old.options)) now pool.old) }
    ensures counts { IfOk result (λ told. counts.new ≡ counts_after told address counts.old) }
    ensures err { OnErr result (pool.new ≡ pool.old) }
    ensures unchanged { OnErr result (counts.new ≡ counts.old) }
{
    counts.add(address)?;
    match ask(pool, group, query, dnssec, now) {
        Ok(Asked::Asker(asker)) => Ok(Asked::Asker(asker)),
        Ok(Asked::Overloaded) => {
            counts.remove(address);
            Ok(Asked::Overloaded)
        }
        Ok(Asked::NoServers) => {
            counts.remove(address);
            Ok(Asked::NoServers)
        }
        Err(error) => {
            counts.remove(address);
            Err(error)
        }
    }
}

// Asks a question of the pool, whose name is absolute: so memory alone is a reason to refuse it.
pub(crate) fn ask(
    pool: &mut Pool,
    group: u64,
    query: Query,
    dnssec: DnssecOptions,
    now: u64,
) -> Result<Asked, AllocError>
    ensures told { IfOk result (λ told. told ≡ asking_told (list_of group pool.old.traffic)
        (in_tries.question_of query (request_options_of pool.old.options) dnssec) pool.old) }
    ensures ok { OnOk result (pool.new ≡ after_asking (list_of group pool.old.traffic)
        (in_tries.question_of query (request_options_of pool.old.options) dnssec)
        (settings_for pool.old.options (request_options_of pool.old.options)) now pool.old) }
    ensures err { OnErr result (pool.new ≡ pool.old) }
{
    let options = request_options(pool.options());
    match pool.ask(group, query, options, dnssec, now) {
        Ok(asked) => Ok(asked),
        Err(_) => Err(AllocError),
    }
}

pub(crate) fn copy_of(query: &Query) -> Result<Query, AllocError>
    ensures { IfOk result (λ copy. copy ≡ query.now) }
{
    Clone::clone(query)
}

// Whether DNSSEC records are asked for (RFC 3225, section 3).
fn asks_dnssec(query: &ClientQuery) -> bool
    ensures { result ≡ asks_dnssec query.now.edns }
{
    match query.edns {
        Some(edns) => edns.dnssec_ok,
        None => false,
    }
}

// Whether servers are asked not to check (RFC 4035, section 3.2.2).
fn is_unchecked(query: &ClientQuery) -> bool
    ensures { result ≡ bit 16 query.now.flags }
{
    query.flags / 16 % 2 == 1
}

// How each question is sent.
fn request_options(options: &ResolverOpts) -> DnsRequestOptions
    ensures { result ≡ request_options_of options.now }
{
    DnsRequestOptions {
        recursion_desired: options.recursion_desired,
        use_edns: options.edns0,
        edns_payload_len: options.edns_payload_len,
        case_randomization: options.case_randomization,
    }
}
