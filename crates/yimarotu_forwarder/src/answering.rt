//! What becomes of a query.
ghost use Rattle.std.specs.Prelude.{◌≡◌, true, false, IfOk, MatchOption, OnErr, option_copied, slice_get, unwrap_or};
ghost use Rattle.std.specs.Option.{is_some};
ghost use Rattle.second_chance_cache.specs.SecondChance.{asked};
ghost use Rattle.hickory_proto_wire.specs.Messages.{bit, message_of};
ghost use Rattle.client_requests.specs.Keys.{key_of};
ghost use Rattle.yimarotu_forwarder.specs.Forwarders.{at_moment, second_of};
ghost use Rattle.yimarotu_forwarder.specs.Local.{IsDecided};
ghost use Rattle.yimarotu_forwarder.specs.LookingUp.{LooksUp};
ghost use Rattle.yimarotu_forwarder.specs.Queries.{AnswersAny, AnswersAs, AnswersAsked, AnswersBy, AnswersQuery, AnswersRequest, Decides, FailsAgain, Misses, Serves, TellsLocalAlone, TellsOrLooksUp, TurnsAway, first_query, hit, hit_in, query_in, told_in, with_hit};
ghost use Rattle.yimarotu_forwarder.specs.Replying.{Refuses};
ghost use Rattle.yimarotu_forwarder.specs.Stale.{stale_hit};
ghost use Rattle.client_queries.specs.declared.query.Refusal.TheVariants as refusal;

use crate::answered::{Answered, Outcome};
use crate::cached::{CachedReply, if_told};
use crate::forwarder::{Cache, Forwarder};
use crate::local::decide;
use crate::stale::put_stale;
use client_queries::{Refusal, Verdict};
use client_requests::{Client, ReplyKey, ReplyRoom, Request};
use failure_replies::FailureReason;
use hickory_proto_core::{Message, Query};
use hickory_proto_wire::{WireError, WireMessage};
use local_answers::{Decision, any_reply};
use std::alloc::{AllocError, Global};

impl Forwarder {
    /// Octets of a query came from a client, at a moment. Where it is replied to at once, `reply` has the octets; where
    /// it waits, an action says when it is. A refused call changes nothing but that the moment passed.
    pub fn query(&mut self, client: Client, octets: &[u8], now: u64) -> Result<Answered, AllocError>
        ensures ok { IfOk result (λ answered. AnswersQuery client octets.now now self.old answered self.new) }
        ensures err { OnErr result (self.new ≡ at_moment now self.old) }
    {
        self.tick(now);
        match Request::read(client, octets) {
            Some(request) => self.answer_counted(&request),
            None => Ok(Answered::Dropped),
        }
    }

    // What becomes of a request is counted.
    fn answer_counted(&mut self, request: &Request<'_>) -> Result<Answered, AllocError>
        ensures ok { IfOk result (λ answered. AnswersRequest self.old answered self.new request.now) }
        ensures err { OnErr result (self.new ≡ self.old) }
    {
        let outcome = self.answer(request)?;
        self.counted.count(outcome);
        Ok(outcome.answered())
    }

    fn answer(&mut self, request: &Request<'_>) -> Result<Outcome, AllocError>
        ensures ok { IfOk result (λ answered. AnswersBy request.now.query.verdict request.now self.old answered
            self.new) }
        ensures err { OnErr result (self.new ≡ self.old) }
    {
        match request.query().verdict {
            Verdict::Refused(why) => Ok(self.refuse(request, why)),
            Verdict::Statistics => self.tell_counts(request),
            Verdict::Any => self.serve(request, true),
            Verdict::Asked => self.serve(request, false),
        }
    }

    // Without RD nobody is asked; then who may not ask is turned away.
    fn serve(&mut self, request: &Request<'_>, any: bool) -> Result<Outcome, AllocError>
        ensures ok { IfOk result (λ answered. Serves (AnswersAs any request.now) request.now self.old answered
            self.new) }
        ensures err { OnErr result (self.new ≡ self.old) }
    {
        if !wants_recursion(request) {
            self.tell_local_alone(request)
        } else if !self.options.may_ask(request.client().address) {
            Ok(self.turn_away_stranger(request))
        } else {
            self.answer_as(request, any)
        }
    }

    fn turn_away_stranger(&mut self, request: &Request<'_>) -> Outcome
        ensures { TurnsAway self.old.options.drops_strangers request.now self.old result self.new }
    {
        if self.options.drops_strangers {
            Outcome::Dropped
        } else {
            self.refuse(request, Refusal::Refused)
        }
    }

    // A request for all types of a name, or for one.
    fn answer_as(&mut self, request: &Request<'_>, any: bool) -> Result<Outcome, AllocError>
        ensures ok { IfOk result (λ answered. AnswersAs any request.now self.old answered self.new) }
        ensures err { OnErr result (self.new ≡ self.old) }
    {
        if any {
            self.answer_any(request)
        } else {
            self.answer_asked(request)
        }
    }

    fn answer_any(&mut self, request: &Request<'_>) -> Result<Outcome, AllocError>
        ensures ok { IfOk result (λ answered. AnswersAny request.now self.old answered self.new) }
        ensures err { OnErr result (self.new ≡ self.old) }
    {
        match question_of(self.alloc, request)? {
            Some(query) => {
                let kept = any_reply(self.alloc, &query)?;
                self.tell_local(request, &query, kept)
            }
            None => Ok(self.refuse(request, Refusal::FormErr)),
        }
    }

    // ---- local data

    pub(crate) fn decide(&self, query: &Query) -> Result<Decision, AllocError>
        ensures { IfOk result (λ decision. IsDecided self.now.local query.now (second_of self.now) decision) }
    {
        decide(self.alloc, &self.local, query, self.second())
    }

    // Nobody is asked: what is not known here is refused.
    fn tell_local_alone(&mut self, request: &Request<'_>) -> Result<Outcome, AllocError>
        ensures ok { IfOk result (λ answered. TellsLocalAlone request.now self.old answered self.new) }
        ensures err { OnErr result (self.new ≡ self.old) }
    {
        match question_of(self.alloc, request)? {
            Some(query) => self.tell_or_refuse(request, &query),
            None => Ok(self.refuse(request, Refusal::FormErr)),
        }
    }

    fn tell_or_refuse(
        &mut self,
        request: &Request<'_>,
        query: &Query,
    ) -> Result<Outcome, AllocError>
        ensures ok { IfOk result (λ answered. Decides (λ group before. Refuses before request.now refusal.Refused)
            request.now query.now self.old answered self.new) }
        ensures err { OnErr result (self.new ≡ self.old) }
    {
        match self.decide(query)? {
            Decision::Answer(kept) => self.tell_local(request, query, kept),
            Decision::Ask(_) => Ok(self.refuse(request, Refusal::Refused)),
        }
    }

    // What is known here is told, and else looked up.
    fn tell_or_look_up(&mut self, request: &Request<'_>) -> Result<Outcome, AllocError>
        ensures ok { IfOk result (λ answered. TellsOrLooksUp request.now self.old answered self.new) }
        ensures err { OnErr result (self.new ≡ self.old) }
    {
        match question_of(self.alloc, request)? {
            Some(query) => self.tell_or_ask(request, query),
            None => Ok(self.refuse(request, Refusal::FormErr)),
        }
    }

    fn tell_or_ask(&mut self, request: &Request<'_>, query: Query) -> Result<Outcome, AllocError>
        ensures ok { IfOk result (λ answered. Decides (LooksUp request.now query) request.now query self.old answered
            self.new) }
        ensures err { OnErr result (self.new ≡ self.old) }
    {
        match self.decide(&query)? {
            Decision::Answer(kept) => self.tell_local(request, &query, kept),
            Decision::Ask(group) => self.look_up(request, query, group),
        }
    }

    // ---- what is kept

    fn answer_asked(&mut self, request: &Request<'_>) -> Result<Outcome, AllocError>
        ensures ok { IfOk result (λ answered. AnswersAsked request.now self.old answered self.new) }
        ensures err { OnErr result (self.new ≡ self.old) }
    {
        let key = ReplyKey::of(request);
        if self.tell_kept(request, &key) {
            Ok(Outcome::FromCache)
        } else {
            self.miss(request, &key)
        }
    }

    // A reply that is kept is told. Tells whether there is one.
    fn tell_kept(&mut self, request: &Request<'_>, key: &ReplyKey) -> bool
        requires { key.now ≡ key_of request.now }
        ensures { MatchOption (hit request.now self.old) ((result ≡ false) × (self.new ≡ self.old))
            (λ octets. (result ≡ true)
            × (self.new ≡ record (with_hit (key_of request.now) self.old) { reply = octets })) }
    {
        let (trust, second) = (self.options.trusts_authentic_data, self.second());
        if put_kept(&self.cache, &mut self.reply, request, key, trust, second) {
            self.note_prefetch(key);
            mark(&mut self.cache, key, second);
            true
        } else {
            false
        }
    }

    // A failure that is kept is told again, or what is kept past its end.
    fn miss(&mut self, request: &Request<'_>, key: &ReplyKey) -> Result<Outcome, AllocError>
        requires { key.now ≡ key_of request.now }
        ensures ok { IfOk result (λ answered. Misses request.now self.old answered self.new) }
        ensures err { OnErr result (self.new ≡ self.old) }
    {
        match self.failures.failure(key.as_slice(), self.second()) {
            Some(_) => Ok(self.fail_again(request, key)),
            None => self.tell_or_look_up(request),
        }
    }

    // What is kept past its end is told. Tells whether there is such a reply.
    pub(crate) fn tell_stale(&mut self, request: &Request<'_>, key: &ReplyKey) -> bool
        ensures { MatchOption (stale_hit request.now key.now self.old) ((result ≡ false) × (self.new ≡ self.old))
            (λ octets. (result ≡ true) × (self.new ≡ record self.old { reply = octets })) }
    {
        let second = self.second();
        put_stale(
            &mut self.reply,
            &self.cache,
            request,
            key,
            &self.options,
            second,
        )
    }

    fn fail_again(&mut self, request: &Request<'_>, key: &ReplyKey) -> Outcome
        requires { key.now ≡ key_of request.now }
        ensures { FailsAgain request.now self.old result self.new }
    {
        let second = self.second();
        if put_stale(
            &mut self.reply,
            &self.cache,
            request,
            key,
            &self.options,
            second,
        ) {
            Outcome::FromCache
        } else {
            self.fail(request, FailureReason::CachedError)
        }
    }
}

// The client asks for names of other servers to be looked up (RFC 1035, section 4.1.1).
fn wants_recursion(request: &Request<'_>) -> bool
    ensures { result ≡ bit 256 request.now.query.flags }
{
    request.query().flags / 256 % 2 == 1
}

// Writes what is kept under a key, as it has aged at this second. Tells whether there is such a reply.
fn put_kept(
    cache: &Cache,
    reply: &mut ReplyRoom,
    request: &Request<'_>,
    key: &ReplyKey,
    trust: bool,
    second: u64,
) -> bool
    ensures told { result ≡ is_some (hit_in cache.now request.now key.now trust second) }
    ensures reply { reply.new ≡ unwrap_or (hit_in cache.now request.now key.now trust second) reply.old }
{
    match told_in(cache, key, second) {
        Some(cached) => reply.put_stored(request, &cached.reply, trust, second),
        None => false,
    }
}

// What is kept under a key, up to its end.
fn told_in<'a>(cache: &'a Cache, key: &ReplyKey, second: u64) -> Option<&'a CachedReply>
    ensures { option_copied result ≡ told_in cache.now key.now second }
{
    match cache.peek(key.as_slice(), second) {
        Some(cached) => if_told(cached, second),
        None => None,
    }
}

// What is kept under a key was asked for again.
pub(crate) fn mark(cache: &mut Cache, key: &ReplyKey, second: u64)
    ensures { cache.new ≡ record cache.old { entries = asked key.now second cache.old.entries } }
{
    let _ = cache.get(key.as_slice(), second);
}

// ---- the question

// The question of a request, read. None where its octets are no message.
pub(crate) fn question_of(alloc: Global, request: &Request<'_>) -> Result<Option<Query>, AllocError>
    ensures { IfOk result (λ query. query ≡ query_in request.now) }
{
    query_of(alloc, request.octets())
}

// The question of a message, read. None where the octets are no message.
pub(crate) fn query_of(alloc: Global, octets: &[u8]) -> Result<Option<Query>, AllocError>
    ensures { IfOk result (λ query. query ≡ first_query (message_of octets.now)) }
{
    match WireMessage::from_wire(alloc, octets) {
        Ok(message) => Ok(first_query(message)),
        Err(WireError::OutOfMemory) => Err(AllocError),
        Err(WireError::Fault(_)) => Ok(None),
    }
}

fn first_query(message: WireMessage) -> Option<Query>
    ensures { result ≡ slice_get message.message.queries 0 }
{
    let WireMessage { message, .. } = message;
    let Message { queries, .. } = message;
    queries.into_iter().next()
}
