//! Ends of chains: what is kept of the question that a reply led to is put behind it, and the reply to such a question
//! is kept by itself.
ghost use Rattle.std.specs.Prelude.{◌≡◌, ◌≤◌, ◌+◌, ◌++◌, nat_le, option_copied, IfOk, OnOk, Some};
ghost use Rattle.std.specs.Option.{option_and_then, option_map};
ghost use Rattle.hickory_proto_wire.specs.Writing.{u16_octets};
ghost use Rattle.stored_replies.specs.Stored.{read_at};
ghost use Rattle.yimarotu_forwarder.specs.Fetches.{asked_for, fetch_at};
ghost use Rattle.yimarotu_forwarder.specs.Forwarders.{TellingValue};
ghost use Rattle.yimarotu_forwarder.specs.NextQuestions.{are_denied_alike, asked_octets, found_end, is_fresh_and_light, kept_end, may_end, next_key, with_asked_where};
ghost use Rattle.yimarotu_forwarder.specs.Telling.{chain_end_for, chain_end_in, chain_end_of, chain_end_with};

use crate::answering::mark;
use crate::cached::{CachedReply, if_told};
use crate::choices::HEAVIEST_END;
use crate::ending::tell_as;
use crate::fetch::Fetch;
use crate::forwarder::Forwarder;
use crate::local::name_octets;
use crate::options::ForwarderOptions;
use crate::replying::end_of;
use client_requests::{FetchEnd, ReplyKey};
use hickory_proto_core::Query;
use hickory_proto_wire::WireMessage;
use std::alloc::{AllocError, Global};
use std::marker::Model;
use stored_replies::StoredReply;
use whole_lookups::choices::MOST_QUESTIONS;
use whole_replies::KeptReply;

// The end of a chain, which is to be kept under its own question: its key, the reply, and the generation under which the
// look-up began that it ended.
#[derive(Drop)]
pub struct ChainEnd {
    pub(crate) key: ReplyKey,
    pub(crate) reply: StoredReply,
    pub(crate) generation: u64,
}

impl Model for ChainEnd {
    ghost use Rattle.yimarotu_forwarder.specs.Forwarders.{ChainEndValue};

    ghost Value = { ChainEndValue };

    ghost view = { λ e. record { key = e.key; reply = e.reply; generation = e.generation } };
}

// ---- what is kept already

impl Forwarder {
    // What is kept of the question that the fetch of a key has to ask, as it has aged, where it may be put behind what
    // came; and how many replies of servers made it.
    pub(crate) fn kept_end(&self, key: &ReplyKey) -> Result<Option<(KeptReply, u32)>, AllocError>
        ensures { IfOk result (λ found. found
            ≡ option_and_then (λ f. kept_end f self.now) (fetch_at key.now self.now.fetches)) }
    {
        match self.fetches.get(key) {
            Some(fetch) => self.kept_end_of(fetch),
            None => Ok(None),
        }
    }

    // The key of the question that the fetch of a key has to ask.
    pub(crate) fn end_key(&self, key: &ReplyKey) -> Result<Option<ReplyKey>, AllocError>
        ensures { IfOk result (λ end. end ≡ option_and_then next_key (fetch_at key.now self.now.fetches)) }
    {
        match self.fetches.get(key) {
            Some(fetch) => next_key(self.alloc, fetch),
            None => Ok(None),
        }
    }

    // What is kept under a key, where there is one, was asked for again.
    pub(crate) fn mark_end(&mut self, key: Option<ReplyKey>)
        ensures { self.new ≡ with_asked_where key self.old }
    {
        let second = self.second();
        match key {
            Some(key) => mark(&mut self.cache, &key, second),
            None => {}
        }
    }

    fn kept_end_of(&self, fetch: &Fetch) -> Result<Option<(KeptReply, u32)>, AllocError>
        ensures { IfOk result (λ found. found ≡ kept_end fetch.now self.now) }
    {
        let question = asked_octets(self.alloc, &fetch.lookup.next)?;
        match self.end_for(fetch, &question) {
            Some(cached) => as_end(self.alloc, cached, self.second()),
            None => Ok(None),
        }
    }

    // What is kept of these octets, which are those of the question that a fetch has to ask.
    fn end_for(&self, fetch: &Fetch, question: &[u8]) -> Option<&CachedReply>
        requires { question.now ≡ asked_octets fetch.now.lookup.next }
        ensures { option_copied result ≡ found_end fetch.now self.now }
    {
        let key = key_of(fetch, question)?;
        let kept = self.cache.peek(key.as_slice(), self.second())?;
        let cached = if_told(kept, self.second())?;
        if self.may_end(fetch, question, cached) {
            Some(cached)
        } else {
            None
        }
    }

    fn may_end(&self, fetch: &Fetch, question: &[u8], cached: &CachedReply) -> bool
        requires { question.now ≡ asked_octets fetch.now.lookup.next }
        ensures { result ≡ may_end fetch.now self.now cached.now }
    {
        cached.reply.is_for(question)
            && is_of_few(fetch.lookup.count, cached.replies)
            && (are_denied_alike(&self.options, fetch) && self.is_fresh_and_light(cached))
    }

    // Whether it is not in the last tenth of its time, and takes little memory.
    fn is_fresh_and_light(&self, cached: &CachedReply) -> bool
        ensures { result ≡ is_fresh_and_light self.now cached.now }
    {
        self.second() <= cached.fresh_until && cached.reply.weight() <= HEAVIEST_END
    }
}

// As it has aged, where it can be read again, and how many replies of servers made it.
fn as_end(
    alloc: Global,
    cached: &CachedReply,
    second: u64,
) -> Result<Option<(KeptReply, u32)>, AllocError>
    ensures { IfOk result (λ end. end
        ≡ option_map (λ kept. (kept, cached.now.replies)) (read_at second cached.now.reply)) }
{
    match cached.reply.kept_at(alloc, second)? {
        Some(kept) => Ok(Some((kept, cached.replies))),
        None => Ok(None),
    }
}

// Whether so many replies, and those to so many questions, of which the last is not asked, are few.
fn is_of_few(questions: u32, replies: u32) -> bool
    ensures { result ≡ nat_le (questions + replies) (MOST_QUESTIONS + 1) }
{
    u64::from(questions) + u64::from(replies) <= u64::from(MOST_QUESTIONS) + 1
}

fn are_denied_alike(options: &ForwarderOptions, fetch: &Fetch) -> bool
    ensures { result ≡ are_denied_alike fetch.now options.now }
{
    let next = options.is_exempt(&fetch.lookup.next.name);
    if options.is_exempt(&fetch.lookup.asked.name) {
        next
    } else {
        !next
    }
}

// ---- the key

// The octets of a question, its name spelled out (RFC 1035, section 4.1.2).
fn asked_octets(alloc: Global, query: &Query) -> Result<Vec<u8>, AllocError>
    ensures { IfOk result (λ octets. octets.items ≡ asked_octets query.now) }
{
    let mut octets = name_octets(alloc, &query.name)?;
    push_u16(&mut octets, query.query_type.code())?;
    push_u16(&mut octets, query.query_class.code())?;
    Ok(octets)
}

fn push_u16(octets: &mut Vec<u8>, number: u16) -> Result<(), AllocError>
    ensures { OnOk result (octets.new.items ≡ octets.old.items ++ u16_octets number) }
{
    octets.push((number / 256) as u8)?;
    octets.push((number % 256) as u8)?;
    Ok(())
}

// The key of the question that a fetch has to ask, which has these octets.
fn key_of(fetch: &Fetch, question: &[u8]) -> Option<ReplyKey>
    requires { question.now ≡ asked_octets fetch.now.lookup.next }
    ensures { result ≡ next_key fetch.now }
{
    ReplyKey::for_question(question, fetch.lookup.dnssec, fetch.checking_disabled)
}

fn next_key(alloc: Global, fetch: &Fetch) -> Result<Option<ReplyKey>, AllocError>
    ensures { IfOk result (λ key. key ≡ next_key fetch.now) }
{
    let question = asked_octets(alloc, &fetch.lookup.next)?;
    Ok(key_of(fetch, &question))
}

// ---- what is to be kept

impl Forwarder {
    // What is to be kept by itself of the reply that is told, for the fetch for which an asker asks.
    pub(crate) fn end_of_chain(&self, asker: u64) -> Result<Option<ChainEnd>, AllocError>
        ensures { (t : TellingValue) → self.now.telling ≡ Some t
            → IfOk result (λ end. end ≡ chain_end_for t.over asker self.now) }
    {
        let Some(telling) = &self.telling else {
            return Ok(None);
        };
        match telling.response() {
            Some(message) => self.end_of_asker(asker, message),
            None => Ok(None),
        }
    }

    fn end_of_asker(
        &self,
        asker: u64,
        message: &WireMessage,
    ) -> Result<Option<ChainEnd>, AllocError>
        ensures { IfOk result (λ end. end ≡ option_and_then
            (λ key. option_and_then (λ f. chain_end_in f self.now message.now) (fetch_at key self.now.fetches))
            (asked_for asker self.now.fetches)) }
    {
        match self.fetches.asked_for(asker) {
            Some(key) => match self.fetches.get(&key) {
                Some(fetch) => self.end_in(fetch, message),
                None => Ok(None),
            },
            None => Ok(None),
        }
    }

    fn end_in(&self, fetch: &Fetch, message: &WireMessage) -> Result<Option<ChainEnd>, AllocError>
        ensures { IfOk result (λ end. end ≡ chain_end_in fetch.now self.now message.now) }
    {
        if fetch.lookup.count <= 1 {
            return Ok(None);
        }
        let lookup = &fetch.lookup;
        let (kept, next) = KeptReply::copy_of(self.alloc, &lookup.next, lookup.dnssec, message)?;
        match (kept, next) {
            (Some(kept), None) => self.end_of_kept(fetch, kept),
            _ => Ok(None),
        }
    }

    fn end_of_kept(&self, fetch: &Fetch, kept: KeptReply) -> Result<Option<ChainEnd>, AllocError>
        ensures { IfOk result (λ end. end ≡ chain_end_of fetch.now self.now kept) }
    {
        let mut kept = kept;
        let next = &fetch.lookup.next;
        tell_as(&self.options, &next.name, &mut kept);
        let key = next_key(self.alloc, fetch)?;
        let end = end_of(self.alloc, next, kept, self.second())?;
        Ok(chain_end_with(key, end, fetch.generation))
    }
}

fn chain_end_with(key: Option<ReplyKey>, end: FetchEnd, generation: u64) -> Option<ChainEnd>
    ensures { result ≡ chain_end_with key end generation }
{
    match (key, end) {
        (Some(key), FetchEnd::Reply(reply)) => Some(ChainEnd {
            key,
            reply,
            generation,
        }),
        _ => None,
    }
}
