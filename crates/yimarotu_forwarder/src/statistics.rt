//! The counts, as a client on this machine is told them.
ghost use Rattle.std.specs.Prelude.{◌≡◌, ◌++◌, ◌∷◌, [], IfOk, OnErr, OnOk};
ghost use Rattle.hickory_proto_core.specs.Name.{label_bytes};
ghost use Rattle.yimarotu_forwarder.specs.Queries.{TellsCounts, TellsThem, WithQuery};
ghost use Rattle.yimarotu_forwarder.specs.Statistics.{count_text, count_texts, counts_reply, is_loopback, texts_reply};
ghost use Rattle.local_answers.specs.Replies.{answer};

use crate::answered::Outcome;
use crate::answering::question_of;
use crate::counting::ForwarderCounts;
use crate::forwarder::Forwarder;
use client_queries::Refusal;
use client_requests::Request;
use hickory_proto_core::{Name, Query, RData, Record, ResponseCode};
use itoa::Buffer;
use std::alloc::{AllocError, Global};
use std::net::IpAddr;
use whole_replies::KeptReply;

impl Forwarder {
    // A client on this machine is told the counts, and any other is refused.
    pub(crate) fn tell_counts(&mut self, request: &Request<'_>) -> Result<Outcome, AllocError>
        ensures ok { IfOk result (λ answered. TellsCounts (is_loopback request.now.client.address) request.now self.old
            answered self.new) }
        ensures err { OnErr result (self.new ≡ self.old) }
    {
        if !is_loopback(request.client().address) {
            return Ok(self.refuse(request, Refusal::Refused));
        }
        self.tell_counts_here(request)
    }

    fn tell_counts_here(&mut self, request: &Request<'_>) -> Result<Outcome, AllocError>
        ensures ok { IfOk result (λ answered. WithQuery (TellsThem request.now) request.now self.old answered self.new) }
        ensures err { OnErr result (self.new ≡ self.old) }
    {
        match question_of(self.alloc, request)? {
            Some(query) => self.tell_them(request, &query),
            None => Ok(self.refuse(request, Refusal::FormErr)),
        }
    }

    fn tell_them(&mut self, request: &Request<'_>, query: &Query) -> Result<Outcome, AllocError>
        ensures ok { IfOk result (λ answered. TellsThem request.now query.now self.old answered self.new) }
        ensures err { OnErr result (self.new ≡ self.old) }
    {
        let kept = counts_reply(self.alloc, query, &self.counted)?;
        self.tell_local(request, query, kept)
    }
}

// 127.0.0.0/8 and ::1.
fn is_loopback(address: IpAddr) -> bool
    ensures { result ≡ is_loopback address }
{
    match address {
        IpAddr::V4(address) => address.to_bits() / 0x100_0000 == 127,
        IpAddr::V6(address) => address.to_bits() == 1,
    }
}

fn counts_reply(
    alloc: Global,
    query: &Query,
    counts: &ForwarderCounts,
) -> Result<KeptReply, AllocError>
    ensures { IfOk result (λ made. made ≡ counts_reply query.now counts.now) }
{
    let mut texts = Vec::new(alloc);
    push_counts(alloc, &mut texts, counts)?;
    texts_reply(alloc, query, texts)
}

// The reply that is one TXT record with these strings, in the class that is asked.
fn texts_reply(alloc: Global, query: &Query, texts: Vec<Vec<u8>>) -> Result<KeptReply, AllocError>
    ensures { IfOk result (λ made. made ≡ texts_reply query.now (label_bytes texts.items)) }
{
    let name = copy_of(&query.name)?;
    one_record(
        alloc,
        Record {
            name,
            dns_class: query.query_class,
            ttl: 0,
            rdata: RData::TXT(texts),
        },
    )
}

fn one_record(alloc: Global, found: Record) -> Result<KeptReply, AllocError>
    ensures { IfOk result (λ made. made ≡ answer (found ∷ [])) }
{
    let seconds = found.ttl;
    match vec![in alloc; found] {
        Ok(answers) => Ok(KeptReply {
            code: ResponseCode::NoError,
            authentic_data: false,
            answers,
            authorities: Vec::new(alloc),
            seconds,
        }),
        Err(_) => Err(AllocError),
    }
}

fn copy_of(name: &Name) -> Result<Name, AllocError>
    ensures { IfOk result (λ copy. copy ≡ name.now) }
{
    Clone::clone(name)
}

// A string for each count.
fn push_counts(
    alloc: Global,
    texts: &mut Vec<Vec<u8>>,
    counts: &ForwarderCounts,
) -> Result<(), AllocError>
    ensures { OnOk result (label_bytes texts.new.items ≡ label_bytes texts.old.items ++ count_texts counts.now) }
{
    push_count(alloc, texts, b"queries=", counts.queries)?;
    push_count(alloc, texts, b"from_cache=", counts.from_cache)?;
    push_count(alloc, texts, b"local=", counts.local)?;
    push_count(alloc, texts, b"failures_told=", counts.failures_told)?;
    push_count(alloc, texts, b"refused=", counts.refused)?;
    push_count(alloc, texts, b"dropped=", counts.dropped)?;
    push_count(alloc, texts, b"waited=", counts.waited)?;
    push_count(alloc, texts, b"prefetched=", counts.prefetched)
}

fn push_count(
    alloc: Global,
    texts: &mut Vec<Vec<u8>>,
    name: &[u8],
    count: u64,
) -> Result<(), AllocError>
    ensures { OnOk result (label_bytes texts.new.items
        ≡ label_bytes texts.old.items ++ count_text name.now count ∷ []) }
{
    let text = count_text(alloc, name, count)?;
    match texts.push(text) {
        Ok(()) => Ok(()),
        Err(_) => Err(AllocError),
    }
}

// A name, and a number in decimal digits.
fn count_text(alloc: Global, name: &[u8], count: u64) -> Result<Vec<u8>, AllocError>
    ensures { IfOk result (λ text. text.items ≡ count_text name.now count) }
{
    let mut buffer = Buffer::new();
    let mut text = Vec::from_slice(alloc, name)?;
    text.extend_from_slice(buffer.format(count).as_bytes())?;
    Ok(text)
}
