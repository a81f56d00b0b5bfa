//! What is kept of a reply.
ghost use Rattle.std.specs.Prelude.{◌≡◌, ◌≤◌, ◌++◌, filter, map, None, Some, IfOk, OnOk, OnErr, IsOkUnless, unwrap_or};
ghost use Rattle.std.specs.List.{list_any};
ghost use Rattle.std.specs.Option.{is_some, option_map};
ghost use Rattle.hickory_proto_core.specs.Records.{lower_ttl};
ghost use Rattle.hickory_proto_core.specs.ResponseKind.{is_asked};
ghost use Rattle.hickory_resolver_model.specs.AliasWalk.{walk_of};
ghost use Rattle.hickory_resolver_model.specs.Bounds.{least_ttl};
ghost use Rattle.hickory_resolver_tries.specs.Outcome.{at_name, has_code, has_soa, is_answered, leads_on};
ghost use Rattle.whole_replies.specs.Ways.{is_kept, is_kept_of};
ghost use Rattle.whole_replies.specs.Received.{received};
ghost use Rattle.whole_replies.specs.Kept.{KeptValue, is_negative, kept_answers, is_start_of_zone, is_kept_authority, authorities_kept, within_minimum, kept_authorities, negative_limit, lesser, seconds_of, is_too_long, kept_of_received, kept_of, is_unfinished, next_of_received, next_question, joined, aged};

use crate::choices::MOST_NAMES;
use crate::received::{receive, received_ttl};
use crate::ways::{count_names, is_kept, names_of};
use hickory_proto_core::{Message, Name, Query, Record, ResponseCode};
use hickory_proto_wire::WireMessage;
use hickory_resolver_tries::chain::end_of;
use hickory_resolver_tries::outcome::{first_soa, is_asked};
use std::alloc::{AllocError, Global};
use std::marker::Model;

/// What is kept of the reply to a question, or of several where aliases lead on.
#[derive(Debug, Drop)]
pub struct KeptReply {
    /// The response code.
    pub code: ResponseCode,
    /// Whether the server held all of it for authentic (RFC 4035, section 3.2.3).
    pub authentic_data: bool,
    /// The aliases, and what answers where they end.
    pub answers: Vec<Record>,
    /// What says that there is nothing (RFC 2308, section 2), and what proves it where DNSSEC records were asked.
    pub authorities: Vec<Record>,
    /// For how many seconds it may be told.
    pub seconds: u32,
}

impl Model for KeptReply {
    ghost use Rattle.whole_replies.specs.Kept.{KeptValue};

    ghost Value = { KeptValue };

    ghost view = { λ k. record {
      code = k.code;
      authentic_data = k.authentic_data;
      answers = k.answers.items;
      authorities = k.authorities.items;
      seconds = k.seconds;
    } };
}

fn has_soa(message: &Message) -> bool
    ensures { result ≡ has_soa message.now }
{
    match first_soa(&message.authorities) {
        Some(_) => true,
        None => false,
    }
}

// Whether a record answers where aliases end.
fn is_answered(query: &Query, message: &Message) -> bool
    ensures { result ≡ is_answered query.now message.now }
{
    let (last, _) = end_of(query, &message.answers);
    message
        .answers
        .iter()
        .any(|found| is_asked(query, last, found))
}

// Whether aliases lead on.
fn leads_on(query: &Query, message: &Message) -> bool
    ensures { result ≡ leads_on query.now message.now }
{
    let (_, moved) = end_of(query, &message.answers);
    moved && message.metadata.response_code != ResponseCode::NXDomain && !has_soa(message)
}

fn is_negative(query: &Query, message: &Message) -> bool
    ensures { result ≡ is_negative query.now message.now }
{
    !is_answered(query, message) && !leads_on(query, message)
}

fn is_unfinished(query: &Query, message: &Message) -> bool
    ensures { result ≡ is_unfinished query.now message.now }
{
    !is_answered(query, message) && leads_on(query, message)
}

// What is asked next, where aliases lead on and nothing answers where they end.
fn next_of_received(query: &Query, message: &Message) -> Result<Option<Query>, AllocError>
    ensures { IfOk result (λ next. next ≡ next_of_received query.now message.now) }
{
    if !is_unfinished(query, message) {
        return Ok(None);
    }
    let (last, _) = end_of(query, &message.answers);
    Ok(Some(Query {
        name: Clone::clone(last)?,
        query_type: query.query_type,
        query_class: query.query_class,
    }))
}

// A negative answer without SOA record may be told for no second.
fn negative_limit(query: &Query, message: &Message) -> Option<u32>
    ensures { result ≡ negative_limit query.now message.now }
{
    if is_negative(query, message) && !has_soa(message) {
        Some(0)
    } else {
        None
    }
}

fn least_ttl(records: &[Record]) -> Option<u32>
    ensures { result ≡ least_ttl records.now }
{
    let (first, others) = records.split_first()?;
    let mut least = first.ttl;
    for other in others {
        least = least.min(other.ttl);
    }
    Some(least)
}

fn lesser(one: Option<u32>, other: Option<u32>) -> Option<u32>
    ensures { result ≡ lesser one other }
{
    match (one, other) {
        (None, other) => other,
        (Some(one), None) => Some(one),
        (Some(one), Some(other)) => Some(one.min(other)),
    }
}

fn seconds_of(limit: Option<u32>, answers: &[Record], authorities: &[Record]) -> u32
    ensures { result ≡ seconds_of limit answers.now authorities.now }
{
    let records = lesser(least_ttl(answers), least_ttl(authorities));
    lesser(limit, records).unwrap_or(0)
}

fn is_start_of_zone(found: &Record) -> bool
    ensures { result ≡ is_start_of_zone found.now }
{
    found.rdata.soa_minimum().is_some()
}

fn is_kept_authority(negative: bool, found: &Record) -> bool
    ensures { result ≡ is_kept_authority negative found.now }
{
    negative && is_start_of_zone(found)
}

// Leaves of a message what is kept.
fn keep_answers(query: &Query, last: &Name, dnssec: bool, names: &[Name], answers: &mut Vec<Record>)
    ensures { answers.new.items
        ≡ filter (is_kept query.now last.now dnssec names.now) answers.old.items }
{
    answers.retain(|found| is_kept(query, last, dnssec, names, found));
}

fn keep_if_negative(negative: bool, authorities: &mut Vec<Record>)
    ensures { authorities.new.items ≡ filter (is_kept_authority negative) authorities.old.items }
{
    authorities.retain(|found| is_kept_authority(negative, found));
}

fn choose_authorities(dnssec: bool, negative: bool, moved: bool, authorities: &mut Vec<Record>)
    ensures { authorities.new.items ≡ authorities_kept dnssec negative moved authorities.old.items }
{
    if dnssec || (negative && !moved) {
        return;
    }
    keep_if_negative(negative, authorities);
}

fn keep_within_minimum(found: &mut Record)
    ensures { found.new ≡ within_minimum found.old }
{
    if let Some(minimum) = found.rdata.soa_minimum() {
        found.ttl = found.ttl.min(received_ttl(minimum));
    }
}

fn keep_all_within_minimum(records: &mut Vec<Record>)
    ensures { records.new.items ≡ map within_minimum records.old.items }
{
    for found in records.iter_mut() {
        keep_within_minimum(found);
    }
}

fn keep_authorities(dnssec: bool, negative: bool, moved: bool, authorities: &mut Vec<Record>)
    ensures { authorities.new.items ≡ map within_minimum (authorities_kept dnssec negative moved authorities.old.items) }
{
    choose_authorities(dnssec, negative, moved, authorities);
    keep_all_within_minimum(authorities);
}

impl KeptReply {
    /// What is kept of a believed reply to a question, with what proves it where DNSSEC records were asked (RFC 4035,
    /// section 3.2.1). Records of another class than the question's count for nothing (RFC 1034, section 3.7.1), and a
    /// TTL whose top bit is set counts as 0 (RFC 2181, section 8). None where more than `MOST_NAMES` names are on the
    /// way.
    pub fn of(
        alloc: Global,
        query: &Query,
        dnssec: bool,
        reply: WireMessage,
    ) -> Result<Option<KeptReply>, AllocError>
        ensures { IfOk result (λ kept. kept ≡ kept_of query.now dnssec reply) }
    {
        let WireMessage {
            authentic_data,
            mut message,
            ..
        } = reply;
        receive(query, &mut message);
        of_received(alloc, query, dnssec, authentic_data, message)
    }

    /// As `of`, of a reply that others are told of too: it is copied. With what is kept comes the question that is
    /// asked next, where aliases lead on and nothing answers where they end.
    pub fn copy_of(
        alloc: Global,
        query: &Query,
        dnssec: bool,
        reply: &WireMessage,
    ) -> Result<(Option<KeptReply>, Option<Query>), AllocError>
        ensures kept { IfOk result (λ heard. heard.0 ≡ kept_of query.now dnssec reply.now) }
        ensures next { IfOk result (λ heard. heard.1 ≡ next_question query.now reply.now.message) }
    {
        let mut message = Clone::clone(&reply.message)?;
        receive(query, &mut message);
        let next = next_of_received(query, &message)?;
        let kept = of_received(alloc, query, dnssec, reply.authentic_data, message)?;
        Ok((kept, next))
    }

    /// Puts the reply to the question that it leads to behind it (RFC 6604). Where memory is refused nothing changes.
    pub fn append(&mut self, last: KeptReply) -> Result<(), AllocError>
        ensures ok { OnOk result (self.new ≡ joined self.old last) }
        ensures err { OnErr result (self.new ≡ self.old) }
    {
        self.answers.reserve(last.answers.len())?;
        let mut added = last.answers;
        let moved = self.answers.append(&mut added);
        prove!(moved.is_ok());
        self.code = last.code;
        self.authentic_data = self.authentic_data && last.authentic_data;
        self.authorities = last.authorities;
        self.seconds = self.seconds.min(last.seconds);
        Ok(())
    }

    /// So many seconds later: each TTL is so much lower, and 0 at the least (RFC 2181, section 8).
    pub fn age(&mut self, seconds: u32)
        ensures { self.new ≡ aged seconds self.old }
    {
        age_records(&mut self.answers, seconds);
        age_records(&mut self.authorities, seconds);
        self.seconds = self.seconds.saturating_sub(seconds);
    }
}

// What is kept of a reply of which everything counts.
fn of_received(
    alloc: Global,
    query: &Query,
    dnssec: bool,
    authentic_data: bool,
    message: Message,
) -> Result<Option<KeptReply>, AllocError>
    ensures { IfOk result (λ kept. kept ≡ kept_of_received query.now dnssec authentic_data message) }
{
    if MOST_NAMES < count_names(query, &message.answers) {
        return Ok(None);
    }
    let code = message.metadata.response_code;
    let limit = negative_limit(query, &message);
    let (answers, authorities) = kept_records(alloc, query, dnssec, message)?;
    Ok(Some(KeptReply {
        code,
        authentic_data,
        seconds: seconds_of(limit, &answers, &authorities),
        answers,
        authorities,
    }))
}

// The name where aliases end.
fn last_name(query: &Query, answers: &[Record]) -> Result<Name, AllocError>
    ensures { IfOk result (λ last. last ≡ (walk_of query.now answers.now).last) }
{
    let (last, _) = end_of(query, answers);
    Ok(Clone::clone(last)?)
}

// Leaves of the answers those on the way.
fn keep_way(
    alloc: Global,
    query: &Query,
    dnssec: bool,
    answers: &mut Vec<Record>,
) -> Result<(), AllocError>
    ensures { OnOk result (answers.new.items
        ≡ filter (is_kept_of query.now answers.old.items dnssec) answers.old.items) }
{
    let names = names_of(alloc, query, answers)?;
    let last = last_name(query, answers)?;
    keep_answers(query, &last, dnssec, &names, answers);
    Ok(())
}

// What is kept of the answers, and of the authorities.
fn kept_records(
    alloc: Global,
    query: &Query,
    dnssec: bool,
    message: Message,
) -> Result<(Vec<Record>, Vec<Record>), AllocError>
    ensures answers { IfOk result (λ kept. kept.0.items ≡ kept_answers query.now dnssec message) }
    ensures authorities { IfOk result (λ kept. kept.1.items ≡ kept_authorities query.now dnssec message) }
{
    let negative = is_negative(query, &message);
    let (_, moved) = end_of(query, &message.answers);
    let Message {
        mut answers,
        mut authorities,
        ..
    } = message;
    keep_way(alloc, query, dnssec, &mut answers)?;
    keep_authorities(dnssec, negative, moved, &mut authorities);
    Ok((answers, authorities))
}

fn age_records(records: &mut Vec<Record>, seconds: u32)
    ensures { records.new.items ≡ map (lower_ttl seconds) records.old.items }
{
    for older in records.iter_mut() {
        older.decrement_ttl(seconds);
    }
}
