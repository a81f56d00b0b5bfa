//! What is said below a domain.
ghost use Rattle.std.specs.Prelude.{◌≡◌, ◌-◌, ◌≤◌, IfOk, drop, length};
ghost use Rattle.std.specs.Option.{option_map};
ghost use Rattle.hickory_proto_core.specs.Codes.{type_code};
ghost use Rattle.hickory_proto_core.specs.Name.{label_bytes};
ghost use Rattle.hickory_proto_core.specs.Records.{data_of};
ghost use Rattle.local_answers.specs.Rules.{blocked_denial, blocked_reply, code_below, labels_from, null_address, nobody, served_reply, start_of, zone_name};

use crate::choices::{BLOCKED_SECONDS, SERVED_SECONDS};
use crate::replies::{copy_of, denial, one_answer, record_reply};
use crate::special::is_below;
use hickory_proto_core::{Name, Query, RData, Record, RecordType, ResponseCode};
use std::alloc::{AllocError, Global};
use std::net::{Ipv4Addr, Ipv6Addr};
use whole_replies::KeptReply;

/// What is done with names below a domain, and with the domain.
#[derive(Clone, Copy, Debug, PartialEq, Eq)]
pub enum DomainRule {
    /// An empty zone is served here (RFC 6303, section 3).
    Serve,
    /// They are blocked.
    Block(Blocked),
    /// The servers of the group of this number are asked.
    Ask(u64),
}

/// How a blocked name is answered.
#[derive(Clone, Copy, Debug, PartialEq, Eq)]
pub enum Blocked {
    /// It does not exist.
    NoName,
    /// It has no records.
    NoData,
    /// Its addresses are 0.0.0.0 and ::, and it has no other records.
    NullAddress,
}

// How many of these labels stand behind so many octets.
fn labels_behind(labels: &[Vec<u8>], place: usize) -> usize
    ensures few { result ≤ length labels.now }
    ensures labels { drop (length labels.now - result) (label_bytes labels.now)
        ≡ labels_from place (label_bytes labels.now) }
{
    let mut left = place;
    for (i, label) in labels.iter().enumerate() {
        if left == 0 {
            return labels.len() - i;
        }
        left = left.saturating_sub(label.len() + 1);
    }
    0
}

// The domain that begins at a place of the name that is asked.
fn zone_name(query: &Query, place: usize) -> Result<Name, AllocError>
    ensures { IfOk result (λ zone. zone ≡ zone_name query.now place) }
{
    let count = labels_behind(query.name.labels(), place);
    match query.name.trim_to(count) {
        Ok(zone) => Ok(zone),
        Err(_) => Err(AllocError),
    }
}

// The mailbox of nobody (RFC 6303, section 3).
fn nobody(alloc: Global) -> Result<Name, AllocError>
    ensures { IfOk result (λ name. name ≡ nobody) }
{
    let mut labels = Vec::new(alloc);
    labels.push(Vec::from_slice(alloc, b"nobody")?)?;
    labels.push(Vec::from_slice(alloc, b"invalid")?)?;
    match Name::from_labels(labels) {
        Ok(name) => Ok(name),
        Err(_) => Err(AllocError),
    }
}

// The SOA record of an empty zone.
fn start_of(alloc: Global, query: &Query, zone: &Name, seconds: u32) -> Result<Record, AllocError>
    ensures { IfOk result (λ start. start ≡ start_of query.now zone.now seconds) }
{
    let name = copy_of(zone)?;
    let mname = copy_of(zone)?;
    let rname = nobody(alloc)?;
    Ok(Record {
        name,
        dns_class: query.query_class,
        ttl: seconds,
        rdata: RData::SOA {
            mname,
            rname,
            serial: 1,
            refresh: 3600,
            retry: 1200,
            expire: 604800,
            minimum: seconds,
        },
    })
}

static RESOLVER: [&[u8]; 2] = [b"resolver", b"arpa"];

// How a name of a zone that is served here is denied, where it is not the zone's own.
fn code_below(name: &Name) -> ResponseCode
    ensures { result ≡ code_below name.now }
{
    if is_below(&RESOLVER, name) {
        ResponseCode::NoError
    } else {
        ResponseCode::NXDomain
    }
}

// The reply about a zone that is served here, which begins at a place of the name that is asked.
pub fn served_reply(alloc: Global, query: &Query, place: usize) -> Result<KeptReply, AllocError>
    ensures { IfOk result (λ made. made ≡ served_reply query.now place) }
{
    let zone = zone_name(query, place)?;
    let start = start_of(alloc, query, &zone, SERVED_SECONDS)?;
    if place != 0 {
        return denial(alloc, code_below(&query.name), start);
    }
    match query.query_type.code() {
        6 => one_answer(alloc, start),
        2 => record_reply(alloc, query, SERVED_SECONDS, RData::NS(zone)),
        _ => denial(alloc, ResponseCode::NoError, start),
    }
}

// The address that a blocked name has.
fn null_address(query_type: RecordType) -> Option<RData>
    ensures { option_map data_of result ≡ null_address (type_code query_type) }
{
    match query_type.code() {
        1 => Some(RData::A(Ipv4Addr::UNSPECIFIED)),
        28 => Some(RData::AAAA(Ipv6Addr::UNSPECIFIED)),
        _ => None,
    }
}

// The negative reply about a blocked domain, which begins at a place of the name that is asked.
fn blocked_denial(
    alloc: Global,
    query: &Query,
    place: usize,
    code: ResponseCode,
) -> Result<KeptReply, AllocError>
    ensures { IfOk result (λ made. made ≡ blocked_denial query.now place code) }
{
    let zone = zone_name(query, place)?;
    let start = start_of(alloc, query, &zone, BLOCKED_SECONDS)?;
    denial(alloc, code, start)
}

// The reply about a name in a blocked domain, which begins at a place of the name.
pub fn blocked_reply(
    alloc: Global,
    query: &Query,
    place: usize,
    blocked: Blocked,
) -> Result<KeptReply, AllocError>
    ensures { IfOk result (λ made. made ≡ blocked_reply query.now place blocked) }
{
    match blocked {
        Blocked::NoName => blocked_denial(alloc, query, place, ResponseCode::NXDomain),
        Blocked::NoData => blocked_denial(alloc, query, place, ResponseCode::NoError),
        Blocked::NullAddress => match null_address(query.query_type) {
            Some(rdata) => record_reply(alloc, query, BLOCKED_SECONDS, rdata),
            None => blocked_denial(alloc, query, place, ResponseCode::NoError),
        },
    }
}
