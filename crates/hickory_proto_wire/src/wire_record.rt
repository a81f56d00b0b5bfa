//! Questions and records at a position of a message (RFC 1035, sections 4.1.2 and 4.1.3), and OPT (RFC 6891,
//! section 6.1).
ghost use Rattle.std.specs.Prelude.{◌≡◌, length, ◌≤◌, IfOk};
ghost use Rattle.hickory_proto_wire.specs.Octets.{Gives};
ghost use Rattle.hickory_proto_wire.specs.ReadNames.{IsFront};
ghost use Rattle.hickory_proto_wire.specs.Records.{repeat_at, query_at, head_at, record_from, record_at, opt_from, nothing_found, found_with, additionals_at};

use crate::edns::Edns;
use crate::read_names::ReadNames;
use crate::reader::{u16_at, u32_at};
use crate::wire_error::{WireError, WireFault};
use crate::wire_name::name_at;
use crate::wire_record_data::record_data_at;
use hickory_proto_core::{DNSClass, Name, Query, Record, RecordType};
use std::alloc::Global;
use std::marker::Model;

// The fields of a record before its data, and where these begin and end.
#[derive(Drop)]
pub(crate) struct RecordHead {
    name: Name,
    pub(crate) code: u16,
    class: u16,
    ttl: u32,
    pub(crate) start: usize,
    pub(crate) end: usize,
}

// The OPT record: what belongs to the message's response code, and the rest.
#[derive(Drop)]
pub(crate) struct OptRecord {
    pub(crate) extended: u8,
    pub(crate) edns: Edns,
}

// What the additional section holds.
#[derive(Drop)]
pub(crate) struct Additionals {
    pub(crate) records: Vec<Record>,
    pub(crate) opt: Option<OptRecord>,
}

impl Model for Additionals {
    ghost use Rattle.hickory_proto_wire.specs.Found.{Found};

    ghost Value = { Found };

    ghost view = { λ a. record { records = a.records.items; opt = a.opt } };
}

#[tactic(auto, unfolding(crate::specs::Records::query_at))]
pub(crate) fn query_at(
    names: &mut ReadNames<'_>,
    bytes: &[u8],
    at: usize,
) -> Result<(Query, usize), WireError>
    requires { IsFront bytes.now names.old }
    ensures exact { Gives (λ x. x) result (query_at bytes.now at) }
    ensures same { names.new ≡ names.old }
{
    let (name, at) = name_at(names, bytes, at)?;
    let (code, at) = u16_at(bytes, at)?;
    let (class, at) = u16_at(bytes, at)?;
    Ok((
        Query {
            name,
            query_type: RecordType::from_code(code),
            query_class: DNSClass::from_code(class),
        },
        at,
    ))
}

pub(crate) fn queries_at(
    names: &mut ReadNames<'_>,
    count: u16,
    bytes: &[u8],
    at: usize,
) -> Result<(Vec<Query>, usize), WireError>
    requires { IsFront bytes.now names.old }
    ensures exact { Gives (λ x. (x.0.items, x.1)) result (repeat_at (query_at bytes.now) count at) }
    ensures same { names.new ≡ names.old }
{
    let mut queries = Vec::new(names.alloc());
    let mut at = at;
    for _ in 0..count {
        let (query, after) = query_at(names, bytes, at)?;
        queries.push(query)?;
        at = after;
    }
    Ok((queries, at))
}

#[tactic(auto, unfolding(crate::specs::Records::head_at))]
pub(crate) fn head_at(
    names: &mut ReadNames<'_>,
    bytes: &[u8],
    at: usize,
) -> Result<RecordHead, WireError>
    requires { IsFront bytes.now names.old }
    ensures exact { Gives (λ x. x) result (head_at bytes.now at) }
    ensures within { IfOk result (λ x. (x.start ≤ x.end) × (x.end ≤ length bytes.now)) }
    ensures same { names.new ≡ names.old }
{
    let (name, at) = name_at(names, bytes, at)?;
    let (code, at) = u16_at(bytes, at)?;
    let (class, at) = u16_at(bytes, at)?;
    let (ttl, at) = u32_at(bytes, at)?;
    let (len, start) = u16_at(bytes, at)?;
    let len = usize::from(len);
    if bytes.len() < start || bytes.len() - start < len {
        return Err(WireError::Fault(WireFault::Short));
    }
    Ok(RecordHead {
        name,
        code,
        class,
        ttl,
        start,
        end: start + len,
    })
}

#[tactic(auto, unfolding(crate::specs::Records::record_from))]
fn record_from(
    names: &mut ReadNames<'_>,
    bytes: &[u8],
    head: RecordHead,
) -> Result<Record, WireError>
    requires front { IsFront bytes.now names.old }
    requires within { head.end ≤ length bytes.now }
    ensures exact { Gives (λ x. x) result (record_from bytes.now head) }
    ensures same { names.new ≡ names.old }
{
    let rdata = record_data_at(names, head.code, bytes, head.start, head.end)?;
    Ok(Record {
        name: head.name,
        dns_class: DNSClass::from_code(head.class),
        ttl: head.ttl,
        rdata,
    })
}

#[tactic(auto, unfolding(crate::specs::Records::record_at))]
pub(crate) fn record_at(
    names: &mut ReadNames<'_>,
    bytes: &[u8],
    at: usize,
) -> Result<(Record, usize), WireError>
    requires { IsFront bytes.now names.old }
    ensures exact { Gives (λ x. x) result (record_at bytes.now at) }
    ensures same { names.new ≡ names.old }
{
    let head = head_at(names, bytes, at)?;
    let end = head.end;
    Ok((record_from(names, bytes, head)?, end))
}

pub(crate) fn records_at(
    names: &mut ReadNames<'_>,
    count: u16,
    bytes: &[u8],
    at: usize,
) -> Result<(Vec<Record>, usize), WireError>
    requires { IsFront bytes.now names.old }
    ensures exact { Gives (λ x. (x.0.items, x.1)) result (repeat_at (record_at bytes.now) count at) }
    ensures same { names.new ≡ names.old }
{
    let mut records = Vec::new(names.alloc());
    let mut at = at;
    for _ in 0..count {
        let (added, after) = record_at(names, bytes, at)?;
        records.push(added)?;
        at = after;
    }
    Ok((records, at))
}

#[tactic(auto, unfolding(crate::specs::Records::opt_from))]
fn opt_from(alloc: Global, bytes: &[u8], head: RecordHead) -> Result<OptRecord, WireError>
    requires order { head.start ≤ head.end }
    requires within { head.end ≤ length bytes.now }
    ensures { Gives (λ x. x) result (opt_from bytes.now head) }
{
    if !head.name.labels().is_empty() {
        return Err(WireError::Fault(WireFault::OptName));
    }
    let (_, behind) = bytes.split_at(head.start);
    let (options, _) = behind.split_at(head.end - head.start);
    Ok(OptRecord {
        extended: (head.ttl / 16777216) as u8,
        edns: Edns {
            size: head.class,
            version: (head.ttl / 65536 % 256) as u8,
            flags: (head.ttl % 65536) as u16,
            options: Vec::from_slice(alloc, options)?,
        },
    })
}

// What was found and one record more.
#[tactic(auto, unfolding(crate::specs::Records::found_with))]
pub(crate) fn found_with(
    names: &mut ReadNames<'_>,
    bytes: &[u8],
    head: RecordHead,
    found: Additionals,
) -> Result<Additionals, WireError>
    requires front { IsFront bytes.now names.old }
    requires order { head.start ≤ head.end }
    requires within { head.end ≤ length bytes.now }
    ensures exact { Gives (λ x. x) result (found_with bytes.now head found) }
    ensures same { names.new ≡ names.old }
{
    let Additionals { mut records, opt } = found;
    if head.code != 41 {
        records.push(record_from(names, bytes, head)?)?;
        return Ok(Additionals { records, opt });
    }
    if opt.is_some() {
        return Err(WireError::Fault(WireFault::SecondOpt));
    }
    let opt = opt_from(names.alloc(), bytes, head)?;
    Ok(Additionals {
        records,
        opt: Some(opt),
    })
}

pub(crate) fn additionals_at(
    names: &mut ReadNames<'_>,
    count: u16,
    bytes: &[u8],
    at: usize,
) -> Result<(Additionals, usize), WireError>
    requires { IsFront bytes.now names.old }
    ensures exact { Gives (λ x. x) result (additionals_at count bytes.now at nothing_found) }
    ensures same { names.new ≡ names.old }
{
    let mut found = Additionals {
        records: Vec::new(names.alloc()),
        opt: None,
    };
    let mut at = at;
    for _ in 0..count {
        let head = head_at(names, bytes, at)?;
        let end = head.end;
        found = found_with(names, bytes, head, found)?;
        at = end;
    }
    Ok((found, at))
}
