//! Names that are special, and what they have (RFC 6761, sections 6.3 and 6.4; RFC 7686, section 2).
ghost use Rattle.std.specs.Prelude.{◌≡◌, None, nat_eq, map, IsOk, IfOk};
ghost use Rattle.std.specs.List.{ends_with};
ghost use Rattle.std.specs.Option.{option_map};
ghost use Rattle.std.specs.Cmp.Lexicographic.{pointwise};
ghost use Rattle.hickory_proto_core.specs.Codes.{type_code};
ghost use Rattle.hickory_proto_core.specs.Name.{label_bytes, lower_label, lower_labels, is_zone_of, localhost};
ghost use Rattle.hickory_proto_core.specs.Records.{data_of};
ghost use Rattle.hickory_resolver_model.specs.SpecialUse.{full_name, is_loopback_name, is_nonexistent_name, loopback_data};
ghost use Rattle.local_answers.specs.Special.{loopback_reply, special_reply};

use crate::replies::{no_records, record_reply};
use hickory_proto_core::{Name, Query, RData, RecordType, ResponseCode};
use std::alloc::{AllocError, Global};
use std::net::{Ipv4Addr, Ipv6Addr};
use whole_replies::KeptReply;

const DAY: u32 = 86400;

// The names of the loopback addresses 127.0.0.0/8 and ::1 (RFC 1035, section 3.5; RFC 3596, section 2.5).
static LOOPBACK_V4: [&[u8]; 3] = [b"127", b"in-addr", b"arpa"];

static LOOPBACK_V6: [&[u8]; 34] = [
    b"1", b"0", b"0", b"0", b"0", b"0", b"0", b"0", b"0", b"0", b"0", b"0", b"0", b"0", b"0", b"0",
    b"0", b"0", b"0", b"0", b"0", b"0", b"0", b"0", b"0", b"0", b"0", b"0", b"0", b"0", b"0", b"0",
    b"ip6", b"arpa",
];

static INVALID: [&[u8]; 1] = [b"invalid"];

static ONION: [&[u8]; 1] = [b"onion"];

fn is_loopback_name(name: &Name) -> bool
    ensures { result ≡ is_loopback_name name.now }
{
    name.is_localhost() || is_below(&LOOPBACK_V4, name) || is_below(&LOOPBACK_V6, name)
}

fn is_nonexistent_name(name: &Name) -> bool
    ensures { result ≡ is_nonexistent_name name.now }
{
    is_below(&INVALID, name) || is_below(&ONION, name)
}

// Whether the zone with these labels is a zone of the name.
pub(crate) fn is_below(zone: &[&[u8]], name: &Name) -> bool
    ensures { result ≡ is_zone_of (full_name (map (λ l. l.now) zone.now)) name.now }
{
    ends_with(name.labels(), zone)
}

// Whether the labels end with these, without ASCII case.
fn ends_with(labels: &[Vec<u8>], zone: &[&[u8]]) -> bool
    ensures { result ≡ ends_with (pointwise nat_eq) (lower_labels (label_bytes labels.now))
        (lower_labels (map (λ l. l.now) zone.now)) }
{
    if labels.len() < zone.len() {
        return false;
    }
    let above = labels.len() - zone.len();
    for i in 0..zone.len() {
        if !label_eq(zone[i], &labels[above + i]) {
            return false;
        }
    }
    true
}

// Whether two labels are equal without ASCII case (RFC 1035, section 2.3.3).
fn label_eq(a: &[u8], b: &[u8]) -> bool
    ensures { result ≡ pointwise nat_eq (lower_label a.now) (lower_label b.now) }
{
    a.eq_ignore_ascii_case(b)
}

// What the loopback names have: the loopback addresses, and the name of the host.
fn loopback_data(alloc: Global, query_type: RecordType) -> Result<Option<RData>, AllocError>
    ensures { IfOk result (λ found. option_map data_of found ≡ loopback_data (type_code query_type)) }
{
    match query_type.code() {
        1 => Ok(Some(RData::A(Ipv4Addr::LOCALHOST))),
        28 => Ok(Some(RData::AAAA(Ipv6Addr::LOCALHOST))),
        12 => Ok(Some(RData::PTR(localhost(alloc)?))),
        _ => Ok(None),
    }
}

// The name `localhost.`
fn localhost(alloc: Global) -> Result<Name, AllocError>
    ensures { IfOk result (λ name. name ≡ localhost) }
{
    let mut labels = Vec::new(alloc);
    labels.push(Vec::from_slice(alloc, b"localhost")?)?;
    match Name::from_labels(labels) {
        Ok(name) => Ok(name),
        Err(_) => Err(AllocError),
    }
}

// What is told of a loopback name.
fn loopback_reply(alloc: Global, query: &Query) -> Result<KeptReply, AllocError>
    ensures { IfOk result (λ made. made ≡ loopback_reply query.now) }
{
    match loopback_data(alloc, query.query_type)? {
        Some(rdata) => record_reply(alloc, query, DAY, rdata),
        None => Ok(no_records(alloc, ResponseCode::NoError)),
    }
}

/// What is told of a special name, and none of any other, which takes no memory.
pub fn special_reply(alloc: Global, query: &Query) -> Result<Option<KeptReply>, AllocError>
    ensures reply { IfOk result (λ made. made ≡ special_reply query.now) }
    ensures none { special_reply query.now ≡ None → IsOk result }
{
    if is_loopback_name(&query.name) {
        return Ok(Some(loopback_reply(alloc, query)?));
    }
    if is_nonexistent_name(&query.name) {
        return Ok(Some(no_records(alloc, ResponseCode::NXDomain)));
    }
    Ok(None)
}
