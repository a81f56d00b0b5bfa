//! Names that are answered without asking (RFC 6761, sections 6.3 and 6.4; RFC 7686, section 2).
ghost use Rattle.std.specs.Prelude.{◌≡◌, Err, nat_eq, map, IfOk, IsOkUnless};
ghost use Rattle.std.specs.List.{ends_with};
ghost use Rattle.std.specs.Option.{option_map};
ghost use Rattle.std.specs.Cmp.Lexicographic.{pointwise};
ghost use Rattle.hickory_proto_core.specs.Codes.{type_code};
ghost use Rattle.hickory_proto_core.specs.Name.{label_bytes, lower_label, lower_labels, is_zone_of, localhost};
ghost use Rattle.hickory_proto_core.specs.Records.{data_of};
ghost use Rattle.hickory_resolver_model.specs.SpecialUse.{special_use_result, full_name, is_loopback_name, is_nonexistent_name, is_special_use, loopback_data, no_records};
ghost use Rattle.hickory_resolver_client.specs.Special.{IsSpecialReply, IsUnlessOut, loopback_result};

use hickory_proto_core::{
    DNSClass, Name, NetError, NoRecords, Query, RData, RecordType, ResponseCode,
};
use hickory_resolver_lookup::Lookup;
use std::alloc::Global;
use std::net::{Ipv4Addr, Ipv6Addr};

// The names of the loopback addresses 127.0.0.0/8 and ::1 (RFC 1035, section 3.5; RFC 3596, section 2.5).
static LOOPBACK_V4: [&[u8]; 3] = [b"127", b"in-addr", b"arpa"];

static LOOPBACK_V6: [&[u8]; 34] = [
    b"1", b"0", b"0", b"0", b"0", b"0", b"0", b"0", b"0", b"0", b"0", b"0", b"0", b"0", b"0", b"0",
    b"0", b"0", b"0", b"0", b"0", b"0", b"0", b"0", b"0", b"0", b"0", b"0", b"0", b"0", b"0", b"0",
    b"ip6", b"arpa",
];

static INVALID: [&[u8]; 1] = [b"invalid"];

static ONION: [&[u8]; 1] = [b"onion"];

/// Whether a name is special: a question about it, in the class of the Internet, is answered without asking. So
/// are `localhost.`, the names of the loopback addresses, `invalid.` and `onion.`, with all names below each.
/// Those of the last two do not exist (RFC 6761, sections 6.3 and 6.4; RFC 7686, section 2). Names below `local.`
/// are as any other. The mark of a fully qualified name makes no difference.
pub fn is_special_use(name: &Name) -> bool
    ensures { result ≡ is_special_use name.now }
{
    is_loopback_name(name) || is_nonexistent_name(name)
}

fn is_loopback_name(name: &Name) -> bool
    ensures { result ≡ is_loopback_name name.now }
{
    name.is_localhost() || is_below(&LOOPBACK_V4, name) || is_below(&LOOPBACK_V6, name)
}

fn is_nonexistent_name(name: &Name) -> bool
    ensures { result ≡ is_nonexistent_name name.now }
{
    is_below(&INVALID, name) || is_below(&ONION, name)
}

// Whether the zone with these labels is a zone of the name.
fn is_below(zone: &[&[u8]], name: &Name) -> bool
    ensures { result ≡ is_zone_of (full_name (map (λ l. l.now) zone.now)) name.now }
{
    ends_with(name.labels(), zone)
}

// Whether the labels end with these, without ASCII case.
fn ends_with(labels: &[Vec<u8>], zone: &[&[u8]]) -> bool
    ensures { result ≡ ends_with (pointwise nat_eq) (lower_labels (label_bytes labels.now))
        (lower_labels (map (λ l. l.now) zone.now)) }
{
    if labels.len() < zone.len() {
        return false;
    }
    let above = labels.len() - zone.len();
    for i in 0..zone.len() {
        if !label_eq(zone[i], &labels[above + i]) {
            return false;
        }
    }
    true
}

// Whether two labels are equal without ASCII case (RFC 1035, section 2.3.3).
fn label_eq(a: &[u8], b: &[u8]) -> bool
    ensures { result ≡ pointwise nat_eq (lower_label a.now) (lower_label b.now) }
{
    a.eq_ignore_ascii_case(b)
}

// The reply to a question about a special name, at a moment (seconds), and none for any other name. In the
// class of the Internet, the loopback names have their addresses and names, and nothing else; names under
// `invalid.` and `onion.` do not exist. Another name takes no memory; the reply to a special one may find
// none.
pub(crate) fn special_use_result(
    alloc: Global,
    query: &Query,
    now: u64,
) -> Option<Result<Lookup, NetError>>
    ensures { IsSpecialReply (special_use_result query.now now) result }
{
    if query.query_class != DNSClass::IN {
        return None;
    }
    if is_loopback_name(&query.name) {
        return Some(loopback_result(alloc, query, now));
    }
    if is_nonexistent_name(&query.name) {
        return Some(no_records(query, ResponseCode::NXDomain));
    }
    None
}

// What a loopback name has: the record of the asked type, or no such records.
fn loopback_result(alloc: Global, query: &Query, now: u64) -> Result<Lookup, NetError>
    ensures { IsUnlessOut (loopback_result query.now now) result }
{
    match loopback_data(alloc, query.query_type)? {
        Some(rdata) => match query.clone() {
            Ok(asked) => Lookup::from_rdata(alloc, asked, rdata, now),
            Err(error) => {
                drop(rdata);
                Err(error)
            }
        },
        None => no_records(query, ResponseCode::NoError),
    }
}

// What the loopback names have: the loopback addresses, and the name of the host.
fn loopback_data(alloc: Global, query_type: RecordType) -> Result<Option<RData>, NetError>
    ensures ok { IfOk result (λ found. option_map data_of found ≡ loopback_data (type_code query_type)) }
    ensures err { IsOkUnless result NetError.OutOfMemory }
{
    if query_type == RecordType::A {
        return Ok(Some(RData::A(Ipv4Addr::LOCALHOST)));
    }
    if query_type == RecordType::AAAA {
        return Ok(Some(RData::AAAA(Ipv6Addr::LOCALHOST)));
    }
    if query_type == RecordType::PTR {
        return Ok(Some(RData::PTR(localhost(alloc)?)));
    }
    Ok(None)
}

// The name `localhost.`
fn localhost(alloc: Global) -> Result<Name, NetError>
    ensures ok { IfOk result (λ name. name ≡ localhost) }
    ensures err { IsOkUnless result NetError.OutOfMemory }
{
    let mut labels = Vec::new(alloc);
    labels.push(Vec::from_slice(alloc, b"localhost")?)?;
    Ok(Name::from_labels(labels)?)
}

// That there are no records, with this code, and nothing else known.
fn no_records(query: &Query, response_code: ResponseCode) -> Result<Lookup, NetError>
    ensures { IsUnlessOut (Err (no_records query.now response_code)) result }
{
    Err(NetError::from(NoRecords::new(query.clone()?, response_code)))
}
