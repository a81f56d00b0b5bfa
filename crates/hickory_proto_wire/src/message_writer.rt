//! Messages as octets (RFC 1035, section 4.1), within a limit: records are left out from the end, and the message says
//! so (section 4.1.1).
ghost use Rattle.std.specs.Prelude.{◌≡◌, ◌++◌, ◌<◌, ◌≤◌, ◌+◌, ◌*◌, ◌/◌, ◌%◌, ◌-◌, ◌||◌, nat_lt, ℕ, List, None, take, length, IfOk, OnOk};
ghost use Rattle.hickory_proto_codes.specs.Codes.{op_code, response_code};
ghost use Rattle.hickory_proto_wire.specs.Edns.{IsInRange, AreInRange};
ghost use Rattle.hickory_proto_wire.specs.Writing.{weighed, flags_of, opt_count, record_count};
ghost use Rattle.hickory_proto_wire.specs.Written.{header_octets, start_octets, count_octets, edns_octets, opt_octets, is_cut};
ghost use Rattle.hickory_proto_wire.specs.Refused.{Refuses, wire_fault, header_fault, code_fault, opt_fault};
ghost use Rattle.hickory_proto_wire.specs.ToWire.{IsWritten};

use crate::checks::{check_message, opt_count};
use crate::edns::Edns;
use crate::octet_writer::{put_u16, put_u32};
use crate::section_writer::{
    HEADER, add_queries, add_sections, additionals_of, answers_of, authorities_of, queries_of,
};
use crate::to_wire_error::ToWireError;
use crate::wire_message::WireMessage;
use std::alloc::{AllocError, Global};

// The memory that is taken at first for the octets behind the header, and for places: most messages need no more.
const OCTETS: usize = 512;

const PLACES: usize = 16;

// The weight of a bit that is set.
fn weighed(set: bool, weight: u16) -> u16
    ensures { result ≡ weighed set weight }
{
    if set { weight } else { 0 }
}

// The second number of the header.
fn flags_of(message: &WireMessage, truncated: bool, op: u16, code: u16) -> u16
    requires op { op < 16 }
    requires code { code < 16 }
    ensures { result ≡ flags_of message.now truncated op code }
{
    let metadata = &message.message.metadata;
    weighed(message.is_response, 32768)
        + op * 2048
        + weighed(metadata.authoritative, 1024)
        + weighed(truncated, 512)
        + weighed(metadata.recursion_desired, 256)
        + weighed(metadata.recursion_available, 128)
        + weighed(message.reserved, 64)
        + weighed(message.authentic_data, 32)
        + weighed(message.checking_disabled, 16)
        + code
}

// How many records a message has, OPT aside.
fn record_count(source: &WireMessage) -> usize
    requires { header_fault source.now ≡ None }
    ensures { result ≡ record_count source.now }
{
    answers_of(source).len() + authorities_of(source).len() + additionals_of(source).len()
}

// Whether a message of which so many records are kept says that it is truncated.
fn is_cut(source: &WireMessage, kept: usize) -> bool
    requires { header_fault source.now ≡ None }
    ensures { result ≡ is_cut source.now kept }
{
    source.message.metadata.truncation || kept < record_count(source)
}

// The first two numbers of the header.
fn put_start(out: &mut Vec<u8>, source: &WireMessage, kept: usize) -> Result<(), AllocError>
    requires { header_fault source.now ≡ None }
    ensures { OnOk result (out.new.items ≡ out.old.items ++ start_octets source.now kept) }
{
    let metadata = &source.message.metadata;
    let op = u16::from(metadata.op_code.code());
    let code = metadata.response_code.code();
    put_u16(out, metadata.id)?;
    put_u16(out, flags_of(source, is_cut(source, kept), op, code % 16))
}

// The counts of the header.
fn put_counts(out: &mut Vec<u8>, source: &WireMessage, kept: usize) -> Result<(), AllocError>
    requires { header_fault source.now ≡ None }
    ensures { OnOk result (out.new.items ≡ out.old.items ++ count_octets source.now kept) }
{
    let answers = answers_of(source).len();
    let authorities = authorities_of(source).len();
    let behind = kept.saturating_sub(answers);
    let last = behind.saturating_sub(authorities);
    let additionals = last.min(additionals_of(source).len()) + opt_count(&source.edns);
    put_u16(out, source.message.queries.as_slice().len() as u16)?;
    put_u16(out, kept.min(answers) as u16)?;
    put_u16(out, behind.min(authorities) as u16)?;
    put_u16(out, additionals as u16)
}

// The TTL of the OPT record (RFC 6891, section 6.1.3).
fn opt_ttl(extended: u8, version: u8, flags: u16) -> u32
    ensures value { result ≡ extended * 16777216 + version * 65536 + flags }
    ensures version { version < 256 }
    ensures flags { flags < 65536 }
{
    u32::from(extended) * 16777216 + u32::from(version) * 65536 + u32::from(flags)
}

// The OPT record.
fn put_opt(out: &mut Vec<u8>, edns: &Edns, code: u16) -> Result<(), AllocError>
    requires code { code < 4096 }
    requires size { length edns.now.options < 65536 }
    ensures octets { OnOk result (out.new.items ≡ out.old.items ++ edns_octets edns.now code) }
    ensures range { OnOk result (IsInRange edns.now) }
{
    out.push(0)?;
    put_u16(out, 41)?;
    put_u16(out, edns.size)?;
    put_u32(out, opt_ttl((code / 16) as u8, edns.version, edns.flags))?;
    put_u16(out, edns.options.as_slice().len() as u16)?;
    out.extend_from_slice(&edns.options)?;
    Ok(())
}

// The OPT record, where there is one.
fn put_edns(out: &mut Vec<u8>, edns: &Option<Edns>, code: u16) -> Result<(), AllocError>
    requires code { code_fault edns.now code ≡ None }
    requires size { opt_fault edns.now ≡ None }
    ensures octets { OnOk result (out.new.items ≡ out.old.items ++ opt_octets edns.now code) }
    ensures range { OnOk result (AreInRange edns.now) }
{
    match edns {
        None => Ok(()),
        Some(edns) => put_opt(out, edns, code),
    }
}

// How many octets the OPT record takes.
fn opt_len(edns: &Option<Edns>, code: u16) -> usize
    requires { opt_fault edns.now ≡ None }
    ensures octets { result ≡ length (opt_octets edns.now code) }
    ensures small { result ≤ 65546 }
{
    match edns {
        None => 0,
        Some(edns) => edns.options.as_slice().len() + 11,
    }
}

// How many octets the header and OPT take.
fn room_around(source: &WireMessage) -> usize
    requires { opt_fault source.now.edns ≡ None }
    ensures octets { result ≡ 12 + length (opt_octets source.now.edns
        (response_code source.now.message.metadata.response_code)) }
    ensures small { result ≤ 65558 }
{
    HEADER + opt_len(&source.edns, source.message.metadata.response_code.code())
}

// Header, body and OPT, one behind the other.
fn assembled(
    alloc: Global,
    source: &WireMessage,
    kept: usize,
    body: &[u8],
) -> Result<Vec<u8>, AllocError>
    requires header { header_fault source.now ≡ None }
    requires opt { opt_fault source.now.edns ≡ None }
    ensures octets { IfOk result (λ v. v.items ≡ header_octets source.now kept
        ++ (body.now ++ opt_octets source.now.edns (response_code source.now.message.metadata.response_code))) }
    ensures range { OnOk result (AreInRange source.now.edns) }
{
    let mut out = Vec::with_capacity(alloc, room_around(source) + body.len())?;
    put_start(&mut out, source, kept)?;
    put_counts(&mut out, source, kept)?;
    out.extend_from_slice(body)?;
    let code = source.message.metadata.response_code.code();
    put_edns(&mut out, &source.edns, code)?;
    Ok(out)
}

// The octets of a message, so many at most.
pub(crate) fn octets_within(
    alloc: Global,
    source: &WireMessage,
    limit: usize,
) -> Result<Vec<u8>, ToWireError>
    ensures refused { Refuses result (wire_fault source.now limit) }
    ensures written { IfOk result (λ v. IsWritten source.now limit v.items) }
    ensures unique { IfOk result (λ v. (other : List ℕ) → IsWritten source.now limit other → other ≡ v.items) }
{
    check_message(source)?;
    let mut body = Vec::with_capacity(alloc, OCTETS)?;
    let mut places = Vec::with_capacity(alloc, PLACES)?;
    let queries = queries_of(source);
    add_queries(&mut body, &mut places, queries)?;
    let around = room_around(source);
    let needed = around + body.as_slice().len();
    if limit < needed {
        return Err(ToWireError::LimitTooSmall);
    }
    let kept = add_sections(alloc, &mut body, &mut places, source, limit - around)?;
    let whole = body.as_slice();
    let octets = assembled(alloc, source, kept, whole)?;
    Ok(octets)
}
