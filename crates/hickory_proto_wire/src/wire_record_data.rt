//! The data of records at a position of a message (RFC 1035, sections 3.3 and 3.4.1).
ghost use Rattle.std.specs.Prelude.{◌≡◌, length, ◌≤◌};
ghost use Rattle.hickory_proto_names.specs.Name.{label_bytes};
ghost use Rattle.hickory_proto_core.specs.Records.{data_of};
ghost use Rattle.hickory_proto_wire.specs.Octets.{Gives};
ghost use Rattle.hickory_proto_wire.specs.ReadNames.{IsFront};
ghost use Rattle.hickory_proto_wire.specs.RecordData.{a_at, half_at, aaaa_at, cname_at, ns_at, ptr_at, mx_at, srv_at, times_at, soa_at, string_at, strings_at, txt_at, unknown_at, data_at, record_data_at};

use crate::old_data::{parts_at, parts_of};
use crate::read_names::ReadNames;
use crate::reader::{octet_at, octets_at, u16_at, u32_at};
use crate::wire_error::{WireError, WireFault};
use crate::wire_name::name_at;
use hickory_proto_core::RData;
use std::alloc::Global;
use std::net::{Ipv4Addr, Ipv6Addr};

// The numbers of SOA data.
#[derive(Clone, Copy, Debug)]
pub(crate) struct Times {
    pub(crate) serial: u32,
    pub(crate) refresh: u32,
    pub(crate) retry: u32,
    pub(crate) expire: u32,
    pub(crate) minimum: u32,
}

#[tactic(auto, unfolding(crate::specs::RecordData::a_at))]
fn a_at(bytes: &[u8], at: usize) -> Result<(RData, usize), WireError>
    ensures { Gives (λ x. (data_of x.0, x.1)) result (a_at bytes.now at) }
{
    let (a, at) = octet_at(bytes, at)?;
    let (b, at) = octet_at(bytes, at)?;
    let (c, at) = octet_at(bytes, at)?;
    let (d, at) = octet_at(bytes, at)?;
    Ok((RData::A(Ipv4Addr::new(a, b, c, d)), at))
}

// Half of an IPv6 address.
#[tactic(auto, unfolding(crate::specs::RecordData::half_at))]
fn half_at(bytes: &[u8], at: usize) -> Result<((u16, u16, u16, u16), usize), WireError>
    ensures { Gives (λ x. x) result (half_at bytes.now at) }
{
    let (a, at) = u16_at(bytes, at)?;
    let (b, at) = u16_at(bytes, at)?;
    let (c, at) = u16_at(bytes, at)?;
    let (d, at) = u16_at(bytes, at)?;
    Ok(((a, b, c, d), at))
}

#[tactic(auto, unfolding(crate::specs::RecordData::aaaa_at))]
fn aaaa_at(bytes: &[u8], at: usize) -> Result<(RData, usize), WireError>
    ensures { Gives (λ x. (data_of x.0, x.1)) result (aaaa_at bytes.now at) }
{
    let ((a, b, c, d), at) = half_at(bytes, at)?;
    let ((e, f, g, h), at) = half_at(bytes, at)?;
    Ok((RData::AAAA(Ipv6Addr::new(a, b, c, d, e, f, g, h)), at))
}

#[tactic(auto, unfolding(crate::specs::RecordData::cname_at))]
fn cname_at(names: &mut ReadNames<'_>, bytes: &[u8], at: usize) -> Result<(RData, usize), WireError>
    requires { IsFront bytes.now names.old }
    ensures exact { Gives (λ x. (data_of x.0, x.1)) result (cname_at bytes.now at) }
    ensures same { names.new ≡ names.old }
{
    let (target, at) = name_at(names, bytes, at)?;
    Ok((RData::CNAME(target), at))
}

#[tactic(auto, unfolding(crate::specs::RecordData::ns_at))]
fn ns_at(names: &mut ReadNames<'_>, bytes: &[u8], at: usize) -> Result<(RData, usize), WireError>
    requires { IsFront bytes.now names.old }
    ensures exact { Gives (λ x. (data_of x.0, x.1)) result (ns_at bytes.now at) }
    ensures same { names.new ≡ names.old }
{
    let (target, at) = name_at(names, bytes, at)?;
    Ok((RData::NS(target), at))
}

#[tactic(auto, unfolding(crate::specs::RecordData::ptr_at))]
fn ptr_at(names: &mut ReadNames<'_>, bytes: &[u8], at: usize) -> Result<(RData, usize), WireError>
    requires { IsFront bytes.now names.old }
    ensures exact { Gives (λ x. (data_of x.0, x.1)) result (ptr_at bytes.now at) }
    ensures same { names.new ≡ names.old }
{
    let (target, at) = name_at(names, bytes, at)?;
    Ok((RData::PTR(target), at))
}

#[tactic(auto, unfolding(crate::specs::RecordData::mx_at))]
fn mx_at(names: &mut ReadNames<'_>, bytes: &[u8], at: usize) -> Result<(RData, usize), WireError>
    requires { IsFront bytes.now names.old }
    ensures exact { Gives (λ x. (data_of x.0, x.1)) result (mx_at bytes.now at) }
    ensures same { names.new ≡ names.old }
{
    let (preference, at) = u16_at(bytes, at)?;
    let (exchange, at) = name_at(names, bytes, at)?;
    Ok((
        RData::MX {
            preference,
            exchange,
        },
        at,
    ))
}

#[tactic(auto, unfolding(crate::specs::RecordData::srv_at))]
fn srv_at(names: &mut ReadNames<'_>, bytes: &[u8], at: usize) -> Result<(RData, usize), WireError>
    requires { IsFront bytes.now names.old }
    ensures exact { Gives (λ x. (data_of x.0, x.1)) result (srv_at bytes.now at) }
    ensures same { names.new ≡ names.old }
{
    let (priority, at) = u16_at(bytes, at)?;
    let (weight, at) = u16_at(bytes, at)?;
    let (port, at) = u16_at(bytes, at)?;
    let (target, at) = name_at(names, bytes, at)?;
    Ok((
        RData::SRV {
            priority,
            weight,
            port,
            target,
        },
        at,
    ))
}

#[tactic(auto, unfolding(crate::specs::RecordData::times_at))]
fn times_at(bytes: &[u8], at: usize) -> Result<(Times, usize), WireError>
    ensures { Gives (λ x. x) result (times_at bytes.now at) }
{
    let (serial, at) = u32_at(bytes, at)?;
    let (refresh, at) = u32_at(bytes, at)?;
    let (retry, at) = u32_at(bytes, at)?;
    let (expire, at) = u32_at(bytes, at)?;
    let (minimum, at) = u32_at(bytes, at)?;
    Ok((
        Times {
            serial,
            refresh,
            retry,
            expire,
            minimum,
        },
        at,
    ))
}

#[tactic(auto, unfolding(crate::specs::RecordData::soa_at))]
fn soa_at(names: &mut ReadNames<'_>, bytes: &[u8], at: usize) -> Result<(RData, usize), WireError>
    requires { IsFront bytes.now names.old }
    ensures exact { Gives (λ x. (data_of x.0, x.1)) result (soa_at bytes.now at) }
    ensures same { names.new ≡ names.old }
{
    let (mname, at) = name_at(names, bytes, at)?;
    let (rname, at) = name_at(names, bytes, at)?;
    let (times, at) = times_at(bytes, at)?;
    Ok((
        RData::SOA {
            mname,
            rname,
            serial: times.serial,
            refresh: times.refresh,
            retry: times.retry,
            expire: times.expire,
            minimum: times.minimum,
        },
        at,
    ))
}

#[tactic(auto, unfolding(crate::specs::RecordData::string_at))]
fn string_at(alloc: Global, bytes: &[u8], at: usize) -> Result<(Vec<u8>, usize), WireError>
    ensures { Gives (λ x. (x.0.items, x.1)) result (string_at bytes.now at) }
{
    let (len, at) = octet_at(bytes, at)?;
    let (octets, at) = octets_at(usize::from(len), bytes, at)?;
    Ok((Vec::from_slice(alloc, octets)?, at))
}

#[tactic(auto, unfolding(crate::specs::RecordData::strings_at))]
fn strings_at(alloc: Global, bytes: &[u8], at: usize) -> Result<(Vec<Vec<u8>>, usize), WireError>
    ensures { Gives (λ x. (label_bytes x.0.items, x.1)) result (strings_at (length bytes.now) bytes.now at) }
{
    let mut strings = Vec::new(alloc);
    let mut at = at;
    for _ in 0..bytes.len() {
        if bytes.len() <= at {
            return Ok((strings, at));
        }
        let (string, after) = string_at(alloc, bytes, at)?;
        strings.push(string)?;
        at = after;
    }
    Ok((strings, at))
}

#[tactic(auto, unfolding(crate::specs::RecordData::txt_at))]
fn txt_at(alloc: Global, bytes: &[u8], at: usize) -> Result<(RData, usize), WireError>
    ensures { Gives (λ x. (data_of x.0, x.1)) result (txt_at bytes.now at) }
{
    let (strings, at) = strings_at(alloc, bytes, at)?;
    Ok((RData::TXT(strings), at))
}

#[tactic(auto, unfolding(crate::specs::RecordData::unknown_at))]
fn unknown_at(
    alloc: Global,
    code: u16,
    bytes: &[u8],
    at: usize,
) -> Result<(RData, usize), WireError>
    ensures { Gives (λ x. (data_of x.0, x.1)) result (unknown_at code bytes.now at) }
{
    let (bytes, at) = parts_at(alloc, parts_of(code), bytes, at)?;
    Ok((RData::Unknown { code, bytes }, at))
}

#[tactic(auto, unfolding(crate::specs::RecordData::data_at))]
fn data_at(
    names: &mut ReadNames<'_>,
    code: u16,
    bytes: &[u8],
    at: usize,
) -> Result<(RData, usize), WireError>
    requires { IsFront bytes.now names.old }
    ensures exact { Gives (λ x. (data_of x.0, x.1)) result (data_at code bytes.now at) }
    ensures same { names.new ≡ names.old }
{
    match code {
        1 => a_at(bytes, at),
        2 => ns_at(names, bytes, at),
        5 => cname_at(names, bytes, at),
        6 => soa_at(names, bytes, at),
        12 => ptr_at(names, bytes, at),
        15 => mx_at(names, bytes, at),
        16 => txt_at(names.alloc(), bytes, at),
        28 => aaaa_at(bytes, at),
        33 => srv_at(names, bytes, at),
        _ => unknown_at(names.alloc(), code, bytes, at),
    }
}

// The data between two positions.
#[tactic(auto, unfolding(crate::specs::RecordData::record_data_at))]
pub(crate) fn record_data_at(
    names: &mut ReadNames<'_>,
    code: u16,
    bytes: &[u8],
    start: usize,
    end: usize,
) -> Result<RData, WireError>
    requires front { IsFront bytes.now names.old }
    requires within { end ≤ length bytes.now }
    ensures exact { Gives data_of result (record_data_at code bytes.now start end) }
    ensures same { names.new ≡ names.old }
{
    let (front, _) = bytes.split_at(end);
    let (rdata, behind) = data_at(names, code, front, start)?;
    if behind != end {
        return Err(WireError::Fault(WireFault::TrailingData));
    }
    Ok(rdata)
}
