//! What a resolver may make by itself of what it received, and what it has of its own.
ghost use Rattle.std.specs.Prelude.{◌≡◌, ◌&&◌, ◌==◌, ◌+◌, ◌≤◌, IfOk, OnOk, length};
ghost use Rattle.std.specs.List.{list_any};
ghost use Rattle.std.specs.Net.Addr.{ipv6_octets, ipv6_segments};
ghost use Rattle.hickory_proto_core.specs.Codes.{class_code};
ghost use Rattle.hickory_proto_core.specs.Name.{name_eq};
ghost use Rattle.hickory_proto_core.specs.Records.{data_of};
ghost use Rattle.trace_judge.specs.Evidence.{EvidenceValue};
ghost use Rattle.trace_judge.specs.Index.{Stands, any_late};
ghost use Rattle.trace_judge.specs.MadeIndex.{address_key, behind, embeds, inside, is_address_made_by, is_address_made_in, is_alias_made_at, is_alias_made_in, is_data_made_in, late, makes_address_by};
ghost use Rattle.trace_judge.specs.Making.{has_own_name, is_denial_made, is_made, is_own, lasts, leads_as, makes_alias, makes_denial};
ghost use Rattle.trace_judge.specs.RecordKeys.{first_four};
ghost use Rattle.trace_judge.specs.Receptions.{is_same_record};

use crate::denials::{Denied, last_name};
use crate::denied::{label_count, trimmed, type_key};
use crate::event::{Moment, Reply};
use crate::evidence::Evidence;
use crate::facts::denial_reach;
use crate::gap::Gap;
use crate::hashed::is_denied_hashed;
use crate::owners::any_owner;
use crate::receptions::{Reception, grace, is_same_record, reach};
use crate::record_key::{RecordKey, octets_key};
use hickory_proto_core::{DNSClass, Name, RData, Record, RecordType};
use std::alloc::{AllocError, Global};
use std::net::Ipv6Addr;
use synthesis::{Prefix, is_embedded, is_substitution};

/// Whether the resolver may make a record by itself, or has it of its own.
pub fn is_made(evidence: &Evidence, now: Moment, told: &Record) -> Result<bool, AllocError>
    ensures { (e : EvidenceValue) → Stands e evidence.now
        → IfOk result (λ made. made ≡ is_made e now told.now) }
{
    if is_own(evidence.own, told) {
        return Ok(true);
    }
    is_data_made(evidence, late(evidence, reach(now, told.ttl)), told)
}

/// What may be kept until a moment runs out at this one or later, both in milliseconds.
pub fn late(evidence: &Evidence, until: u64) -> u64
    ensures { result ≡ late evidence.now until }
{
    until
        .saturating_sub(grace(evidence.slack))
        .max(evidence.oldest)
}

fn is_own(own: &[Record], told: &Record) -> bool
    ensures { result ≡ is_own own.now told.now }
{
    own.iter().any(|r| is_same_record(r, told))
}

/// Whether the resolver has records of its own with this name.
pub fn has_own_name(own: &[Record], dns_class: DNSClass, name: &Name) -> bool
    ensures { result ≡ has_own_name own.now dns_class name.now }
{
    own.iter().any(|r| is_named(r, dns_class, name))
}

fn is_named(r: &Record, dns_class: DNSClass, name: &Name) -> bool
    ensures { result ≡ (class_code r.now.dns_class == class_code dns_class) && name_eq r.now.name name.now }
{
    r.dns_class == dns_class && r.name == *name
}

fn is_data_made(evidence: &Evidence, from: u64, told: &Record) -> Result<bool, AllocError>
    ensures { IfOk result (λ made. made ≡ is_data_made_in evidence.now from told.now told.now.rdata) }
{
    match &told.rdata {
        RData::CNAME(target) => is_alias_made(evidence, from, told, target),
        RData::AAAA(address) => is_address_made(evidence, from, told, address),
        _ => Ok(false),
    }
}

// ---- DNAME

fn is_alias_made(
    evidence: &Evidence,
    from: u64,
    told: &Record,
    target: &Name,
) -> Result<bool, AllocError>
    ensures { IfOk result (λ made. made ≡ is_alias_made_in evidence.now from told.now target.now) }
{
    let mut made = false;
    for count in 0..label_count(&told.name) {
        made = is_alias_made_at(evidence, from, told, target, count)? || made;
    }
    Ok(made)
}

fn is_alias_made_at(
    evidence: &Evidence,
    from: u64,
    told: &Record,
    target: &Name,
    count: usize,
) -> Result<bool, AllocError>
    ensures { IfOk result (λ made. made ≡ is_alias_made_at evidence.now from told.now target.now count) }
{
    let owner = trimmed(&told.name, count)?;
    let key = type_key(told.dns_class, &owner, RecordType::from(39))?;
    any_makes_alias(
        evidence.alloc,
        from,
        told,
        target,
        count,
        evidence.seen.sought(key),
    )
}

fn any_makes_alias(
    alloc: Global,
    from: u64,
    told: &Record,
    target: &Name,
    count: usize,
    received: &[Reception],
) -> Result<bool, AllocError>
    ensures { IfOk result
        (λ made. made ≡ any_late from (makes_alias told.now target.now count) received.now) }
{
    for r in received {
        if makes_alias(alloc, told, target, count, &r.found)? && from <= r.deadline() {
            return Ok(true);
        }
    }
    Ok(false)
}

fn makes_alias(
    alloc: Global,
    told: &Record,
    target: &Name,
    count: usize,
    by: &Record,
) -> Result<bool, AllocError>
    ensures { IfOk result (λ made. made ≡ makes_alias told.now target.now count by.now) }
{
    let owner = trimmed(&told.name, count)?;
    if is_named(by, told.dns_class, &owner) {
        leads_as(alloc, &told.name, count, target, &by.rdata)
    } else {
        Ok(false)
    }
}

fn leads_as(
    alloc: Global,
    name: &Name,
    count: usize,
    target: &Name,
    by: &RData,
) -> Result<bool, AllocError>
    ensures { IfOk result (λ made. made ≡ leads_as name.now count target.now (data_of by.now)) }
{
    match by {
        RData::Unknown { code, bytes } if *code == 39 => {
            is_substitution(alloc, name, count, target, bytes)
        }
        _ => Ok(false),
    }
}

// ---- DNS64

fn is_address_made(
    evidence: &Evidence,
    from: u64,
    told: &Record,
    address: &Ipv6Addr,
) -> Result<bool, AllocError>
    ensures { IfOk result
        (λ made. made ≡ is_address_made_in evidence.now from told.now (ipv6_segments address.now)) }
{
    any_prefix_makes(evidence, from, told, address, evidence.dns64)
}

// Whether the address may be made with some of these prefixes.
fn any_prefix_makes(
    evidence: &Evidence,
    from: u64,
    told: &Record,
    address: &Ipv6Addr,
    prefixes: &[Prefix],
) -> Result<bool, AllocError>
    ensures { IfOk result (λ made. made
        ≡ list_any (is_address_made_by evidence.now from told.now (ipv6_segments address.now)) prefixes.now) }
{
    for prefix in prefixes {
        if is_address_made_by(evidence, from, told, address, prefix)? {
            return Ok(true);
        }
    }
    Ok(false)
}

fn is_address_made_by(
    evidence: &Evidence,
    from: u64,
    told: &Record,
    address: &Ipv6Addr,
    prefix: &Prefix,
) -> Result<bool, AllocError>
    ensures { IfOk result (λ made. made
        ≡ is_address_made_by evidence.now from told.now (ipv6_segments address.now) prefix.now) }
{
    let key = address_key(evidence.alloc, prefix, told, address)?;
    let received = evidence.seen.of(&key);
    any_makes_address(evidence.alloc, from, prefix, told, address, received)
}

// The key of the A records that can make the address with a prefix.
fn address_key(
    alloc: Global,
    prefix: &Prefix,
    told: &Record,
    address: &Ipv6Addr,
) -> Result<RecordKey, AllocError>
    ensures { IfOk result (λ k. k ≡ address_key prefix.now told.now (ipv6_segments address.now)) }
{
    let query = type_key(told.dns_class, &told.name, RecordType::A)?;
    let octets = octets_inside(alloc, prefix, address)?;
    Ok(octets_key(alloc, query, octets))
}

// The octets of the IPv4 address that an IPv6 address has inside, with this prefix.
fn octets_inside(alloc: Global, prefix: &Prefix, address: &Ipv6Addr) -> Result<Vec<u8>, AllocError>
    ensures { IfOk result (λ octets. octets.items
        ≡ first_four (inside prefix.now.octets (behind prefix.now (ipv6_octets address.now)))) }
{
    let octets = address.octets();
    let rest = behind(prefix, &octets);
    let mut found = inside(alloc, usize::from(prefix.octets), rest)?;
    keep_four(&mut found)?;
    Ok(found)
}

// What stands behind the octets of a prefix that count.
fn behind<'a>(prefix: &Prefix, octets: &'a [u8; 16]) -> &'a [u8]
    ensures value { result.now ≡ behind prefix.now octets.now }
    ensures length { 16 ≤ prefix.now.octets + length result.now }
{
    let front = prefix.address.octets();
    let count = front.len().min(usize::from(prefix.octets));
    &octets[count..]
}

// The IPv4 address there: all of it, or what stands around the ninth octet of the sixteen (RFC 6052, section 2.2).
fn inside(alloc: Global, count: usize, rest: &[u8]) -> Result<Vec<u8>, AllocError>
    requires { 16 ≤ count + length rest.now }
    ensures { IfOk result (λ octets. octets.items ≡ inside count rest.now) }
{
    let mut octets = Vec::new(alloc);
    if count == 12 {
        octets.extend_from_slice(rest)?;
        return Ok(octets);
    }
    octets.extend_from_slice(&rest[..8_usize.saturating_sub(count)])?;
    octets.extend_from_slice(&rest[9_usize.saturating_sub(count)..])?;
    Ok(octets)
}

fn keep_four(octets: &mut Vec<u8>) -> Result<(), AllocError>
    ensures { OnOk result (octets.new.items ≡ first_four octets.old.items) }
{
    octets.extend_from_slice(&[0; 4])?;
    octets.truncate(4);
    Ok(())
}

fn any_makes_address(
    alloc: Global,
    from: u64,
    prefix: &Prefix,
    told: &Record,
    address: &Ipv6Addr,
    received: &[Reception],
) -> Result<bool, AllocError>
    ensures { IfOk result (λ made. made
        ≡ any_late from (makes_address_by told.now (ipv6_segments address.now) prefix.now) received.now) }
{
    for r in received {
        if makes_address_by(alloc, told, address, prefix, &r.found)? && from <= r.deadline() {
            return Ok(true);
        }
    }
    Ok(false)
}

fn makes_address_by(
    alloc: Global,
    told: &Record,
    address: &Ipv6Addr,
    prefix: &Prefix,
    by: &Record,
) -> Result<bool, AllocError>
    ensures { IfOk result
        (λ made. made ≡ makes_address_by told.now (ipv6_segments address.now) prefix.now by.now) }
{
    if is_named(by, told.dns_class, &told.name) {
        embeds(alloc, prefix, address, &by.rdata)
    } else {
        Ok(false)
    }
}

fn embeds(
    alloc: Global,
    prefix: &Prefix,
    address: &Ipv6Addr,
    by: &RData,
) -> Result<bool, AllocError>
    ensures { IfOk result
        (λ made. made ≡ embeds prefix.now (ipv6_segments address.now) (data_of by.now)) }
{
    match by {
        RData::A(embedded) => is_embedded(alloc, prefix, embedded, address),
        _ => Ok(false),
    }
}

// ---- denials

/// Whether the resolver may make a denial by itself, or has records of its own with its name.
pub fn is_denial_made(
    evidence: &Evidence,
    now: Moment,
    reply: &Reply,
    denied: Denied,
) -> Result<bool, AllocError>
    ensures { (e : EvidenceValue) → Stands e evidence.now
        → IfOk result (λ made. made ≡ is_denial_made e now reply.now denied) }
{
    let dns_class = reply.query.query_class;
    let name = last_name(&reply.query, &reply.answers);
    if has_own_name(evidence.own, dns_class, name) {
        return Ok(true);
    }
    let until = denial_reach(now, reply);
    if is_denied_between(evidence, until, dns_class, name, denied)? {
        return Ok(true);
    }
    is_denied_hashed(evidence, until, dns_class, name, denied)
}

// Whether an NSEC record makes a denial, for so long.
fn is_denied_between(
    evidence: &Evidence,
    until: u64,
    dns_class: DNSClass,
    name: &Name,
    denied: Denied,
) -> Result<bool, AllocError>
    ensures { (e : EvidenceValue) → Stands e evidence.now
        → IfOk result (λ made. made ≡ lasts e until (makes_denial dns_class name.now denied)) }
{
    let gap = Gap::Between(name, denied);
    let from = late(evidence, until);
    any_owner(evidence.alloc, from, dns_class, &gap, evidence.gaps.nsec())
}
