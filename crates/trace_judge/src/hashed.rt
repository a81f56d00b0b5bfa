//! Denials that are made of NSEC3 records (RFC 5155, section 8; RFC 8198, section 5.2).
ghost use Rattle.std.specs.Prelude.{◌≡◌, ◌<◌, ◌^◌, true, IfOk, length};
ghost use Rattle.hickory_proto_core.specs.Name.{NameValue, trimmed_name};
ghost use Rattle.hickory_proto_core.specs.Records.{data_of};
ghost use Rattle.synthesis.specs.Nsec3.{covers, encloses, is_bare};
ghost use Rattle.trace_judge.specs.Below.{some_below};
ghost use Rattle.trace_judge.specs.Evidence.{EvidenceValue};
ghost use Rattle.trace_judge.specs.Hashed.{data_pass, is_denied_hashed, is_denied_in, is_encloser, is_hashed, is_missing, is_of_chain, is_without, says, says_if, wild_test};
ghost use Rattle.trace_judge.specs.Index.{Stands, any_late};
ghost use Rattle.trace_judge.specs.MadeIndex.{is_kept_chain, late, said_test};
ghost use Rattle.trace_judge.specs.Making.{lasts};

use crate::denials::Denied;
use crate::denied::{label_count, trimmed, type_key};
use crate::evidence::Evidence;
use crate::gap::Gap;
use crate::making::late;
use crate::owners::any_owner;
use crate::receptions::Reception;
use hickory_proto_core::{DNSClass, Name, RData, Record, RecordType};
use std::alloc::AllocError;
use synthesis::{Chain, encloses, hashed_owner, is_bare, read_chain};

// What a record says of the hash that is its owner.
#[derive(Clone, Copy)]
enum Says {
    // The name with it encloses others.
    Encloses,
    // The name with it has no records of a type, by its code.
    IsBare(u16),
}

/// Whether NSEC3 records make a denial, for so long.
pub fn is_denied_hashed(
    evidence: &Evidence,
    until: u64,
    dns_class: DNSClass,
    name: &Name,
    denied: Denied,
) -> Result<bool, AllocError>
    ensures { (e : EvidenceValue) → Stands e evidence.now → IfOk result
        (λ made. made ≡ is_denied_hashed (lasts e until) dns_class name.now denied) }
{
    for count in 0..label_count(name) + 1 {
        if is_denied_at(evidence, until, dns_class, name, denied, count)? {
            return Ok(true);
        }
    }
    Ok(false)
}

// The same in a zone that is so many of the name's last labels.
fn is_denied_at(
    evidence: &Evidence,
    until: u64,
    dns_class: DNSClass,
    name: &Name,
    denied: Denied,
    count: usize,
) -> Result<bool, AllocError>
    ensures { (e : EvidenceValue) → Stands e evidence.now → IfOk result
        (λ made. made ≡ lasts e until (is_of_chain dns_class (trimmed_name count name.now)
        (is_denied_in (lasts e until) dns_class name.now denied))) }
{
    let zone = trimmed(name, count)?;
    let key = type_key(dns_class, &zone, RecordType::from(51))?;
    let received = evidence.gaps.chains().sought(key);
    any_chain(evidence, until, dns_class, name, denied, &zone, received)
}

fn any_chain(
    evidence: &Evidence,
    until: u64,
    dns_class: DNSClass,
    name: &Name,
    denied: Denied,
    zone: &Name,
    received: &[Reception],
) -> Result<bool, AllocError>
    ensures { (e : EvidenceValue) → Stands e evidence.now → IfOk result
        (λ made. made ≡ any_late (late evidence.now until) (is_kept_chain dns_class zone.now
        (is_denied_in (lasts e until) dns_class name.now denied)) received.now) }
{
    let from = late(evidence, until);
    for r in received {
        if from <= r.deadline()
            && is_denied_by(evidence, until, dns_class, name, denied, zone, &r.found)?
        {
            return Ok(true);
        }
    }
    Ok(false)
}

// The same of the chain that such a record is kept for.
fn is_denied_by(
    evidence: &Evidence,
    until: u64,
    dns_class: DNSClass,
    name: &Name,
    denied: Denied,
    zone: &Name,
    by: &Record,
) -> Result<bool, AllocError>
    ensures { (e : EvidenceValue) → Stands e evidence.now → IfOk result
        (λ made. made ≡ is_kept_chain dns_class zone.now
        (is_denied_in (lasts e until) dns_class name.now denied) by.now) }
{
    if by.dns_class != dns_class || by.name != *zone {
        return Ok(false);
    }
    let RData::Unknown { code, bytes } = &by.rdata else {
        return Ok(false);
    };
    if *code != 51 {
        return Ok(false);
    }
    match read_chain(evidence.alloc, zone, bytes)? {
        Some(chain) => is_denied_in(evidence, until, dns_class, name, denied, &chain),
        None => Ok(false),
    }
}

fn is_denied_in(
    evidence: &Evidence,
    until: u64,
    dns_class: DNSClass,
    name: &Name,
    denied: Denied,
    chain: &Chain,
) -> Result<bool, AllocError>
    ensures { (e : EvidenceValue) → Stands e evidence.now → IfOk result
        (λ made. made ≡ is_denied_in (lasts e until) dns_class name.now denied chain.now) }
{
    if is_without(evidence, until, dns_class, chain, name, denied)? {
        return Ok(true);
    }
    is_any_missing(evidence, until, dns_class, chain, name, denied)
}

// Whether the name is not there, and what its wildcard would stand for is not either.
fn is_any_missing(
    evidence: &Evidence,
    until: u64,
    dns_class: DNSClass,
    chain: &Chain,
    name: &Name,
    denied: Denied,
) -> Result<bool, AllocError>
    ensures { (e : EvidenceValue) → Stands e evidence.now → IfOk result
        (λ missing. missing ≡ some_below (length name.now.labels)
        (is_missing (lasts e until) dns_class chain.now name.now denied)) }
{
    for count in 0..label_count(name) {
        if is_missing(evidence, until, dns_class, chain, name, denied, count)? {
            return Ok(true);
        }
    }
    Ok(false)
}

fn is_missing(
    evidence: &Evidence,
    until: u64,
    dns_class: DNSClass,
    chain: &Chain,
    name: &Name,
    denied: Denied,
    count: usize,
) -> Result<bool, AllocError>
    requires { count < 2 ^ 63 }
    ensures { (e : EvidenceValue) → Stands e evidence.now → IfOk result
        (λ missing. missing ≡ is_missing (lasts e until) dns_class chain.now name.now denied count) }
{
    let closest = trimmed(name, count)?;
    let closer = trimmed(name, count + 1)?;
    if !is_said(
        evidence,
        until,
        dns_class,
        chain,
        false,
        &closest,
        Says::Encloses,
    )? {
        return Ok(false);
    }
    if !is_hash_covered(evidence, until, dns_class, chain, false, &closer)? {
        return Ok(false);
    }
    is_wild_denied(evidence, until, dns_class, chain, &closest, denied)
}

// Whether the wildcard of a name is not there, or is without the type.
fn is_wild_denied(
    evidence: &Evidence,
    until: u64,
    dns_class: DNSClass,
    chain: &Chain,
    closest: &Name,
    denied: Denied,
) -> Result<bool, AllocError>
    ensures { (e : EvidenceValue) → Stands e evidence.now → IfOk result
        (λ is. is ≡ says (lasts e until) dns_class chain.now true closest.now
        (wild_test chain.now denied)) }
{
    match denied {
        Denied::WholeName => is_hash_covered(evidence, until, dns_class, chain, true, closest),
        Denied::OneType(t) => {
            let bare = Says::IsBare(t.code());
            is_said(evidence, until, dns_class, chain, true, closest, bare)
        }
    }
}

// Whether the name is there, and is without the type.
fn is_without(
    evidence: &Evidence,
    until: u64,
    dns_class: DNSClass,
    chain: &Chain,
    name: &Name,
    denied: Denied,
) -> Result<bool, AllocError>
    ensures { (e : EvidenceValue) → Stands e evidence.now → IfOk result
        (λ is. is ≡ is_without (lasts e until) dns_class chain.now name.now denied) }
{
    match denied {
        Denied::WholeName => Ok(false),
        Denied::OneType(t) => {
            let bare = Says::IsBare(t.code());
            is_said(evidence, until, dns_class, chain, false, name, bare)
        }
    }
}

// Whether the record of a name, or of its wildcard, says this of it.
fn is_said(
    evidence: &Evidence,
    until: u64,
    dns_class: DNSClass,
    chain: &Chain,
    star: bool,
    name: &Name,
    wanted: Says,
) -> Result<bool, AllocError>
    ensures { (e : EvidenceValue) → Stands e evidence.now → IfOk result
        (λ is. is ≡ says (lasts e until) dns_class chain.now star name.now
        (said_test chain.now wanted)) }
{
    let Some(hashed) = hashed_owner(evidence.alloc, chain, star, name)? else {
        return Ok(false);
    };
    let key = type_key(dns_class, &hashed, RecordType::from(50))?;
    let from = late(evidence, until);
    Ok(any_says(
        from,
        dns_class,
        chain,
        &hashed,
        wanted,
        evidence.seen.sought(key),
    ))
}

fn any_says(
    from: u64,
    dns_class: DNSClass,
    chain: &Chain,
    hashed: &Name,
    wanted: Says,
    received: &[Reception],
) -> bool
    ensures { result ≡ any_late from
        (is_hashed dns_class (said_test chain.now wanted hashed.now)) received.now }
{
    received.iter().any(|r| {
        is_saying(dns_class, chain, hashed, wanted, &r.found) && from <= r.deadline()
    })
}

fn is_saying(dns_class: DNSClass, chain: &Chain, hashed: &Name, wanted: Says, by: &Record) -> bool
    ensures { result ≡ is_hashed dns_class (said_test chain.now wanted hashed.now) by.now }
{
    by.dns_class == dns_class && data_says(chain, hashed, wanted, &by.name, &by.rdata)
}

fn data_says(chain: &Chain, hashed: &Name, wanted: Says, owner: &Name, by: &RData) -> bool
    ensures { result
        ≡ data_pass (said_test chain.now wanted hashed.now owner.now) (data_of by.now) }
{
    match by {
        RData::Unknown { code, bytes } if *code == 50 => match wanted {
            Says::Encloses => encloses(chain, hashed, owner, bytes),
            Says::IsBare(code) => is_bare(chain, hashed, code, owner, bytes),
        },
        _ => false,
    }
}

// Whether a record says that no name has the hash of this one, or of its wildcard.
fn is_hash_covered(
    evidence: &Evidence,
    until: u64,
    dns_class: DNSClass,
    chain: &Chain,
    star: bool,
    name: &Name,
) -> Result<bool, AllocError>
    ensures { (e : EvidenceValue) → Stands e evidence.now → IfOk result
        (λ is. is ≡ says (lasts e until) dns_class chain.now star name.now (covers chain.now)) }
{
    let Some(hashed) = hashed_owner(evidence.alloc, chain, star, name)? else {
        return Ok(false);
    };
    let gap = Gap::Hash(chain, &hashed);
    let from = late(evidence, until);
    any_owner(evidence.alloc, from, dns_class, &gap, evidence.gaps.nsec3())
}
