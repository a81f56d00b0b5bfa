//! Gaps: what NSEC and NSEC3 records say is not there.
ghost use Rattle.std.specs.Prelude.{◌≡◌, IfOk};
ghost use Rattle.hickory_proto_core.specs.Records.{data_of};
ghost use Rattle.synthesis.specs.Nsec3.{covers};
ghost use Rattle.trace_judge.specs.Hashed.{data_pass, is_hashed};
ghost use Rattle.trace_judge.specs.Index.{any_late};
ghost use Rattle.trace_judge.specs.MadeIndex.{gap_makes};
ghost use Rattle.trace_judge.specs.Making.{denies_as, denies_by, makes_denial};

use crate::denials::Denied;
use crate::receptions::Reception;
use hickory_proto_core::{DNSClass, Name, RData, Record};
use std::alloc::{AllocError, Global};
use synthesis::{Chain, covers, is_name_denied, is_type_denied};

/// What a record says is not there.
#[derive(Drop)]
pub enum Gap<'a> {
    /// The name, or records of a type at it, by an NSEC record.
    Between(&'a Name, Denied),
    /// A name with the hash of this owner, by an NSEC3 record of the chain.
    Hash(&'a Chain, &'a Name),
}

impl<'a> Gap<'a> {
    /// What stands behind the owner of such a record.
    pub fn name(&self) -> &Name {
        match self {
            Gap::Between(name, _) => name,
            Gap::Hash(_, hashed) => hashed,
        }
    }
}

/// Whether one of these receptions is of a record that says so, and runs out at a moment, in milliseconds, or later.
pub fn any_makes(
    alloc: Global,
    from: u64,
    dns_class: DNSClass,
    gap: &Gap,
    received: &[Reception],
) -> Result<bool, AllocError>
    ensures { IfOk result (λ made. made ≡ any_late from (gap_makes dns_class gap.now) received.now) }
{
    for r in received {
        if gap_makes(alloc, dns_class, gap, &r.found)? && from <= r.deadline() {
            return Ok(true);
        }
    }
    Ok(false)
}

// Whether a record says so.
fn gap_makes(alloc: Global, dns_class: DNSClass, gap: &Gap, by: &Record) -> Result<bool, AllocError>
    ensures { IfOk result (λ made. made ≡ gap_makes dns_class gap.now by.now) }
{
    match gap {
        Gap::Between(name, denied) => makes_denial(alloc, dns_class, name, *denied, by),
        Gap::Hash(chain, hashed) => is_covered(alloc, dns_class, chain, hashed, by),
    }
}

fn makes_denial(
    alloc: Global,
    dns_class: DNSClass,
    name: &Name,
    denied: Denied,
    by: &Record,
) -> Result<bool, AllocError>
    ensures { IfOk result (λ made. made ≡ makes_denial dns_class name.now denied by.now) }
{
    if by.dns_class == dns_class {
        denies_as(alloc, &by.name, name, denied, &by.rdata)
    } else {
        Ok(false)
    }
}

fn denies_as(
    alloc: Global,
    owner: &Name,
    name: &Name,
    denied: Denied,
    by: &RData,
) -> Result<bool, AllocError>
    ensures { IfOk result (λ made. made ≡ denies_as owner.now name.now denied (data_of by.now)) }
{
    match by {
        RData::Unknown { code, bytes } if *code == 47 => denies_by(
            alloc, owner, bytes, name, denied,
        ),
        _ => Ok(false),
    }
}

fn denies_by(
    alloc: Global,
    owner: &Name,
    bytes: &[u8],
    name: &Name,
    denied: Denied,
) -> Result<bool, AllocError>
    ensures { IfOk result (λ made. made ≡ denies_by owner.now bytes.now name.now denied) }
{
    match denied {
        Denied::WholeName => is_name_denied(alloc, owner, bytes, name),
        Denied::OneType(record_type) => is_type_denied(
            alloc,
            owner,
            bytes,
            name,
            record_type.code(),
        ),
    }
}

fn is_covered(
    alloc: Global,
    dns_class: DNSClass,
    chain: &Chain,
    hashed: &Name,
    by: &Record,
) -> Result<bool, AllocError>
    ensures { IfOk result
        (λ is. is ≡ is_hashed dns_class (covers chain.now hashed.now) by.now) }
{
    if by.dns_class == dns_class {
        is_covered_as(alloc, chain, hashed, &by.name, &by.rdata)
    } else {
        Ok(false)
    }
}

fn is_covered_as(
    alloc: Global,
    chain: &Chain,
    hashed: &Name,
    owner: &Name,
    by: &RData,
) -> Result<bool, AllocError>
    ensures { IfOk result
        (λ is. is ≡ data_pass (covers chain.now hashed.now owner.now) (data_of by.now)) }
{
    match by {
        RData::Unknown { code, bytes } if *code == 50 => {
            covers(alloc, chain, hashed, owner, bytes)
        }
        _ => Ok(false),
    }
}
