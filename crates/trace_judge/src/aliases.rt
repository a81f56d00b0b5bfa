//! Aliases that led from a name to another, and whether they had run out.
ghost use Rattle.std.specs.Prelude.{◌≡◌, IfOk, option_copied};
ghost use Rattle.std.specs.List.{list_any};
ghost use Rattle.trace_judge.specs.Aliases.{is_alias_outlived};
ghost use Rattle.trace_judge.specs.Evidence.{EvidenceValue};
ghost use Rattle.trace_judge.specs.Index.{Stands, alias_key, alias_step, leads_in, leads_in_by, seen_at};
ghost use Rattle.trace_judge.specs.Trace.{milliseconds_of};

use crate::denials::{alias_target, is_same_name};
use crate::denied::type_key;
use crate::event::Moment;
use crate::evidence::Evidence;
use crate::receptions::{Reception, grace};
use crate::sightings::Sightings;
use hickory_proto_core::{DNSClass, Name, Query, RecordType};
use std::alloc::AllocError;

// How many aliases are followed one after another.
const HOPS: u8 = 16;

/// Whether aliases led from the name of a question to another name, and no such chain of them is current at a moment.
pub fn is_alias_outlived(
    evidence: &Evidence,
    now: Moment,
    query: &Query,
    owner: &Name,
) -> Result<bool, AllocError>
    ensures { (e : EvidenceValue) → Stands e evidence.now
        → IfOk result (λ outlived. outlived
        ≡ is_alias_outlived e.slack e.received (milliseconds_of now) query.now owner.now) }
{
    let class = query.query_class;
    let oldest = evidence.oldest;
    let current = now
        .in_milliseconds()
        .saturating_sub(grace(evidence.slack))
        .max(oldest);
    let seen = evidence.seen;
    let led = leads(HOPS, oldest, seen, class, &query.name, owner)?;
    let leads = leads(HOPS, current, seen, class, &query.name, owner)?;
    Ok(led && !leads)
}

// Whether at most so many aliases that run out at a moment, in milliseconds, or later lead from a name to another.
#[cycle(leading)]
fn leads(
    hops: u8,
    until: u64,
    seen: &Sightings,
    class: DNSClass,
    from: &Name,
    to: &Name,
) -> Result<bool, AllocError>
    ensures { IfOk result (λ led. led ≡ leads_in until seen.now class to.now hops from.now) }
{
    if is_same_name(from, to) {
        return Ok(true);
    }
    if hops == 0 {
        return Ok(false);
    }
    let aliases = aliases_of(seen, class, from)?;
    any_leads(hops - 1, until, seen, class, from, to, aliases)
}

// The aliases of a name that were received.
fn aliases_of<'a>(
    seen: &'a Sightings,
    class: DNSClass,
    name: &Name,
) -> Result<&'a [Reception], AllocError>
    ensures { IfOk result (λ rs. rs.now ≡ seen_at seen.now (alias_key class name.now)) }
{
    Ok(seen.sought(type_key(class, name, RecordType::CNAME)?))
}

// Whether some of these aliases leads on from a name, and so many more to another.
#[cycle(leading)]
fn any_leads(
    hops: u8,
    until: u64,
    seen: &Sightings,
    class: DNSClass,
    from: &Name,
    to: &Name,
    aliases: &[Reception],
) -> Result<bool, AllocError>
    ensures { IfOk result
        (λ led. led ≡ list_any (leads_in_by until seen.now class to.now hops from.now) aliases.now) }
{
    for r in aliases {
        if leads_by(hops, until, seen, class, from, to, r)? {
            return Ok(true);
        }
    }
    Ok(false)
}

// Whether this alias leads on from a name, and so many more to another.
#[cycle(leading)]
fn leads_by(
    hops: u8,
    until: u64,
    seen: &Sightings,
    class: DNSClass,
    from: &Name,
    to: &Name,
    r: &Reception,
) -> Result<bool, AllocError>
    ensures { IfOk result (λ led. led ≡ leads_in_by until seen.now class to.now hops from.now r.now) }
{
    match alias_step(until, class, from, r) {
        Some(target) => leads(hops, until, seen, class, target, to),
        None => Ok(false),
    }
}

// Where a reception of an alias that runs out at a moment or later leads from a name.
fn alias_step<'a>(until: u64, class: DNSClass, from: &Name, r: &'a Reception) -> Option<&'a Name>
    ensures { option_copied result ≡ alias_step until class from.now r.now }
{
    if r.found.dns_class == class && is_same_name(&r.found.name, from) && until <= r.deadline() {
        alias_target(&r.found.rdata)
    } else {
        None
    }
}
