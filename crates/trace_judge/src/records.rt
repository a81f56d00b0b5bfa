//! The classes of records and of denials that are told.
ghost use Rattle.std.specs.Prelude.{◌≡◌, ◌++◌, IfOk, OnOk};
ghost use Rattle.std.specs.List.{list_any};
ghost use Rattle.hickory_proto_core.specs.Name.{is_zone_of};
ghost use Rattle.trace_judge.specs.Denials.{denied_by};
ghost use Rattle.trace_judge.specs.Evidence.{EvidenceValue};
ghost use Rattle.trace_judge.specs.Findings.{age_past, denial_findings, denial_overrun, denied_findings, is_behind_outlived, is_first_day, is_in_answer, is_local, is_pseudo, is_raised, is_served_stale, is_stale, known_denial_findings, known_findings, outlived_class, overrun, received_findings, record_findings, reply_findings, section_findings, told_findings, unknown_findings, when};
ghost use Rattle.trace_judge.specs.Index.{Stands};

use crate::aliases::is_alias_outlived;
use crate::classes::{Class, Finding, Place, Section};
use crate::denials::{Denied, denied_by, last_name};
use crate::event::{Moment, Reply, is_outcome};
use crate::evidence::Evidence;
use crate::facts::{DenialFacts, Facts, denial_facts_of, denial_reach, facts_of};
use crate::making::{is_denial_made, is_made};
use crate::receptions::reach;
use hickory_proto_core::{Name, Query, Record};
use std::alloc::AllocError;

/// Puts every class of what is told to the findings.
pub fn judge_told(
    evidence: &Evidence,
    now: Moment,
    reply: &Reply,
    found: &mut Vec<Finding>,
) -> Result<(), AllocError>
    ensures { (e : EvidenceValue) → Stands e evidence.now
        → OnOk result (found.new.items ≡ found.old.items ++ told_findings e now reply.now) }
{
    if !is_outcome(reply.code) {
        return Ok(());
    }
    judge_reply(evidence, now, reply, found)
}

fn judge_reply(
    evidence: &Evidence,
    now: Moment,
    reply: &Reply,
    found: &mut Vec<Finding>,
) -> Result<(), AllocError>
    ensures { (e : EvidenceValue) → Stands e evidence.now
        → OnOk result (found.new.items ≡ found.old.items ++ reply_findings e now reply.now) }
{
    let query = &reply.query;
    judge_section(evidence, now, query, Section::Answer, &reply.answers, found)?;
    judge_section(
        evidence,
        now,
        query,
        Section::Authority,
        &reply.authorities,
        found,
    )?;
    judge_section(
        evidence,
        now,
        query,
        Section::Additional,
        &reply.additionals,
        found,
    )?;
    judge_denial(evidence, now, reply, found)
}

fn judge_section(
    evidence: &Evidence,
    now: Moment,
    query: &Query,
    section: Section,
    records: &[Record],
    found: &mut Vec<Finding>,
) -> Result<(), AllocError>
    ensures { (e : EvidenceValue) → Stands e evidence.now
        → OnOk result
        (found.new.items ≡ found.old.items ++ section_findings e now query.now section 0 records.now) }
{
    for (i, told) in records.iter().enumerate() {
        judge_record(evidence, now, query, Place::Record(section, i), told, found)?;
    }
    Ok(())
}

// Puts every class of a record to the findings.
fn judge_record(
    evidence: &Evidence,
    now: Moment,
    query: &Query,
    place: Place,
    told: &Record,
    found: &mut Vec<Finding>,
) -> Result<(), AllocError>
    ensures { (e : EvidenceValue) → Stands e evidence.now
        → OnOk result (found.new.items ≡ found.old.items ++ record_findings e now query.now place told.now) }
{
    if is_pseudo(told) {
        return Ok(());
    }
    let facts = facts_of(evidence, now, query, told)?;
    judge_known(evidence, now, place, told, facts, found)?;
    let outlived = is_behind_outlived(evidence, now, query, place, told)?;
    find(outlived, place, Class::AliasOutlives, found)
}

// The classes of a record by what is known of it.
fn judge_known(
    evidence: &Evidence,
    now: Moment,
    place: Place,
    told: &Record,
    facts: Facts,
    found: &mut Vec<Finding>,
) -> Result<(), AllocError>
    ensures { (e : EvidenceValue) → Stands e evidence.now
        → OnOk result (found.new.items ≡ found.old.items ++ known_findings e now place told.now facts) }
{
    if facts.received {
        judge_received(now, place, told, facts, found)
    } else {
        let made = is_made(evidence, now, told)?;
        judge_unknown(evidence, now, place, &told.name, made, found)
    }
}

// The classes of a record that was received.
fn judge_received(
    now: Moment,
    place: Place,
    told: &Record,
    facts: Facts,
    found: &mut Vec<Finding>,
) -> Result<(), AllocError>
    ensures { OnOk result (found.new.items ≡ found.old.items ++ received_findings now place told.now facts) }
{
    let overrun = overrun(now, told, facts);
    let age = age_past(now, facts);
    find(is_stale(facts), place, Class::Stale(overrun), found)?;
    find(
        is_served_stale(now, told, facts),
        place,
        Class::ServedStale(age),
        found,
    )?;
    find(is_raised(facts), place, Class::Raised, found)
}

// The classes of what was not received, of a record or a denial with this name, and whether the resolver may make it by
// itself.
fn judge_unknown(
    evidence: &Evidence,
    now: Moment,
    place: Place,
    name: &Name,
    made: bool,
    found: &mut Vec<Finding>,
) -> Result<(), AllocError>
    ensures { (e : EvidenceValue) → Stands e evidence.now
        → OnOk result (found.new.items ≡ found.old.items ++ unknown_findings e now place name.now made) }
{
    if is_local(evidence, name) || made {
        return find(true, place, Class::Synthesized, found);
    }
    let first = is_first_day(evidence.start, now);
    find(!first, place, Class::NeverReceived, found)?;
    find(first, place, Class::Unseen, found)
}

fn is_local(evidence: &Evidence, name: &Name) -> bool
    ensures { (e : EvidenceValue) → Stands e evidence.now → result ≡ is_local e name.now }
{
    is_within(evidence.local, name)
}

fn is_within(zones: &[Name], name: &Name) -> bool
    ensures { result ≡ list_any (λ zone. is_zone_of zone name.now) zones.now }
{
    zones.iter().any(|zone| zone.zone_of(name))
}

// Whether a record of an answer section stands behind an alias that had run out.
fn is_behind_outlived(
    evidence: &Evidence,
    now: Moment,
    query: &Query,
    place: Place,
    told: &Record,
) -> Result<bool, AllocError>
    ensures { (e : EvidenceValue) → Stands e evidence.now
        → IfOk result (λ outlived. outlived ≡ is_behind_outlived e now query.now place told.now) }
{
    if is_in_answer(place) {
        is_alias_outlived(evidence, now, query, &told.name)
    } else {
        Ok(false)
    }
}

fn is_in_answer(place: Place) -> bool
    ensures { result ≡ is_in_answer place }
{
    matches!(place, Place::Record(Section::Answer, _))
}

// Whether a stale record is told as one may be that cannot be asked for (RFC 8767, sections 4 and 5).
fn is_served_stale(now: Moment, told: &Record, facts: Facts) -> bool
    ensures { result ≡ is_served_stale now told.now facts }
{
    is_stale(facts) && told.ttl <= 30 && age_past(now, facts) > 0 && facts.tried
}

// How many milliseconds ago it ran out.
fn age_past(now: Moment, facts: Facts) -> u64
    ensures { result ≡ age_past now facts }
{
    now.in_milliseconds().saturating_sub(facts.deadline)
}

fn is_pseudo(told: &Record) -> bool
    ensures { result ≡ is_pseudo told.now }
{
    told.record_type().code() == 41
}

fn is_first_day(start: Moment, now: Moment) -> bool
    ensures { result ≡ is_first_day start now }
{
    now.in_milliseconds() < start.in_milliseconds() + 86_400_000
}

fn is_stale(facts: Facts) -> bool
    ensures { result ≡ is_stale facts }
{
    facts.received && !facts.allowed
}

fn overrun(now: Moment, told: &Record, facts: Facts) -> u64
    ensures { result ≡ overrun now told.now facts }
{
    reach(now, told.ttl).saturating_sub(facts.deadline)
}

fn is_raised(facts: Facts) -> bool
    ensures { result ≡ is_raised facts }
{
    facts.received && !facts.had_ttl
}

/// Puts a class to the findings, where it holds.
pub fn find(
    holds: bool,
    place: Place,
    class: Class,
    found: &mut Vec<Finding>,
) -> Result<(), AllocError>
    ensures { OnOk result (found.new.items ≡ found.old.items ++ when holds place class) }
{
    if holds {
        found.push(Finding { place, class })?;
    }
    Ok(())
}

fn judge_denial(
    evidence: &Evidence,
    now: Moment,
    reply: &Reply,
    found: &mut Vec<Finding>,
) -> Result<(), AllocError>
    ensures { (e : EvidenceValue) → Stands e evidence.now
        → OnOk result (found.new.items
        ≡ found.old.items ++ denial_findings e now reply.now (denied_by reply.now)) }
{
    match denied_by(reply) {
        None => Ok(()),
        Some(denied) => judge_denied(evidence, now, reply, denied, found),
    }
}

// Puts every class of a denial to the findings.
fn judge_denied(
    evidence: &Evidence,
    now: Moment,
    reply: &Reply,
    denied: Denied,
    found: &mut Vec<Finding>,
) -> Result<(), AllocError>
    ensures { (e : EvidenceValue) → Stands e evidence.now
        → OnOk result (found.new.items ≡ found.old.items ++ denied_findings e now reply.now denied) }
{
    let facts = denial_facts_of(evidence, now, reply, denied)?;
    if facts.allowed {
        return Ok(());
    }
    let made = is_denial_made(evidence, now, reply, denied)?;
    judge_known_denial(evidence, now, reply, made, facts, found)
}

// The classes of a denial that is not allowed by what was received of it.
fn judge_known_denial(
    evidence: &Evidence,
    now: Moment,
    reply: &Reply,
    made: bool,
    facts: DenialFacts,
    found: &mut Vec<Finding>,
) -> Result<(), AllocError>
    ensures { (e : EvidenceValue) → Stands e evidence.now
        → OnOk result (found.new.items ≡ found.old.items ++ known_denial_findings e now reply.now made facts) }
{
    if facts.denied {
        find(
            true,
            Place::Response,
            outlived_class(now, reply, made, facts),
            found,
        )
    } else {
        let name = last_name(&reply.query, &reply.answers);
        judge_unknown(evidence, now, Place::Response, name, made, found)
    }
}

// The class of a denial that outlives what denied it.
fn outlived_class(now: Moment, reply: &Reply, made: bool, facts: DenialFacts) -> Class
    ensures { result ≡ outlived_class now reply.now made facts }
{
    if made {
        Class::Synthesized
    } else {
        Class::NegativeOutlives(denial_overrun(now, reply, facts))
    }
}

fn denial_overrun(now: Moment, reply: &Reply, facts: DenialFacts) -> u64
    ensures { result ≡ denial_overrun now reply.now facts }
{
    denial_reach(now, reply).saturating_sub(facts.deadline)
}
