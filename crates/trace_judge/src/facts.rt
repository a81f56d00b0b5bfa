//! What is known of a record, or of a denial, that is told.
ghost use Rattle.std.specs.Prelude.{◌≡◌, ◌||◌, ◌<◌, ◌^◌, max, IfOk};
ghost use Rattle.trace_judge.specs.Evidence.{EvidenceValue};
ghost use Rattle.trace_judge.specs.Findings.{denial_facts_of, denial_reach, facts_of};
ghost use Rattle.trace_judge.specs.Index.{Stands, is_since, last_from, later_from, latest_at, moment_since, reaches, tried_in};

use crate::denials::{Denied, last_name, negative_ttl};
use crate::event::{Moment, Reply};
use crate::evidence::Evidence;
use crate::latest::{LatestMoments, is_since};
use crate::receptions::{Reception, grace, is_same_record, reach};
use crate::record_key::record_key;
use hickory_proto_core::{Query, Record};
use std::alloc::AllocError;

/// What is known of a record that is told.
#[derive(Clone, Copy, Debug)]
pub struct Facts {
    /// Whether it was received.
    pub received: bool,
    /// Whether a reception allows it to be kept for as long as it is told.
    pub allowed: bool,
    /// Whether it was received with the TTL that is told, or a greater one.
    pub had_ttl: bool,
    /// The moment, in milliseconds, at which the last reception of it runs out; 0 where there is none.
    pub deadline: u64,
    /// Whether its question was asked since then, and not answered.
    pub tried: bool,
}

/// What is known of a denial that is told.
#[derive(Clone, Copy, Debug)]
pub struct DenialFacts {
    /// Whether it was received.
    pub denied: bool,
    /// Whether a reception allows it to be kept for as long as it is told.
    pub allowed: bool,
    /// The moment, in milliseconds, at which the last reception of it runs out; 0 where there is none.
    pub deadline: u64,
}

/// What is known of a record that is told for a question.
pub fn facts_of(
    evidence: &Evidence,
    now: Moment,
    query: &Query,
    told: &Record,
) -> Result<Facts, AllocError>
    ensures { (e : EvidenceValue) → Stands e evidence.now
        → IfOk result (λ f. f ≡ facts_of e now query.now told.now) }
{
    let key = record_key(evidence.alloc, told)?;
    let oldest = evidence.oldest;
    let seen = evidence.seen.of(&key);
    let until = reach(now, told.ttl).saturating_sub(grace(evidence.slack));
    let deadline = last_from(oldest, seen, told);
    let tried = was_tried(evidence, deadline, query, key.question());
    Ok(Facts {
        received: reaches(seen, told, oldest, 0),
        allowed: reaches(seen, told, until.max(oldest), 0),
        had_ttl: reaches(seen, told, oldest, told.ttl.saturating_sub(evidence.slack)),
        deadline,
        tried,
    })
}

// Whether a reception of this record runs out at a moment, in milliseconds, or later, and has a TTL or a greater one.
fn reaches(seen: &[Reception], told: &Record, until: u64, ttl: u32) -> bool
    ensures { result ≡ reaches told.now until ttl seen.now }
{
    seen.iter().any(|r| is_same_record(&r.found, told)
        && until <= r.deadline()
        && ttl <= r.found.ttl)
}

// The moment, in milliseconds, at which the last reception of this record runs out that is not forgotten.
fn last_from(oldest: u64, seen: &[Reception], told: &Record) -> u64
    ensures value { result ≡ last_from oldest told.now seen.now }
    ensures bound { result < 2 ^ 43 }
{
    let mut last = 0;
    for r in seen {
        last = later_from(oldest, told, last, r);
    }
    last
}

// The later of a moment and the one at which a reception of this record runs out, where it is not forgotten.
fn later_from(oldest: u64, told: &Record, last: u64, r: &Reception) -> u64
    requires { last < 2 ^ 43 }
    ensures value { result ≡ later_from oldest told.now last r.now }
    ensures bound { result < 2 ^ 43 }
{
    if is_same_record(&r.found, told) && oldest <= r.deadline() {
        last.max(r.deadline())
    } else {
        last
    }
}

// Whether one of two questions was asked from a moment on, and neither was answered after it.
fn was_tried(evidence: &Evidence, deadline: u64, query: &Query, key: &Query) -> bool
    requires { deadline < 2 ^ 43 }
    ensures { result ≡ tried_in evidence.now deadline query.now key.now }
{
    let oldest = evidence.oldest;
    was_asked(evidence.asked, oldest, deadline, query, key)
        && !was_asked(evidence.answered, oldest, deadline + 1, query, key)
}

// Whether one of two questions has a moment from this one on that is not forgotten.
fn was_asked(moments: &LatestMoments, oldest: u64, since: u64, query: &Query, key: &Query) -> bool
    ensures { result ≡ is_since (max since oldest) (latest_at moments.now query.now)
        || is_since (max since oldest) (latest_at moments.now key.now) }
{
    let since = since.max(oldest);
    is_since(since, moments.of(query)) || is_since(since, moments.of(key))
}

/// What is known of a denial that is told.
pub fn denial_facts_of(
    evidence: &Evidence,
    now: Moment,
    reply: &Reply,
    denied: Denied,
) -> Result<DenialFacts, AllocError>
    ensures { (e : EvidenceValue) → Stands e evidence.now
        → IfOk result (λ f. f ≡ denial_facts_of e now reply.now denied) }
{
    let oldest = evidence.oldest;
    let name = last_name(&reply.query, &reply.answers);
    let latest = evidence.denied.of(reply.query.query_class, name, denied)?;
    let until = denial_reach(now, reply).saturating_sub(grace(evidence.slack));
    Ok(DenialFacts {
        denied: is_since(oldest, latest),
        allowed: is_since(until.max(oldest), latest),
        deadline: moment_since(oldest, latest),
    })
}

/// The moment, in milliseconds, until which a client keeps a denial.
pub fn denial_reach(now: Moment, reply: &Reply) -> u64
    ensures { result ≡ denial_reach now reply.now }
{
    reach(now, negative_ttl(&reply.authorities))
}

// The moment, where it is this one or later, and else 0.
fn moment_since(oldest: u64, latest: Option<u64>) -> u64
    ensures { result ≡ moment_since oldest latest }
{
    match latest {
        Some(moment) if oldest <= moment => moment,
        _ => 0,
    }
}
