//! Denials: responses that say that a name, or a type of it, does not exist (RFC 2308).
ghost use Rattle.std.specs.Prelude.{◌≡◌, ◌<◌, ◌^◌, option_and_then, option_copied};
ghost use Rattle.std.specs.List.{list_any};
ghost use Rattle.hickory_proto_core.specs.Name.{name_eq};
ghost use Rattle.hickory_proto_core.specs.Records.{data_of};
ghost use Rattle.hickory_proto_core.specs.ResponseKind.{first_soa, is_of_type, soa_ttl};
ghost use Rattle.trace_judge.specs.Denials.{alias_target, denial_deadline, denied_by, follow, has_type, is_referral, last_name, negative_ttl};

use crate::event::{Moment, Reply};
use hickory_proto_core::{DNSClass, Name, Query, RData, Record, RecordType};

/// What a denial denies.
#[derive(Clone, Copy, Debug, PartialEq, Eq)]
pub enum Denied {
    /// The name, whatever the type, and every name below it (RFC 8020, section 2).
    WholeName,
    /// Records of this type at the name.
    OneType(RecordType),
}

/// A denial that was received.
#[derive(Debug, Drop)]
pub struct Denial {
    pub moment: Moment,
    pub name: Name,
    pub dns_class: DNSClass,
    pub denied: Denied,
    /// For how many seconds it may be kept: the lesser TTL of its SOA record, and 0 where it has none (RFC 2308,
    /// section 5).
    pub ttl: u32,
}

impl Denial {
    /// The moment, in milliseconds, at which it runs out.
    pub fn deadline(&self) -> u64
        ensures value { result ≡ denial_deadline self.now }
        ensures bound { result < 2 ^ 43 }
    {
        self.moment.in_milliseconds() + 1000 * u64::from(self.ttl)
    }
}

/// Whether names are equal, without case.
pub fn is_same_name(a: &Name, b: &Name) -> bool
    ensures { result ≡ name_eq a.now b.now }
{
    a == b
}

/// What a response denies, if it is a denial (RFC 2308, section 2).
pub fn denied_by(reply: &Reply) -> Option<Denied>
    ensures { result ≡ denied_by reply.now }
{
    if reply.truncated {
        return None;
    }
    let code = reply.code.code();
    if code == 3 {
        return Some(Denied::WholeName);
    }
    if code != 0 || has_wanted(&reply.query, &reply.answers) || is_referral(&reply.authorities) {
        return None;
    }
    Some(Denied::OneType(reply.query.query_type))
}

fn has_wanted(query: &Query, answers: &[Record]) -> bool
    ensures { result ≡ list_any (has_type query.now) answers.now }
{
    let wanted = query.query_type;
    answers
        .iter()
        .any(|r| wanted == RecordType::ANY || wanted == r.record_type())
}

// Other name servers are named, and no zone is.
fn is_referral(authorities: &[Record]) -> bool
    ensures { result ≡ is_referral authorities.now }
{
    has_record_of(RecordType::NS, authorities) && !has_record_of(RecordType::SOA, authorities)
}

fn has_record_of(record_type: RecordType, records: &[Record]) -> bool
    ensures { result ≡ list_any (is_of_type record_type) records.now }
{
    records.iter().any(|r| r.record_type() == record_type)
}

/// The name that a response speaks of in the end: the last one that its aliases lead to from the name of its question.
pub fn last_name<'a>(query: &'a Query, answers: &'a [Record]) -> &'a Name
    ensures { result.now ≡ last_name query.now answers.now }
{
    let mut name = &query.name;
    for r in answers {
        name = follow(query.query_class, name, r);
    }
    name
}

// Where an alias leads from a name, and the name itself where it is no alias of it.
fn follow<'a>(dns_class: DNSClass, name: &'a Name, r: &'a Record) -> &'a Name
    ensures { result.now ≡ follow dns_class name.now r.now }
{
    match alias_target(&r.rdata) {
        Some(target) if r.dns_class == dns_class && r.name == *name => target,
        _ => name,
    }
}

/// The name that a CNAME record leads to.
pub fn alias_target(rdata: &RData) -> Option<&Name>
    ensures { option_copied result ≡ alias_target (data_of rdata.now) }
{
    match rdata {
        RData::CNAME(target) => Some(target),
        _ => None,
    }
}

/// For how many seconds a denial with these records in its authority section may be kept: the lesser TTL of the first
/// SOA record, and 0 where there is none (RFC 2308, section 5).
pub fn negative_ttl(authorities: &[Record]) -> u32
    ensures { result ≡ negative_ttl authorities.now }
{
    soa_ttl(authorities).unwrap_or(0)
}

fn soa_ttl(authorities: &[Record]) -> Option<u32>
    ensures { result ≡ option_and_then soa_ttl (first_soa authorities.now) }
{
    let soa = first_soa(authorities)?;
    let minimum = soa.rdata.soa_minimum()?;
    Some(soa.ttl.min(minimum))
}

fn first_soa(authorities: &[Record]) -> Option<&Record>
    ensures { option_copied result ≡ first_soa authorities.now }
{
    authorities.iter().find(|r| r.rdata.soa_minimum().is_some())
}
