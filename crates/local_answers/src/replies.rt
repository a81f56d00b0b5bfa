//! Replies that are made here.
ghost use Rattle.std.specs.Prelude.{◌≡◌, [], ◌∷◌, IfOk, None};
ghost use Rattle.hickory_proto_core.specs.Name.{NameValue};
ghost use Rattle.hickory_proto_core.specs.Records.{RecordValue, data_of};
ghost use Rattle.hickory_resolver_model.specs.Bounds.{least_ttl};
ghost use Rattle.whole_replies.specs.Kept.{lesser, seconds_of};
ghost use Rattle.local_answers.specs.Replies.{answer, denial, no_records, record_at, reply};

use hickory_proto_core::{Name, Query, RData, Record, ResponseCode};
use std::alloc::{AllocError, Global};
use whole_replies::KeptReply;

fn least_ttl(records: &[Record]) -> Option<u32>
    ensures { result ≡ least_ttl records.now }
{
    let (first, others) = records.split_first()?;
    let mut least = first.ttl;
    for other in others {
        least = least.min(other.ttl);
    }
    Some(least)
}

fn lesser(one: Option<u32>, other: Option<u32>) -> Option<u32>
    ensures { result ≡ lesser one other }
{
    match (one, other) {
        (None, other) => other,
        (Some(one), None) => Some(one),
        (Some(one), Some(other)) => Some(one.min(other)),
    }
}

fn seconds_of(answers: &[Record], authorities: &[Record]) -> u32
    ensures { result ≡ seconds_of None answers.now authorities.now }
{
    lesser(least_ttl(answers), least_ttl(authorities)).unwrap_or(0)
}

// The reply with these records, for as long as the least of their TTLs.
fn reply(code: ResponseCode, answers: Vec<Record>, authorities: Vec<Record>) -> KeptReply
    ensures { result ≡ reply code answers.items authorities.items }
{
    let seconds = seconds_of(&answers, &authorities);
    KeptReply {
        code,
        authentic_data: false,
        answers,
        authorities,
        seconds,
    }
}

/// The reply with these records as its answer.
pub fn answer(alloc: Global, answers: Vec<Record>) -> KeptReply
    ensures { result ≡ answer answers.items }
{
    reply(ResponseCode::NoError, answers, Vec::new(alloc))
}

/// The reply without records.
pub fn no_records(alloc: Global, code: ResponseCode) -> KeptReply
    ensures { result ≡ no_records code }
{
    reply(code, Vec::new(alloc), Vec::new(alloc))
}

/// The negative reply with the SOA record of a zone.
pub fn denial(alloc: Global, code: ResponseCode, start: Record) -> Result<KeptReply, AllocError>
    ensures { IfOk result (λ made. made ≡ denial code start) }
{
    match vec![in alloc; start] {
        Ok(authorities) => Ok(reply(code, Vec::new(alloc), authorities)),
        Err(_) => Err(AllocError),
    }
}

/// The reply with one record.
pub fn one_answer(alloc: Global, found: Record) -> Result<KeptReply, AllocError>
    ensures { IfOk result (λ made. made ≡ answer (found ∷ [])) }
{
    match vec![in alloc; found] {
        Ok(answers) => Ok(answer(alloc, answers)),
        Err(_) => Err(AllocError),
    }
}

/// The reply with one record of the name that is asked, in the class that is asked.
pub fn record_reply(
    alloc: Global,
    query: &Query,
    ttl: u32,
    rdata: RData,
) -> Result<KeptReply, AllocError>
    ensures { IfOk result (λ made. made ≡ answer (record_at query.now ttl (data_of rdata) ∷ [])) }
{
    let name = copy_of(&query.name)?;
    one_answer(
        alloc,
        Record {
            name,
            dns_class: query.query_class,
            ttl,
            rdata,
        },
    )
}

/// A copy of a name.
pub fn copy_of(name: &Name) -> Result<Name, AllocError>
    ensures { IfOk result (λ copy. copy ≡ name.now) }
{
    Clone::clone(name)
}
