//! What a look-up comes to, and what is kept of it.
ghost use Rattle.std.specs.Prelude.{◌≡◌, ◌∷◌, [], Ok, Err, OnOk, OnErr, IfOk, IsOkUnless};
ghost use Rattle.std.specs.Option.{option_map_or};
ghost use Rattle.hickory_proto_core.specs.ResponseKind.{IsClassified, first_soa, kind_of};
ghost use Rattle.hickory_proto_core.specs.declared.net_error.NetError.TheVariants.{Dns};
ghost use Rattle.hickory_proto_core.specs.declared.net_error.DnsError.TheVariants.{NoRecordsFound};
ghost use Rattle.hickory_resolver_model.specs.Cache.{last_moment};
ghost use Rattle.hickory_resolver_model.specs.Lookup.{found_lookup};
ghost use Rattle.hickory_resolver_model.specs.Hops.{no_match, hit_result, store_of, as_outcome, alias_deadline, result_until, is_kept, after_stores, limit_of, earlier_stores};
ghost use Rattle.hickory_resolver_client.specs.Special.{IsUnlessOut};
ghost use Rattle.hickory_resolver_client.specs.Steps.{RunsOutAmong};

use crate::waiting::Passed;
use hickory_proto_core::{
    DnsError, DnsResponse, Message, NetError, NoRecords, OpCode, Outcome, Query, Record,
};
use hickory_resolver_cache::ResponseCache;
use hickory_resolver_lookup::{Lookup, TtlConfig};
use std::hash::BuildHasher;

/// The look-up that an accepted response comes to.
pub fn found_lookup(
    config: &TtlConfig,
    query: &Query,
    message: &Message,
    now: u64,
) -> Result<Lookup, NetError>
    ensures ok { IfOk result (λ found. found ≡ found_lookup config.now query.now message.now now) }
    ensures err { IsOkUnless result NetError.OutOfMemory }
{
    let copy = message.clone()?;
    Lookup::of_response(config, query.clone()?, copy, now)
}

/// Keeps a copy of a negative answer. A refused call changes nothing.
pub fn insert_negative<S: BuildHasher>(
    cache: &mut ResponseCache<S>,
    query: Query,
    none: &NoRecords,
    now: u64,
) -> Result<(), NetError>
    ensures ok { OnOk result (cache.new
        ≡ after_stores (store_of query (Err (Dns (NoRecordsFound none.now))) now last_moment ∷ []) cache.old) }
    ensures unchanged { OnErr result (cache.new ≡ cache.old) }
    ensures err { IsOkUnless result NetError.OutOfMemory }
{
    let copy = none.clone()?;
    cache.insert_until(query, Err(NetError::from(copy)), now, u64::MAX)
}

/// Until when the CNAMEs live whose least TTL this is; the last moment where there are none.
pub fn alias_limit(config: &TtlConfig, alias_ttl: Option<u32>, now: u64) -> u64
    ensures { result ≡ option_map_or (alias_deadline config.now now) alias_ttl last_moment }
{
    match alias_ttl {
        Some(ttl) => config.alias_deadline(ttl, now),
        None => u64::MAX,
    }
}

/// The answer, which may be used up to a limit at the most.
pub fn result_until(reply: Result<Lookup, NetError>, limit: u64) -> Result<Lookup, NetError>
    ensures { result ≡ result_until limit reply }
{
    match reply {
        Ok(lookup) => Ok(lookup.not_after(limit)),
        Err(error) => Err(error),
    }
}

/// Keeps a result under each question that was passed, from the last to the first: each up to the lesser of its own
/// limit and that of the hop after it. Gives the limit of the first hop.
pub fn store_under_passed<S: BuildHasher>(
    cache: &mut ResponseCache<S>,
    mut passed: Vec<Passed>,
    reply: &Result<Lookup, NetError>,
    mut limit: u64,
    now: u64,
) -> Result<u64, NetError>
    ensures ok { IfOk result (λ first. (first ≡ limit_of passed.items limit)
        × (cache.new ≡ after_stores (earlier_stores reply.now now limit passed.items) cache.old)) }
    ensures err { OnErr result
        (RunsOutAmong (earlier_stores reply.now now limit passed.items) cache.old cache.new) }
    ensures memory { IsOkUnless result NetError.OutOfMemory }
{
    while let Some(last) = passed.pop() {
        limit = last.limit.min(limit);
        let outcome = as_outcome(&last.query, reply)?;
        cache.insert_until(last.query, outcome, now, limit)?;
    }
    Ok(limit)
}

/// Whether a result is kept: an answer, or a negative answer.
pub fn is_kept(reply: &Result<Lookup, NetError>) -> bool
    ensures { result ≡ is_kept reply.now }
{
    match reply {
        Ok(_) => true,
        Err(error) => error.is_no_records_found(),
    }
}

/// What is kept of a result under another question: a fresh response with its sections, or its error.
pub fn as_outcome(
    query: &Query,
    reply: &Result<Lookup, NetError>,
) -> Result<Result<Message, NetError>, NetError>
    ensures ok { IfOk result (λ outcome. outcome ≡ as_outcome query.now reply.now) }
    ensures err { IsOkUnless result NetError.OutOfMemory }
{
    match reply {
        Ok(lookup) => Ok(Ok(fresh_response(query, lookup.message())?)),
        Err(error) => Ok(Err(error.clone()?)),
    }
}

// A fresh response to a question with the sections of a message.
fn fresh_response(query: &Query, message: &Message) -> Result<Message, NetError>
    ensures ok { IfOk result (λ m. Ok m ≡ as_outcome query.now (Ok (record {
      message = message.now;
      valid_until = 0;
    }))) }
    ensures err { IsOkUnless result NetError.OutOfMemory }
{
    let mut fresh = Message::response(*message.queries.allocator(), 0, OpCode::Query);
    fresh.add_query(query.clone()?)?;
    fresh.answers = message.answers.clone()?;
    fresh.authorities = message.authorities.clone()?;
    fresh.additionals = message.additionals.clone()?;
    Ok(fresh)
}

/// The response where it is an answer, else the error that it comes to.
pub fn classify(outcome: Outcome) -> Result<DnsResponse, NetError>
    ensures { IsClassified (kind_of outcome) result }
{
    match outcome {
        Ok(response) => DnsError::from_response(response),
        Err(error) => Err(error),
    }
}

/// What a hit comes to.
pub fn lookup_of_hit(
    query: Query,
    hit: Result<Message, NetError>,
    now: u64,
) -> Result<Lookup, NetError>
    ensures { IsUnlessOut (hit_result query now hit) result }
{
    match hit {
        Ok(message) => Lookup::of_hit(query, message, now),
        Err(error) => Err(error),
    }
}

/// That a response has nothing that was asked for.
pub fn no_match(query: Query, response: &DnsResponse) -> Result<Lookup, NetError>
    ensures { IsUnlessOut (Err (no_match query response.now)) result }
{
    let none = NoRecords {
        soa: soa_of(response)?,
        query,
        ns: None,
        negative_ttl: response.negative_ttl(),
        response_code: response.message().metadata.response_code,
        authorities: None,
    };
    Err(NetError::from(none))
}

// A copy of the SOA record that a response has among its authorities, if it has one.
fn soa_of(response: &DnsResponse) -> Result<Option<Record>, NetError>
    ensures ok { IfOk result (λ soa. soa ≡ first_soa response.now.authorities) }
    ensures err { IsOkUnless result NetError.OutOfMemory }
{
    match response.soa() {
        Some(soa) => Ok(Some(soa.clone()?)),
        None => Ok(None),
    }
}
