//! Where a response leads the one who asked (RFC 1034, section 3.6.2; RFC 1035, section 7.3).
ghost use Rattle.std.specs.Prelude.{◌≡◌, ◌++◌, ◌&&◌, ◌||◌, map, filter, IfOk, OnOk, IsOkUnless};
ghost use Rattle.std.specs.List.{list_any};
ghost use Rattle.hickory_proto_core.specs.Messages.{some_record};
ghost use Rattle.hickory_resolver_model.specs.Bounds.{least};
ghost use Rattle.hickory_resolver_model.specs.AliasWalk.{walk_of};
ghost use Rattle.hickory_resolver_model.specs.Verdict.{Verdict as VerdictValue, verdict, walk_verdict, is_match, is_led_match, is_intermediate, has_class, has_type, with_ttl_at_most, all_records, is_accepted, is_filtered, filtered_answers, next_hop};
ghost use Rattle.hickory_resolver_client.specs.Verdicts.{IsVerdict, IsDecision, is_wanted, hop_of};

use crate::alias_walk::{AliasWalk, walk_of};
use hickory_proto_core::{DNSClass, DnsResponse, Message, NetError, Query, Record, RecordType};
use std::marker::Model;

/// A question on the way of a look-up, and the records that were preserved before it.
#[derive(Drop)]
pub struct Hop {
    pub query: Query,
    pub preserved: Vec<Record>,
}

impl Model for Hop {
    ghost use Rattle.hickory_resolver_model.specs.Verdict.{Hop as HopValue};

    ghost Value = { HopValue };

    ghost view = { λ h. record { query = h.query; preserved = h.preserved.items } };
}

/// Where a response leads.
#[derive(Drop)]
pub enum Verdict {
    /// It is accepted, with these sections.
    Accepted(Message),
    /// It leads to another hop.
    LeadsTo {
        /// Where it leads.
        next: Hop,
        /// The response itself.
        response: DnsResponse,
    },
    /// It has nothing that was asked for.
    NoMatch(DnsResponse),
}

/// A verdict, and the least TTL of the aliases that counted, where one did (seconds).
#[derive(Drop)]
pub struct Judged {
    pub verdict: Verdict,
    pub alias_ttl: Option<u32>,
}

// What becomes of a response.
#[derive(Drop)]
enum Decision {
    // It is accepted as it stands.
    Whole,
    // It is accepted with these answers.
    Filtered(Vec<Record>),
    // It leads to another hop.
    Next(Hop),
    // It has nothing that was asked for.
    Nothing,
}

// Which records of a response are passed on: those that match the question, or intermediate ones.
#[derive(Drop)]
struct Selection<'s, 'a> {
    query: &'s Query,
    walk: &'s AliasWalk<'a>,
    matches: bool,
    intermediates: bool,
}

/// The verdict on a response to a question. The flag says whether intermediate records are wanted; those that
/// were preserved before are passed on with the verdict. A response that is accepted as it stands is moved.
pub fn verdict_of(
    keep: bool,
    query: &Query,
    preserved: Vec<Record>,
    response: DnsResponse,
) -> Result<Judged, NetError>
    ensures ok { IfOk result (λ judged.
        IsVerdict (verdict keep (hop_of query.now preserved.items) response) response judged.verdict) }
    ensures alias_ttl { IfOk result (λ judged.
        judged.alias_ttl ≡ least (walk_of query.now response.answers).alias_ttls) }
    ensures err { IsOkUnless result NetError.OutOfMemory }
{
    let message = response.message();
    let walk = walk_of(*preserved.allocator(), query, &message.answers)?;
    let alias_ttl = walk.alias_ttl();
    let decision = decide(keep, query, preserved, walk, message)?;
    let verdict = carry_out(decision, response);
    Ok(Judged { verdict, alias_ttl })
}

// The decision on a response whose answers are walked.
fn decide<'a>(
    keep: bool,
    query: &Query,
    preserved: Vec<Record>,
    walk: AliasWalk<'a>,
    message: &'a Message,
) -> Result<Decision, NetError>
    ensures ok { IfOk result
        (IsDecision (walk_verdict keep (hop_of query.now preserved.items) walk.entry message.now) message.now) }
    ensures err { IsOkUnless result NetError.OutOfMemory }
{
    if is_accepted(query, &preserved, &walk, message) {
        if !is_filtered(keep, query, &preserved, &walk, message) {
            return Ok(Decision::Whole);
        }
        let answers = filtered_answers(keep, query, preserved, &walk, message)?;
        return Ok(Decision::Filtered(answers));
    }
    if !walk.leads_on() {
        return Ok(Decision::Nothing);
    }
    let next = next_hop(keep, query, preserved, &walk, message)?;
    Ok(Decision::Next(next))
}

// The verdict of a decision on this response.
fn carry_out(decision: Decision, response: DnsResponse) -> Verdict
    ensures { (v : VerdictValue) → IsDecision v response decision → IsVerdict v response result }
{
    match decision {
        Decision::Whole => Verdict::Accepted(response.into_message()),
        Decision::Filtered(answers) => {
            let mut accepted = response.into_message();
            accepted.answers = answers;
            Verdict::Accepted(accepted)
        }
        Decision::Next(next) => Verdict::LeadsTo { next, response },
        Decision::Nothing => Verdict::NoMatch(response),
    }
}

// Whether some record matches, and either no alias counted or no record was preserved.
fn is_accepted<'a>(
    query: &Query,
    preserved: &[Record],
    walk: &AliasWalk<'a>,
    message: &'a Message,
) -> bool
    ensures { result ≡ is_accepted (hop_of query.now preserved.now) walk.now message.now }
{
    (!walk.is_moved() || preserved.is_empty())
        && (any_match(query, walk, &message.answers)
            || any_match(query, walk, &message.authorities)
            || any_match(query, walk, &message.additionals))
}

// Whether the answers of an accepted response are filtered.
fn is_filtered<'a>(
    keep: bool,
    query: &Query,
    preserved: &[Record],
    walk: &AliasWalk<'a>,
    message: &'a Message,
) -> bool
    ensures { result ≡ is_filtered keep (hop_of query.now preserved.now) walk.now message.now }
{
    !preserved.is_empty() || (!keep && leads_to_match(query, walk, message))
}

// Whether the walk led to a match, in some section.
fn leads_to_match<'a>(query: &Query, walk: &AliasWalk<'a>, message: &'a Message) -> bool
    ensures { result ≡ some_record (is_led_match query.now walk.now) message.now }
{
    walk.leads_on()
        && (any_led_match(query, walk, &message.answers)
            || any_led_match(query, walk, &message.authorities)
            || any_led_match(query, walk, &message.additionals))
}

// The preserved records, then the matches and, where they are wanted, the intermediate records of this
// response.
fn filtered_answers<'s, 'a>(
    keep: bool,
    query: &'s Query,
    preserved: Vec<Record>,
    walk: &'s AliasWalk<'a>,
    message: &'a Message,
) -> Result<Vec<Record>, NetError>
    ensures ok { IfOk result
        (λ answers. answers.items ≡ filtered_answers keep (hop_of query.now preserved.items)
        walk.now message.now) }
    ensures err { IsOkUnless result NetError.OutOfMemory }
{
    let selection = Selection {
        query,
        walk,
        matches: true,
        intermediates: keep,
    };
    selection.copy_into(preserved, message)
}

// The next hop: the name that the walk leads to, in the class of the Internet.
fn next_hop<'s, 'a>(
    keep: bool,
    query: &'s Query,
    preserved: Vec<Record>,
    walk: &'s AliasWalk<'a>,
    message: &'a Message,
) -> Result<Hop, NetError>
    ensures ok { IfOk result
        (λ next. next ≡ next_hop keep (hop_of query.now preserved.items) walk.now message.now) }
    ensures err { IsOkUnless result NetError.OutOfMemory }
{
    let selection = Selection {
        query,
        walk,
        matches: false,
        intermediates: keep,
    };
    Ok(Hop {
        preserved: selection.copy_into(preserved, message)?,
        query: Query {
            name: walk.next_name().clone()?,
            query_type: query.query_type,
            query_class: DNSClass::IN,
        },
    })
}

impl<'s, 'a> Selection<'s, 'a> {
    // These records, then copies of the selected ones of each section, whose TTLs are at most that of the
    // walk.
    fn copy_into(&self, records: Vec<Record>, message: &'a Message) -> Result<Vec<Record>, NetError>
        ensures ok { IfOk result
            (λ copies. copies.items ≡ records.items ++ map (with_ttl_at_most self.now.walk.now.ttl)
            (filter (is_wanted self.now.query.now self.now.walk.now self.now.matches
            self.now.intermediates) (all_records message.now))) }
        ensures err { IsOkUnless result NetError.OutOfMemory }
    {
        let mut copies = records;
        self.copy_section(&message.answers, &mut copies)?;
        self.copy_section(&message.authorities, &mut copies)?;
        self.copy_section(&message.additionals, &mut copies)?;
        Ok(copies)
    }

    fn copy_section(&self, records: &'a [Record], copies: &mut Vec<Record>) -> Result<(), NetError>
        ensures ok { OnOk result
            (copies.new.items ≡ copies.old.items ++ map (with_ttl_at_most self.now.walk.now.ttl)
            (filter (is_wanted self.now.query.now self.now.walk.now self.now.matches
            self.now.intermediates) records.now)) }
        ensures err { IsOkUnless result NetError.OutOfMemory }
    {
        for found in records {
            if self.wants(found) {
                copies.push(with_ttl_at_most(found, self.walk.ttl())?)?;
            }
        }
        Ok(())
    }

    fn wants(&self, found: &'a Record) -> bool
        ensures { result ≡ is_wanted self.now.query.now self.now.walk.now self.now.matches
            self.now.intermediates found.now }
    {
        (self.matches && is_match(self.query, self.walk, found))
            || (self.intermediates && is_intermediate(self.query, found))
    }
}

// A copy of a record, whose TTL is at most this one.
fn with_ttl_at_most(found: &Record, ttl: u32) -> Result<Record, NetError>
    ensures ok { IfOk result (λ copy. copy ≡ with_ttl_at_most ttl found.now) }
    ensures err { IsOkUnless result NetError.OutOfMemory }
{
    let mut copy = found.clone()?;
    copy.ttl = copy.ttl.min(ttl);
    Ok(copy)
}

fn any_match<'a>(query: &Query, walk: &AliasWalk<'a>, records: &'a [Record]) -> bool
    ensures { result ≡ list_any (is_match query.now walk.now) records.now }
{
    for found in records {
        if is_match(query, walk, found) {
            return true;
        }
    }
    false
}

fn any_led_match<'a>(query: &Query, walk: &AliasWalk<'a>, records: &'a [Record]) -> bool
    ensures { result ≡ list_any (is_led_match query.now walk.now) records.now }
{
    for found in records {
        if is_led_match(query, walk, found) {
            return true;
        }
    }
    false
}

// Whether a record has the asked class and type, and is owned by the asked name, by the last name of the walk or
// by a target.
fn is_match<'a>(query: &Query, walk: &AliasWalk<'a>, found: &'a Record) -> bool
    ensures { result ≡ is_match query.now walk.now found.now }
{
    has_class(query, found)
        && has_type(query, found)
        && (query.name == found.name || walk.ends_at(&found.name) || walk.has_target(&found.name))
}

// Whether the walk led to a match: a target owns it, or the last name, where an alias moved it.
fn is_led_match<'a>(query: &Query, walk: &AliasWalk<'a>, found: &'a Record) -> bool
    ensures { result ≡ is_led_match query.now walk.now found.now }
{
    has_class(query, found)
        && has_type(query, found)
        && (walk.has_target(&found.name) || (walk.is_moved() && walk.ends_at(&found.name)))
}

// Whether it is a CNAME record of the asked class.
fn is_intermediate(query: &Query, found: &Record) -> bool
    ensures { result ≡ is_intermediate query.now found.now }
{
    has_class(query, found) && found.record_type() == RecordType::CNAME
}

fn has_class(query: &Query, found: &Record) -> bool
    ensures { result ≡ has_class query.now found.now }
{
    query.query_class == found.dns_class
}

// Whether it has the asked type; any type, for ANY.
fn has_type(query: &Query, found: &Record) -> bool
    ensures { result ≡ has_type query.now found.now }
{
    query.query_type == RecordType::ANY || query.query_type == found.record_type()
}
