//! The sections of a message, one behind the other (RFC 1035, section 4.1): what stands behind the header.
ghost use Rattle.std.specs.Prelude.{◌≡◌, ◌≤◌, ◌<◌, ◌+◌, true, false, None, take, length, IfOk, OnOk};
ghost use Rattle.std.specs.List.{fold};
ghost use Rattle.hickory_proto_wire.specs.Written.{query_added, record_added, records_added, records_of};
ghost use Rattle.hickory_proto_wire.specs.Refused.{first_fault, data_fault, record_data_fault};
ghost use Rattle.hickory_proto_wire.specs.Made.{query_flaw, record_flaw};
ghost use Rattle.hickory_proto_wire.specs.ToWire.{KeepsMost};

use crate::name_writer::{Place, note_name};
use crate::record_writer::{put_query, put_record};
use crate::wire_message::WireMessage;
use hickory_proto_core::{Query, Record};
use std::alloc::{AllocError, Global};

// The octets of the header.
pub(crate) const HEADER: usize = 12;

// Adds a question.
fn add_query<'a>(
    body: &mut Vec<u8>,
    places: &mut Vec<Place<'a>>,
    query: &'a Query,
) -> Result<(), AllocError>
    ensures added { OnOk result (record { octets = body.new.items; places = places.new.items }
        ≡ query_added (record { octets = body.old.items; places = places.old.items }) query.now) }
    ensures valid { OnOk result (query_flaw query.now ≡ None) }
{
    let start = body.len();
    let whole = put_query(places, body, query)?;
    note_name(places, whole, HEADER + start, &query.name)
}

// Adds a record, unless the body is then past so many octets. Answers whether it is there.
fn add_record<'a>(
    alloc: Global,
    body: &mut Vec<u8>,
    places: &mut Vec<Place<'a>>,
    added: &'a Record,
    most: usize,
) -> Result<bool, AllocError>
    requires { data_fault added.now.rdata ≡ None }
    ensures added { IfOk result (λ is. is ≡ true → (record { octets = body.new.items; places = places.new.items }
        ≡ record_added (record { octets = body.old.items; places = places.old.items }) added.now)
        × (length body.new.items ≤ most)) }
    ensures past { IfOk result (λ is. is ≡ false → (body.new.items ≡ body.old.items) × (most
        < length (record_added (record { octets = body.old.items; places = places.old.items }) added.now).octets)) }
    ensures valid { OnOk result (record_flaw added.now ≡ None) }
{
    let start = body.len();
    let whole = put_record(alloc, places, body, added)?;
    if most < body.len() {
        body.truncate(start);
        return Ok(false);
    }
    note_name(places, whole, HEADER + start, &added.name)?;
    Ok(true)
}

// Adds the questions.
pub(crate) fn add_queries<'a>(
    body: &mut Vec<u8>,
    places: &mut Vec<Place<'a>>,
    queries: &'a [Query],
) -> Result<(), AllocError>
    ensures added { OnOk result (record { octets = body.new.items; places = places.new.items }
        ≡ fold query_added (record { octets = body.old.items; places = places.old.items }) queries.now) }
    ensures valid { OnOk result (first_fault query_flaw queries.now ≡ None) }
{
    for i in 0..queries.len() {
        add_query(body, places, &queries[i])?;
    }
    Ok(())
}

// Adds the first of the records, as many as end within so many octets. Answers how many.
fn add_records<'a>(
    alloc: Global,
    body: &mut Vec<u8>,
    places: &mut Vec<Place<'a>>,
    records: &'a [Record],
    most: usize,
) -> Result<usize, AllocError>
    requires right { first_fault record_data_fault records.now ≡ None }
    requires fits { length body.old.items ≤ most }
    ensures kept { IfOk result (λ n. KeepsMost (record { octets = body.old.items; places = places.old.items })
        records.now most n body.new.items) }
    ensures all { IfOk result (λ n. n ≡ length records.now →
        record { octets = body.new.items; places = places.new.items }
        ≡ records_added (record { octets = body.old.items; places = places.old.items }) records.now) }
    ensures valid { IfOk result (λ n. first_fault record_flaw (take n records.now) ≡ None) }
{
    for i in 0..records.len() {
        let is_there = add_record(alloc, body, places, &records[i], most)?;
        if !is_there {
            return Ok(i);
        }
    }
    Ok(records.len())
}

// The same of the records of all sections, one behind the other.
pub(crate) fn add_sections<'a>(
    alloc: Global,
    body: &mut Vec<u8>,
    places: &mut Vec<Place<'a>>,
    message: &'a WireMessage,
    most: usize,
) -> Result<usize, AllocError>
    requires answers { first_fault record_data_fault message.now.message.answers ≡ None }
    requires authorities { first_fault record_data_fault message.now.message.authorities ≡ None }
    requires additionals { first_fault record_data_fault message.now.message.additionals ≡ None }
    requires fits { length body.old.items ≤ most }
    ensures kept { IfOk result (λ n. KeepsMost (record { octets = body.old.items; places = places.old.items })
        (records_of message.now) most n body.new.items) }
    ensures valid { IfOk result (λ n. first_fault record_flaw (take n (records_of message.now)) ≡ None) }
{
    let answers = answers_of(message);
    let first = add_records(alloc, body, places, answers, most)?;
    if first < answers.len() {
        return Ok(first);
    }
    let authorities = authorities_of(message);
    let second = add_records(alloc, body, places, authorities, most)?;
    if second < authorities.len() {
        return Ok(first + second);
    }
    let third = add_records(alloc, body, places, additionals_of(message), most)?;
    Ok(first + second + third)
}

pub(crate) fn queries_of(source: &WireMessage) -> &[Query]
    ensures { result.now ≡ source.now.message.queries }
{
    &source.message.queries
}

pub(crate) fn answers_of(source: &WireMessage) -> &[Record]
    ensures { result.now ≡ source.now.message.answers }
{
    &source.message.answers
}

pub(crate) fn authorities_of(source: &WireMessage) -> &[Record]
    ensures { result.now ≡ source.now.message.authorities }
{
    &source.message.authorities
}

pub(crate) fn additionals_of(source: &WireMessage) -> &[Record]
    ensures { result.now ≡ source.now.message.additionals }
{
    &source.message.additionals
}
