//! What a record is found by among all that were received.
ghost use Rattle.std.specs.Prelude.{◌≡◌, ◌++◌, IfOk, OnOk};
ghost use Rattle.hickory_proto_core.specs.Records.{data_of};
ghost use Rattle.hickory_proto_core.specs.Name.{label_bytes};
ghost use Rattle.std.specs.List.{flat_map};
ghost use Rattle.trace_judge.specs.RecordKeys.{is_sought, key_octets, key_target, no_target, record_key, sought_key};
ghost use Rattle.trace_judge.specs.Receptions.{question_of};

use hickory_proto_core::{Name, Query, RData, Record};
use std::alloc::{AllocError, Global};
use std::hash::{Hash, Hasher};
use std::marker::Model;

/// What a record is found by: the question that it answers, the name that its data lead to, and octets of its data. So
/// the many records of one name and type are told apart at once, but for those that are looked for by the question
/// alone: aliases, and what denials are made of.
#[derive(Debug, Drop)]
pub struct RecordKey {
    query: Query,
    target: Name,
    octets: Vec<u8>,
}

impl Model for RecordKey {
    ghost use Rattle.trace_judge.specs.RecordKeys.{KeyValue};

    ghost Value = { KeyValue };

    ghost view = { λ k. record { query = k.query; target = k.target; octets = k.octets.items } };
}

impl PartialEq for RecordKey {
    ghost use Rattle.std.specs.Cmp.{partial_equiv_from_equiv};
    ghost use Rattle.trace_judge.specs.RecordKeys.{key_eq, key_equiv};

    ghost eq = { key_eq };

    ghost laws = { partial_equiv_from_equiv key_equiv };

    fn eq(&self, other: &RecordKey) -> bool {
        self.query == other.query && self.target == other.target && self.octets == other.octets
    }
}

impl Eq for RecordKey {
    ghost use Rattle.trace_judge.specs.RecordKeys.{key_equiv};

    ghost laws = { key_equiv };
}

impl Hash for RecordKey {
    ghost use Rattle.trace_judge.specs.RecordKeys.{key_hash_input, key_respects_eq};

    ghost hash_input = { key_hash_input };

    ghost respects_eq = { key_respects_eq };

    fn hash<H: Hasher>(&self, state: &mut H) {
        self.query.hash(state);
        self.target.hash(state);
        state.write(self.octets.as_slice());
    }
}

impl RecordKey {
    /// The question that such a record answers.
    pub fn question(&self) -> &Query
        ensures { result.now ≡ self.now.query }
    {
        &self.query
    }
}

/// The key of a record.
pub fn record_key(alloc: Global, r: &Record) -> Result<RecordKey, AllocError>
    ensures { IfOk result (λ k. k ≡ record_key r.now) }
{
    Ok(RecordKey {
        query: question_of(r)?,
        target: key_target(alloc, &r.rdata)?,
        octets: key_octets(alloc, &r.rdata)?,
    })
}

/// The key of what is looked for by a question alone.
pub fn sought_key(alloc: Global, query: Query) -> RecordKey
    ensures { result ≡ sought_key query }
{
    octets_key(alloc, query, Vec::new(alloc))
}

/// The key of records whose data have these octets, and lead to no name.
pub fn octets_key(alloc: Global, query: Query, octets: Vec<u8>) -> RecordKey
    ensures { result ≡ record { query = query; target = no_target; octets = octets.items } }
{
    RecordKey {
        query,
        target: Name::root(alloc),
        octets,
    }
}

/// The question that a record answers.
pub fn question_of(r: &Record) -> Result<Query, AllocError>
    ensures { IfOk result (λ q. q ≡ question_of r.now) }
{
    Ok(Query {
        name: Clone::clone(&r.name)?,
        query_type: r.record_type(),
        query_class: r.dns_class,
    })
}

// The name that data lead to.
fn key_target(alloc: Global, rdata: &RData) -> Result<Name, AllocError>
    ensures { IfOk result (λ n. n ≡ key_target (data_of rdata.now)) }
{
    match rdata {
        RData::NS(target) | RData::PTR(target) => Clone::clone(target),
        RData::SOA { mname, .. } => Clone::clone(mname),
        RData::SRV { target, .. } => Clone::clone(target),
        RData::MX { exchange, .. } => Clone::clone(exchange),
        _ => Ok(Name::root(alloc)),
    }
}

// The octets of data that tell them from others of their name and type.
fn key_octets(alloc: Global, rdata: &RData) -> Result<Vec<u8>, AllocError>
    ensures { IfOk result (λ o. o.items ≡ key_octets (data_of rdata.now)) }
{
    let mut octets = Vec::new(alloc);
    match rdata {
        RData::A(address) => octets.extend_from_slice(&address.octets())?,
        RData::AAAA(address) => octets.extend_from_slice(&address.octets())?,
        RData::SOA { serial, .. } => octets.extend_from_slice(&serial.to_be_bytes())?,
        RData::SRV { port, .. } => octets.extend_from_slice(&port.to_be_bytes())?,
        RData::TXT(strings) => add_strings(strings, &mut octets)?,
        RData::Unknown { code, bytes } if !is_sought(*code) => octets.extend_from_slice(bytes)?,
        _ => {}
    }
    Ok(octets)
}

fn add_strings(strings: &[Vec<u8>], octets: &mut Vec<u8>) -> Result<(), AllocError>
    ensures { OnOk result (octets.new.items ≡ octets.old.items ++ flat_map (λ s. s) (label_bytes strings.now)) }
{
    for string in strings {
        octets.extend_from_slice(string)?;
    }
    Ok(())
}

fn is_sought(code: u16) -> bool
    ensures { result ≡ is_sought code }
{
    code == 39 || code == 50 || code == 51
}
