//! Names, records, messages and outcomes that the calls are given. No copy shares the memory of a name of these yet.
use crate::parts::{both, whole};
use hickory_proto_core::{
    DnsError, DnsResponse, Glue, Message, Name, NetError, NoRecords, OpCode, Outcome, Query, RData,
    Record, RecordType, ResponseCode, ScriptHandle, TableHandle,
};
use hickory_resolver::{Lookup, ServerGroup};
use std::alloc::Global;
use std::net::{IpAddr, Ipv4Addr, Ipv6Addr};

pub const IP: IpAddr = IpAddr::V4(Ipv4Addr::LOCALHOST);

/// What an upstream says of a name.
#[derive(Clone, Copy)]
pub enum Said {
    /// Its IPv4 address, for a minute.
    Address,
    /// Its IPv6 address, for a minute.
    Ipv6Address,
    /// That it is an alias of another name, for five minutes.
    Alias(&'static str),
    /// That there is no such name.
    NoName,
    /// Nothing in time.
    Late,
    /// That the handle has no memory.
    NoMemory,
}

/// A name, the type that is asked for, and what an upstream says then.
pub type Pair = (&'static str, RecordType, Said);

/// The fully qualified name of one label.
pub fn name(alloc: Global, label: &str) -> Result<Name, NetError> {
    let labels = vec![in alloc; Vec::from_slice(alloc, label.as_bytes())?]?;
    Ok(Name::from_labels(labels)?)
}

/// A text.
pub fn text(alloc: Global, text: &str) -> Result<String, NetError> {
    Ok(String::from_str(alloc, text)?)
}

/// A question for the IPv4 addresses of a name.
pub fn query(alloc: Global, label: &str) -> Result<Query, NetError> {
    query_for(alloc, label, RecordType::A)
}

fn query_for(alloc: Global, label: &str, record_type: RecordType) -> Result<Query, NetError> {
    Ok(Query::query(name(alloc, label)?, record_type))
}

/// A record of an address, for a name and so many seconds.
pub fn address(alloc: Global, owner: &str, ttl: u32) -> Result<Record, NetError> {
    let owner = name(alloc, owner)?;
    Ok(Record::from_rdata(owner, ttl, RData::A(Ipv4Addr::new(192, 0, 2, 1))))
}

/// A list of one record, with room for no other.
pub fn one_address(alloc: Global, owner: &str) -> Result<Vec<Record>, NetError> {
    Ok(vec![in alloc; address(alloc, owner, 60)?]?)
}

/// More than there is room for behind the first one.
pub fn five_addresses(alloc: Global) -> Result<Vec<Record>, NetError> {
    let mut records = Vec::new(alloc);
    whole(push_addresses(alloc, &mut records), records)
}

fn push_addresses(alloc: Global, records: &mut Vec<Record>) -> Result<(), NetError> {
    for owner in ["a", "b", "c", "d", "e"] {
        records.push(address(alloc, owner, 60)?)?;
    }
    Ok(())
}

/// The record by which `a.` names its server.
pub fn server(alloc: Global) -> Result<Record, NetError> {
    let (owner, target) = both(name(alloc, "a"), name(alloc, "n"))?;
    Ok(Record::from_rdata(owner, 9, RData::NS(target)))
}

/// The addresses of that server.
pub fn glue(alloc: Global) -> Result<Glue, NetError> {
    Glue::new(one_address(alloc, "n")?)
}

/// A response to a question, without records.
pub fn empty(alloc: Global, asked: Result<Query, NetError>) -> Result<Message, NetError> {
    let asked = asked?;
    let mut message = Message::response(alloc, 0, OpCode::Query);
    whole(message.add_query(asked), message)
}

/// The message with one more answer, where both were made.
pub fn with_answer(
    message: Result<Message, NetError>,
    added: Result<Record, NetError>,
) -> Result<Message, NetError> {
    let (mut message, added) = both(message, added)?;
    whole(message.add_answer(added), message)
}

/// A response to a question for addresses, with one.
pub fn answer(alloc: Global, asked: &str, ttl: u32) -> Result<Message, NetError> {
    let empty = empty(alloc, query(alloc, asked));
    with_answer(empty, address(alloc, asked, ttl))
}

/// A response to a question for the addresses of a name as it is written, with one record of these data.
pub fn answer_of(
    alloc: Global,
    owner: &str,
    ttl: u32,
    data: Result<RData, NetError>,
) -> Result<Message, NetError> {
    let empty = empty(alloc, query_as_written(alloc, owner));
    with_answer(empty, record_of(alloc, owner, ttl, data))
}

fn query_as_written(alloc: Global, owner: &str) -> Result<Query, NetError> {
    Ok(Query::query(Name::from_ascii(alloc, owner)?, RecordType::A))
}

fn record_of(
    alloc: Global,
    owner: &str,
    ttl: u32,
    data: Result<RData, NetError>,
) -> Result<Record, NetError> {
    let data = data?;
    match Name::from_ascii(alloc, owner) {
        Ok(owner) => Ok(Record::from_rdata(owner, ttl, data)),
        Err(fault) => {
            drop(data);
            Err(NetError::from(fault))
        }
    }
}

/// A response that there is no such name, with the SOA record of its zone, a server of it, and the server's address.
pub fn no_such_name(alloc: Global, asked: Result<Query, NetError>) -> Result<Message, NetError> {
    let mut message = empty(alloc, asked)?;
    message.metadata.response_code = ResponseCode::NXDomain;
    whole(add_zone(alloc, &mut message), message)
}

fn add_zone(alloc: Global, message: &mut Message) -> Result<(), NetError> {
    let data = RData::SOA {
        mname: Name::root(alloc),
        rname: Name::root(alloc),
        serial: 1,
        refresh: 2,
        retry: 3,
        expire: 4,
        minimum: 40,
    };
    message.add_authority(Record::from_rdata(name(alloc, "a")?, 50, data))?;
    message.add_authority(server(alloc)?)?;
    message.add_additional(address(alloc, "n", 60)?)
}

/// The negative answer that a response comes to that there is no `x.`.
pub fn none(alloc: Global) -> Result<NoRecords, NetError> {
    let response = DnsResponse::from_message(no_such_name(alloc, query(alloc, "x"))?);
    match DnsError::from_response(response) {
        Ok(_) => Err(NetError::NoOutcome),
        Err(error) => error.into_no_records(),
    }
}

/// The outcome of a question for records of a type of a name.
pub fn outcome_of(alloc: Global, owner: &str, record_type: RecordType, said: Said) -> Outcome {
    match said {
        Said::Late => Err(NetError::Timeout),
        Said::NoMemory => Err(NetError::OutOfMemory),
        said => Ok(DnsResponse::from_message(response(alloc, owner, record_type, said)?)),
    }
}

fn response(
    alloc: Global,
    owner: &str,
    record_type: RecordType,
    said: Said,
) -> Result<Message, NetError> {
    let asked = query_for(alloc, owner, record_type);
    match said {
        Said::Ipv6Address => with_answer(empty(alloc, asked), ipv6(alloc, owner)),
        Said::Alias(target) => with_answer(empty(alloc, asked), alias(alloc, owner, target)),
        Said::Address => with_answer(empty(alloc, asked), address(alloc, owner, 60)),
        _ => no_such_name(alloc, asked),
    }
}

/// The question for records of a type of a name, and its outcome.
pub fn answered(
    alloc: Global,
    owner: &str,
    record_type: RecordType,
    said: Said,
) -> Result<(Query, Outcome), NetError> {
    let query = query_for(alloc, owner, record_type)?;
    Ok((query, outcome_of(alloc, owner, record_type, said)))
}

fn ipv6(alloc: Global, owner: &str) -> Result<Record, NetError> {
    let owner = name(alloc, owner)?;
    Ok(Record::from_rdata(owner, 60, RData::AAAA(Ipv6Addr::LOCALHOST)))
}

fn alias(alloc: Global, owner: &str, target: &str) -> Result<Record, NetError> {
    let (owner, target) = both(name(alloc, owner), name(alloc, target))?;
    Ok(Record::from_rdata(owner, 300, RData::CNAME(target)))
}

/// The outcomes of an upstream that is a table.
pub fn outcomes(alloc: Global, pairs: &[Pair]) -> Result<Vec<(Query, Outcome)>, NetError> {
    let mut outcomes = Vec::new(alloc);
    whole(push_outcomes(alloc, pairs, &mut outcomes), outcomes)
}

fn push_outcomes(
    alloc: Global,
    pairs: &[Pair],
    outcomes: &mut Vec<(Query, Outcome)>,
) -> Result<(), NetError> {
    for (label, record_type, given) in pairs {
        outcomes.push(answered(alloc, label, *record_type, *given)?)?;
    }
    Ok(())
}

/// An upstream that is a table.
pub fn table(alloc: Global, pairs: &[Pair]) -> Result<TableHandle, NetError> {
    TableHandle::new(outcomes(alloc, pairs)?)
}

/// An upstream that is a script.
pub fn script(alloc: Global, pairs: &[Pair]) -> Result<ScriptHandle, NetError> {
    let mut outcomes = Vec::new(alloc);
    let pushed = push_script(alloc, pairs, &mut outcomes);
    Ok(ScriptHandle::new(whole(pushed, outcomes)?))
}

fn push_script(alloc: Global, pairs: &[Pair], outcomes: &mut Vec<Outcome>) -> Result<(), NetError> {
    for (label, record_type, given) in pairs {
        outcomes.push(outcome_of(alloc, label, *record_type, *given))?;
    }
    Ok(())
}

/// A look-up of one address.
pub fn one(alloc: Global, owner: &str) -> Result<Lookup, NetError> {
    let (query, records) = both(query(alloc, owner), one_address(alloc, owner))?;
    Lookup::new_with_deadline(query, records, 60)
}

/// A group of one server.
pub fn group(alloc: Global) -> Result<ServerGroup<'static>, NetError> {
    let ips = vec![in alloc; IP]?;
    let (server_name, path) = ("s.", "/p");
    Ok(ServerGroup {
        ips,
        server_name,
        path,
    })
}
