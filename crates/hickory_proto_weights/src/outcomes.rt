//! The weights of outcomes, and of what is kept for a question.
ghost use Rattle.std.specs.Prelude.{◌≡◌};
ghost use Rattle.std.specs.Option.{option_map_or};
ghost use Rattle.hickory_proto_core.specs.Errors.{items_or_none};
ghost use Rattle.hickory_proto_core.specs.Records.{data_of, ns_target};
ghost use Rattle.hickory_proto_weights.specs.Weights.{saturated, record_weight, records_weight, message_weight, address_weight, server_weight, servers_weight, no_records_weight, error_weight, outcome_weight, weight_of};

use crate::choices::{ENTRY, NEGATIVE, RECORD, SERVER};
use crate::octets::name_weight;
use crate::records::{queries_weight, query_weight, record_weight, records_weight};
use hickory_proto_core::{
    DnsError, ForwardNSData, Message, NetError, NoRecords, Query, RData, Record,
};

fn message_weight(message: &Message) -> u64
    ensures { result ≡ saturated (message_weight message.now) }
{
    queries_weight(&message.queries)
        .saturating_add(records_weight(&message.answers))
        .saturating_add(records_weight(&message.authorities))
        .saturating_add(records_weight(&message.additionals))
}

// An address of the server that these data name.
fn address_weight(rdata: &RData) -> u64
    ensures { result ≡ saturated (address_weight (ns_target (data_of rdata.now))) }
{
    match rdata.ns_target() {
        Some(server) => RECORD.saturating_add(name_weight(server)),
        None => RECORD,
    }
}

// Of the addresses it reads how many they are: several servers may share them, so that a walk over those of each could
// take far longer than to read the response did.
fn server_weight(server: &ForwardNSData) -> u64
    ensures { result ≡ saturated (server_weight server.now) }
{
    let addresses = server.glue.len() as u64;
    SERVER
        .saturating_add(record_weight(&server.ns))
        .saturating_add(addresses.saturating_mul(address_weight(&server.ns.rdata)))
}

fn servers_weight(servers: &[ForwardNSData]) -> u64
    ensures { result ≡ saturated (servers_weight servers.now) }
{
    let mut total: u64 = 0;
    for server in servers {
        total = total.saturating_add(server_weight(server));
    }
    total
}

fn soa_weight(soa: &Option<Record>) -> u64
    ensures { result ≡ saturated (option_map_or record_weight soa.now 0) }
{
    match soa {
        Some(soa) => record_weight(soa),
        None => 0,
    }
}

fn name_servers_weight(servers: &Option<Vec<ForwardNSData>>) -> u64
    ensures { result ≡ saturated (option_map_or servers_weight (items_or_none servers.now) 0) }
{
    match servers {
        Some(servers) => servers_weight(servers),
        None => 0,
    }
}

fn section_weight(records: &Option<Vec<Record>>) -> u64
    ensures { result ≡ saturated (option_map_or records_weight (items_or_none records.now) 0) }
{
    match records {
        Some(records) => records_weight(records),
        None => 0,
    }
}

fn no_records_weight(none: &NoRecords) -> u64
    ensures { result ≡ saturated (no_records_weight none.now) }
{
    NEGATIVE
        .saturating_add(query_weight(&none.query))
        .saturating_add(soa_weight(&none.soa))
        .saturating_add(name_servers_weight(&none.ns))
        .saturating_add(section_weight(&none.authorities))
}

fn error_weight(error: &NetError) -> u64
    ensures { result ≡ saturated (error_weight error.now) }
{
    match error {
        NetError::Dns(DnsError::NoRecordsFound(none)) => no_records_weight(none),
        _ => 0,
    }
}

fn outcome_weight(outcome: &Result<Message, NetError>) -> u64
    ensures { result ≡ saturated (outcome_weight outcome.now) }
{
    match outcome {
        Ok(message) => message_weight(message),
        Err(error) => error_weight(error),
    }
}

/// How many octets a cache takes for an outcome that it keeps for a question: for each piece of it a constant, and the
/// octets of its names and data. It is 2^64 - 1 where that is more.
///
/// It is made for a bound of what a cache takes, so it counts each name as though it shared its memory with no other.
/// Where names do share, as copies of one do, less is taken than it says, by what they share. It says nothing of an error
/// that is no negative answer: no cache keeps one.
///
/// The addresses of a name server are weighed by their number, as addresses of the server that the NS record names. In a
/// response that was read from octets they are; a program that puts others there itself, with longer names, takes more.
pub fn weight_of(query: &Query, outcome: &Result<Message, NetError>) -> u64
    ensures { result ≡ saturated (weight_of query.now outcome.now) }
{
    ENTRY
        .saturating_add(name_weight(&query.name).saturating_mul(2))
        .saturating_add(outcome_weight(outcome))
}
