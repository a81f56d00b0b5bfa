//! The weights of questions and records.
ghost use Rattle.std.specs.Prelude.{◌≡◌};
ghost use Rattle.hickory_proto_core.specs.Records.{data_of};
ghost use Rattle.hickory_proto_weights.specs.Weights.{saturated, data_weight, record_weight, records_weight, query_weight, queries_weight};

use crate::choices::{QUERY, RECORD};
use crate::octets::{name_weight, octets_weight, strings_weight};
use hickory_proto_core::{Query, RData, Record};

// What the data have beside the place of the record.
fn data_weight(rdata: &RData) -> u64
    ensures { result ≡ saturated (data_weight (data_of rdata.now)) }
{
    match rdata {
        RData::A(_) => 0,
        RData::AAAA(_) => 0,
        RData::CNAME(target) => name_weight(target),
        RData::NS(target) => name_weight(target),
        RData::PTR(target) => name_weight(target),
        RData::SOA { mname, rname, .. } => name_weight(mname).saturating_add(name_weight(rname)),
        RData::SRV { target, .. } => name_weight(target),
        RData::MX { exchange, .. } => name_weight(exchange),
        RData::TXT(strings) => strings_weight(strings),
        RData::Unknown { bytes, .. } => octets_weight(bytes),
    }
}

pub(crate) fn record_weight(found: &Record) -> u64
    ensures { result ≡ saturated (record_weight found.now) }
{
    RECORD
        .saturating_add(name_weight(&found.name))
        .saturating_add(data_weight(&found.rdata))
}

pub(crate) fn records_weight(records: &[Record]) -> u64
    ensures { result ≡ saturated (records_weight records.now) }
{
    let mut total: u64 = 0;
    for found in records {
        total = total.saturating_add(record_weight(found));
    }
    total
}

pub(crate) fn query_weight(query: &Query) -> u64
    ensures { result ≡ saturated (query_weight query.now) }
{
    QUERY.saturating_add(name_weight(&query.name))
}

pub(crate) fn queries_weight(queries: &[Query]) -> u64
    ensures { result ≡ saturated (queries_weight queries.now) }
{
    let mut total: u64 = 0;
    for query in queries {
        total = total.saturating_add(query_weight(query));
    }
    total
}
