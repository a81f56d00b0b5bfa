//! Questions and records as octets (RFC 1035, sections 4.1.2 and 4.1.3).
ghost use Rattle.std.specs.Prelude.{◌≡◌, ◌++◌, None, length, IfOk, OnOk};
ghost use Rattle.hickory_proto_core.specs.Records.{data_of};
ghost use Rattle.hickory_proto_wire.specs.Writing.{data_code};
ghost use Rattle.hickory_proto_wire.specs.Written.{whole_count, query_octets, record_octets};
ghost use Rattle.hickory_proto_wire.specs.Refused.{data_fault};
ghost use Rattle.hickory_proto_wire.specs.Made.{query_flaw, record_flaw};

use crate::data_writer::put_data;
use crate::name_writer::{Place, put_name};
use crate::octet_writer::{put_u16, put_u32};
use hickory_proto_core::{Query, RData, Record};
use std::alloc::{AllocError, Global};

// A question. Answers how many labels of its name stand there.
pub(crate) fn put_query(
    places: &[Place<'_>],
    out: &mut Vec<u8>,
    query: &Query,
) -> Result<usize, AllocError>
    ensures octets { OnOk result (out.new.items ≡ out.old.items ++ query_octets places.now query.now) }
    ensures whole { IfOk result (λ n. n ≡ whole_count places.now query.now.name.labels) }
    ensures valid { OnOk result (query_flaw query.now ≡ None) }
{
    let whole = put_name(places, out, &query.name)?;
    put_u16(out, query.query_type.code())?;
    put_u16(out, query.query_class.code())?;
    Ok(whole)
}

// The code of the type of data.
pub(crate) fn data_code(rdata: &RData) -> u16
    ensures { result ≡ data_code (data_of rdata.now) }
{
    match rdata {
        RData::A(_) => 1,
        RData::NS(_) => 2,
        RData::CNAME(_) => 5,
        RData::SOA { .. } => 6,
        RData::PTR(_) => 12,
        RData::MX { .. } => 15,
        RData::TXT(_) => 16,
        RData::AAAA(_) => 28,
        RData::SRV { .. } => 33,
        RData::Unknown { code, bytes: _ } => *code,
    }
}

// A record. Its data are made apart, since their length stands before them. Answers how many labels of its owner
// stand there.
pub(crate) fn put_record(
    alloc: Global,
    places: &[Place<'_>],
    out: &mut Vec<u8>,
    added: &Record,
) -> Result<usize, AllocError>
    requires { data_fault added.now.rdata ≡ None }
    ensures octets { OnOk result (out.new.items ≡ out.old.items ++ record_octets places.now added.now) }
    ensures whole { IfOk result (λ n. n ≡ whole_count places.now added.now.name.labels) }
    ensures valid { OnOk result (record_flaw added.now ≡ None) }
{
    let whole = put_name(places, out, &added.name)?;
    let mut octets = Vec::new(alloc);
    put_data(places, &mut octets, &added.rdata)?;
    put_u16(out, data_code(&added.rdata))?;
    put_u16(out, added.dns_class.code())?;
    put_u32(out, added.ttl)?;
    put_u16(out, octets.as_slice().len() as u16)?;
    out.extend_from_slice(&octets)?;
    Ok(whole)
}
