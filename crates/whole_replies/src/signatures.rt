//! What a signature signs (RFC 4034, section 3.1).
ghost use Rattle.std.specs.Prelude.{◌≡◌};
ghost use Rattle.hickory_proto_core.specs.Records.{data_of};
ghost use Rattle.whole_replies.specs.Ways.{covered, covered_type, is_signed_type, signs};

use hickory_proto_core::{Query, RData, Record, RecordType};

// DNAME (RFC 6672).
pub(crate) const DNAME: u16 = 39;

pub(crate) const RRSIG: u16 = 46;

const CNAME: u16 = 5;

// The first two octets, as a type.
fn covered(octets: &[u8]) -> Option<u16>
    ensures { result ≡ covered octets.now }
{
    let (high, rest) = octets.split_first()?;
    let low = rest.first()?;
    Some(u16::from(*high) * 256 + u16::from(*low))
}

fn covered_type(rdata: &RData) -> Option<u16>
    ensures { result ≡ covered_type (data_of rdata.now) }
{
    match rdata {
        RData::Unknown { bytes, .. } => covered(bytes),
        _ => None,
    }
}

fn is_signed_type(query: &Query, code: u16) -> bool
    ensures { result ≡ is_signed_type query.now code }
{
    code == CNAME
        || code == DNAME
        || code == query.query_type.code()
        || query.query_type == RecordType::ANY
}

// Whether it signs aliases, DNAME, or records of the type that is asked.
pub(crate) fn signs(query: &Query, found: &Record) -> bool
    ensures { result ≡ signs query.now found.now }
{
    match covered_type(&found.rdata) {
        Some(code) => is_signed_type(query, code),
        None => false,
    }
}
