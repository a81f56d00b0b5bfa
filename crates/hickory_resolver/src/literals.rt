//! Addresses that are given in place of a name, as the replies that they are by themselves.
ghost use Rattle.std.specs.Prelude.{◌≡◌, ◌⊎◌, Ok, Err};
ghost use Rattle.hickory_proto_core.specs.Records.{data_of};
ghost use Rattle.hickory_proto_core.specs.declared.net_error.NetError.TheVariants.{OutOfMemory};
ghost use Rattle.hickory_resolver_model.specs.Calls.{literal_at_once, last_resort};

use hickory_proto_core::{Name, NetError, Query, RData, Record};
use hickory_resolver_lookup::{Lookup, LookupIp, MAX_TTL};
use std::alloc::Global;
use std::net::IpAddr;

/// The address as the reply at once: owned by this name, under a question for it, for a day from this moment
/// (seconds).
pub fn literal_at_once(
    alloc: Global,
    owner: Name,
    address: IpAddr,
    now: u64,
) -> Result<Lookup, NetError>
    ensures { (result ≡ Ok (literal_at_once owner address now)) ⊎ (result ≡ Err OutOfMemory) }
{
    let rdata = RData::from(address);
    let question = Query::query(owner, rdata.record_type());
    Lookup::from_rdata(alloc, question, rdata, now)
}

/// Record data as the last resort: owned by the name without labels, under the question for the root, for a
/// day from this moment (seconds).
pub(crate) fn last_resort(alloc: Global, rdata: RData, now: u64) -> Result<Lookup, NetError>
    ensures { (result ≡ Ok (last_resort (data_of rdata) now)) ⊎ (result ≡ Err OutOfMemory) }
{
    let mut records = Vec::new(alloc);
    records.push(Record::from_rdata(Name::new(alloc), MAX_TTL, rdata))?;
    Lookup::new_with_max_ttl(Query::new(alloc), records, now)
}

/// A result that is read as addresses.
pub(crate) fn as_addresses(reply: Result<Lookup, NetError>) -> Result<LookupIp, NetError>
    ensures { result ≡ reply }
{
    match reply {
        Ok(lookup) => Ok(LookupIp::from(lookup)),
        Err(error) => Err(error),
    }
}
