//! What a stranger can make long: a search list, and a negative answer of many name servers.
use crate::measure::{Stopwatch, Subject};
use crate::samples::{Numbered, address, list};
use hickory_proto_core::{
    DnsRequestOptions, DnsResponse, Message, Name, NetError, OpCode, Query, RData, Record,
    TableHandle,
};
use hickory_resolver::{CachingClient, Lookup, attempts};
use std::alloc::Global;
use std::rt::Clock;

// How many search domains there are, and how many name servers with as many addresses.
const LENGTH: u64 = 2_000;

// How many batches a round has, of one operation each.
const TIMES: u64 = 20;

/// Times a name below many search domains and a negative answer of one name server in many records, and prints a row
/// for each.
pub fn print_times<R: Clock + Print>(
    alloc: Global,
    watch: &mut Stopwatch<'_, R>,
) -> anyhow::Result<()> {
    let searches = &mut Searches {
        alloc,
        domains: list(alloc, LENGTH)?,
    };
    let what = "a name below 2,000 domains, a domain";
    watch.print_best(what, searches, TIMES, 1, TIMES * LENGTH)?;
    let referrals = &mut Referrals {
        client: CachingClient::new(alloc, 1, referral_handle(alloc)?, true),
        query: Query::of(alloc, 0)?,
    };
    let what = "2,000 records of one server, a record";
    watch.print_best(what, referrals, TIMES, 2, TIMES * LENGTH)
}

// The names that are attempted for a short name.
#[derive(Drop)]
struct Searches {
    alloc: Global,
    domains: Vec<Name>,
}

impl Subject for Searches {
    fn operate(&mut self, _i: usize) -> Result<u64, NetError> {
        let name = Name::from_ascii(self.alloc, "www")?;
        let names = attempts(self.alloc, name, 1, None, &self.domains)?;
        Ok(names.len() as u64)
    }
}

// A question that is asked and stored, and then answered by the cache.
#[derive(Drop)]
struct Referrals {
    client: CachingClient<TableHandle>,
    query: Query,
}

impl Subject for Referrals {
    fn prepare(&mut self) -> Result<(), NetError> {
        self.client.clear_cache();
        Ok(())
    }

    fn operate(&mut self, i: usize) -> Result<u64, NetError> {
        let query = self.query.clone()?;
        servers_of(
            self.client
                .lookup(query, DnsRequestOptions::default(), i as u64),
        )
    }
}

// How many name servers a negative answer refers to.
fn servers_of(found: Result<Lookup, NetError>) -> Result<u64, NetError> {
    match found {
        Ok(_) => Ok(0),
        Err(error) => match error.into_no_records() {
            Ok(none) => Ok(none.ns.map_or(0, |servers| servers.len() as u64)),
            Err(error) => Err(error),
        },
    }
}

fn referral_handle(alloc: Global) -> Result<TableHandle, NetError> {
    let query = Query::of(alloc, 0)?;
    let mut message = Message::response(alloc, 0, OpCode::Query);
    fill(alloc, &mut message, &query)?;
    let mut outcomes = Vec::new(alloc);
    outcomes.push((query, Ok(DnsResponse::from_message(message))))?;
    TableHandle::new(outcomes)
}

fn fill(alloc: Global, message: &mut Message, query: &Query) -> Result<(), NetError> {
    message.add_query(query.clone()?)?;
    let server = Name::of(alloc, 1)?;
    for _ in 0..LENGTH {
        let owner = query.name().clone()?;
        message.add_authority(Record::from_rdata(owner, 60, RData::NS(server.clone()?)))?;
        message.add_additional(Record::from_rdata(server.clone()?, 60, address()))?;
    }
    Ok(())
}
