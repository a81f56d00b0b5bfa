//! A small caching forwarder: a zone as its own upstream, below a resolver and below a client; and look-ups in a loop
//! of one's own.
#![tactic(auto)]

mod ask;
mod event_loop;
mod zone;

use ask::ask;
use event_loop::push_loop;
use hickory_proto_core::{Name, NetError, Query, RData, Record, RecordType};
use hickory_resolver::{
    CachingClient, Lookup, Resolver, ResolverConfig, ResolverOpts, ResponseCache, TtlBounds,
    TtlConfig,
};
use std::alloc::Global;
use std::net::Ipv4Addr;
use zone::Zone;

type Client = CachingClient<Zone>;

fn main(rt: HostRuntime) -> anyhow::Result<()> {
    let alloc = rt.alloc();
    let mut text = String::new(alloc);
    push_resolver(alloc, &mut text)?;
    push_client(alloc, &mut text)?;
    push_loop(alloc, &mut text)?;
    Ok(rt.print(text)?)
}

// The zone: an address below example.com, and the name server of example.com.
fn example_zone(alloc: Global) -> Result<Zone, NetError> {
    let mut records = Vec::new(alloc);
    records.push(address(alloc)?)?;
    records.push(server(alloc)?)?;
    Ok(Zone::new(alloc, soa(alloc)?, records))
}

fn address(alloc: Global) -> Result<Record, NetError> {
    let owner = Name::from_ascii(alloc, "www.example.com.")?;
    Ok(Record::from_rdata(owner, 300, RData::A(Ipv4Addr::new(192, 0, 2, 1))))
}

fn server(alloc: Global) -> Result<Record, NetError> {
    let owner = Name::from_ascii(alloc, "example.com.")?;
    let target = Name::from_ascii(alloc, "ns.example.com.")?;
    Ok(Record::from_rdata(owner, 3_600, RData::NS(target)))
}

fn soa(alloc: Global) -> Result<Record, NetError> {
    let owner = Name::from_ascii(alloc, "example.com.")?;
    let rdata = RData::SOA {
        mname: Name::from_ascii(alloc, "ns.example.com.")?,
        rname: Name::from_ascii(alloc, "admin.example.com.")?,
        serial: 1,
        refresh: 7_200,
        retry: 900,
        expire: 1_209_600,
        minimum: 60,
    };
    Ok(Record::from_rdata(owner, 60, rdata))
}

// A resolver that keeps no answer for more than ten minutes, and looks short names up below example.com.
fn resolver(alloc: Global) -> Result<Resolver<Zone>, NetError> {
    let zone = example_zone(alloc)?;
    let mut options = ResolverOpts::default(alloc);
    options.positive_max_ttl = Some(600);
    let builder = Resolver::builder_with_config(config(alloc)?, zone);
    builder.with_options(options).build()
}

fn config(alloc: Global) -> Result<ResolverConfig, NetError> {
    let mut config = ResolverConfig::default(alloc);
    config.add_search(Name::from_ascii(alloc, "example.com.")?)?;
    Ok(config)
}

fn push_resolver(alloc: Global, text: &mut String) -> Result<(), NetError> {
    let mut resolver = resolver(alloc)?;
    let pushed = push_names(text, &mut resolver);
    drop(resolver);
    pushed
}

fn push_names(text: &mut String, resolver: &mut Resolver<Zone>) -> Result<(), NetError> {
    push_reply(text, resolver.lookup("www", RecordType::A, 100))?;
    push_reply(text, resolver.lookup("www", RecordType::A, 145))?;
    push_reply(text, resolver.lookup("ftp", RecordType::A, 145))?;
    let zone = resolver.client().handle();
    Ok(write!(text, "asked so far: {}\n", zone.asked)?)
}

// A cache with room for a thousand answers. None is kept for more than an hour, and name servers for a minute.
fn cache(alloc: Global) -> Result<ResponseCache, NetError> {
    let bounds = TtlBounds::default().with_positive_max(3_600)?;
    let of_servers = bounds.with_positive_max(60)?;
    let mut config = TtlConfig::from(alloc, bounds);
    config.with_query_type_ttl_bounds(RecordType::NS, of_servers)?;
    Ok(ResponseCache::new(alloc, 1_000, config))
}

fn client(alloc: Global) -> Result<Client, NetError> {
    let zone = example_zone(alloc)?;
    Ok(CachingClient::with_cache(cache(alloc)?, zone, false))
}

fn push_client(alloc: Global, text: &mut String) -> Result<(), NetError> {
    let mut client = client(alloc)?;
    let pushed = push_servers(alloc, text, &mut client);
    drop(client);
    pushed
}

fn push_servers(alloc: Global, text: &mut String, client: &mut Client) -> Result<(), NetError> {
    push_reply(text, servers(alloc, client, 100))?;
    push_reply(text, servers(alloc, client, 160))?;
    push_reply(text, servers(alloc, client, 161))?;
    Ok(write!(text, "asked so far: {}\n", client.handle().asked)?)
}

fn servers(alloc: Global, client: &mut Client, now: u64) -> Result<Lookup, NetError> {
    let query = Query::query(Name::from_ascii(alloc, "example.com.")?, RecordType::NS);
    ask(client, query, now)
}

// What a look-up came to: its answers, a line each, or that there is no such name.
fn push_reply(text: &mut String, reply: Result<Lookup, NetError>) -> Result<(), NetError> {
    match reply {
        Ok(lookup) => push_answers(text, lookup),
        Err(error) => push_error(text, error),
    }
}

fn push_answers(text: &mut String, lookup: Lookup) -> Result<(), NetError> {
    let pushed = push_records(text, lookup.answers());
    drop(lookup);
    pushed
}

fn push_records(text: &mut String, records: &[Record]) -> Result<(), NetError> {
    for record in records {
        write!(text, "{record}\n")?;
    }
    Ok(())
}

fn push_error(text: &mut String, error: NetError) -> Result<(), NetError> {
    if !error.is_nx_domain() {
        return Err(error);
    }
    drop(error);
    Ok(text.push_str("no such name\n")?)
}
