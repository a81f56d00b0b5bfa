//! Clients and resolvers: what they answer, what was asked, and what the cache keeps then.
use crate::memory::caches::has;
use crate::memory::marks::done;
use crate::memory::waits::waiting_of;
use crate::parts::{both, whole};
use crate::sample::{Pair, Said, name, query, script, table};
use crate::shown::{Shown, say_waits, show, show_exchanges};
use hickory_proto_core::{
    DnsHandle, DnsRequestOptions, Exchange, Name, NetError, RecordType, Recorded, TableHandle,
};
use hickory_resolver::{
    CachingClient, Hosts, Lookup, LookupFuture, LookupIp, LookupIpFuture, LookupIpStrategy,
    Resolver, ResolverConfig, ResolverOpts, ResponseCache,
};
use std::alloc::Global;

/// An upstream that is a table and records what it is asked.
pub type Upstream = Recorded<TableHandle>;

const A: RecordType = RecordType::A;

// What the upstream says.
const PAIRS: [Pair; 3] = [
    ("a", A, Said::Address),
    ("b", A, Said::Late),
    ("c", A, Said::Alias("a")),
];

/// The script of an alias, and of a handle that has no memory then.
pub const BEHIND: [Pair; 2] = [("a", A, Said::Alias("b")), ("b", A, Said::NoMemory)];

// The script of a handle that has no memory at first.
const AT_FIRST: [Pair; 2] = [("a", A, Said::NoMemory), ("a", A, Said::Address)];

// The types of the calls for one type each, in their order.
const TYPES: [RecordType; 11] = [
    RecordType::A,
    RecordType::AAAA,
    RecordType::MX,
    RecordType::NS,
    RecordType::SMIMEA,
    RecordType::SOA,
    RecordType::SRV,
    RecordType::TLSA,
    RecordType::TXT,
    RecordType::CERT,
    RecordType::PTR,
];

// The names that the upstream knows.
const LABELS: [&str; 3] = ["a", "b", "c"];

/// Makes the call of a case, and says whether there is such a case.
pub fn make(rt: &impl Print, alloc: Global, case: &str) -> Result<bool, NetError> {
    match case {
        "CachingClient::lookup"
        | "CachingClient::lookup of an alias"
        | "LookupFuture::lookup"
        | "LookupFuture::lookup_with_hosts"
        | "LookupIpFuture::lookup"
        | "CachingClient::ask" => done(with_client(rt, alloc, case)),
        "Resolver::lookup"
        | "Resolver::lookup_ip"
        | "Resolver::lookup_ip of an address"
        | "Resolver::clear_lookup_cache"
        | "the look-ups of one type each" => done(with_resolver(rt, alloc, case)),
        "a handle without memory, behind an alias" => done(look_up_behind(rt, alloc, case)),
        "a handle without memory, at a search domain" => done(look_up_at_first(rt, alloc, case)),
        _ => Ok(false),
    }
}

/// What a client asked its upstream, and what its cache keeps of these names.
pub fn show_client(
    rt: &impl Print,
    alloc: Global,
    exchanges: &[Exchange],
    cache: &ResponseCache,
    labels: &[&str],
) -> Result<(), NetError> {
    show_exchanges(rt, exchanges);
    show_kept(rt, alloc, cache, labels)
}

/// How many entries a cache has, and which of these names have one.
pub fn show_kept(
    rt: &impl Print,
    alloc: Global,
    cache: &ResponseCache,
    labels: &[&str],
) -> Result<(), NetError> {
    let _ = rt.print("  kept ");
    let _ = rt.print(cache.len());
    for label in labels {
        let query = query(alloc, label)?;
        if has(cache, &query, 0) {
            let _ = rt.print(" ");
            let _ = rt.print(label);
        }
    }
    let _ = rt.println("");
    Ok(())
}

fn upstream(alloc: Global) -> Result<Upstream, NetError> {
    Ok(Recorded::new(alloc, table(alloc, &PAIRS)?))
}

fn with_client(rt: &impl Print, alloc: Global, case: &str) -> Result<(), NetError> {
    let mut client = CachingClient::new(alloc, 8, upstream(alloc)?, false);
    let made = with_mut_client(rt, alloc, case, &mut client);
    drop(client);
    made
}

fn with_mut_client(
    rt: &impl Print,
    alloc: Global,
    case: &str,
    client: &mut CachingClient<Upstream>,
) -> Result<(), NetError> {
    match case {
        "CachingClient::lookup" => look_up(rt, alloc, case, client, "a")?,
        "CachingClient::lookup of an alias" => look_up(rt, alloc, case, client, "c")?,
        "CachingClient::ask" => ask(rt, alloc, case, client)?,
        _ => look_up_in_turn(rt, alloc, case, client)?,
    }
    show_client(
        rt,
        alloc,
        client.handle().exchanges(),
        client.cache(),
        &LABELS,
    )
}

fn look_up<H: DnsHandle>(
    rt: &impl Print,
    alloc: Global,
    case: &str,
    client: &mut CachingClient<H>,
    label: &str,
) -> Result<(), NetError> {
    let query = query(alloc, label)?;
    let options = DnsRequestOptions::default();
    show(rt, call!(rt, case, client.lookup(query, options, 0)));
    Ok(())
}

// The handle records what it is asked. The look-up waits as before.
fn ask(
    rt: &impl Print,
    alloc: Global,
    case: &str,
    client: &mut CachingClient<Upstream>,
) -> Result<(), NetError> {
    let waiting = waiting_of(client.start(query(alloc, "a")?, 0))?;
    let options = DnsRequestOptions::default();
    let (waiting, outcome) = call!(rt, case, client.ask(waiting, options));
    show(rt, outcome);
    let _ = rt.print("  ");
    say_waits(rt, waiting.question());
    drop(waiting);
    Ok(())
}

// A name with an answer, and one without, which is attempted first and which a table of hosts may have.
fn look_up_in_turn(
    rt: &impl Print,
    alloc: Global,
    case: &str,
    client: &mut CachingClient<Upstream>,
) -> Result<(), NetError> {
    let names = vec![in alloc; name(alloc, "a")?, name(alloc, "b")?]?;
    let mut hosts = Hosts::default(alloc);
    if case == "LookupFuture::lookup_with_hosts" {
        drop(hosts.read_hosts_bytes(b"10.0.0.2 b", 0));
    }
    show_in_turn(rt, case, client, &hosts, names);
    drop(hosts);
    Ok(())
}

fn show_in_turn(
    rt: &impl Print,
    case: &str,
    client: &mut CachingClient<Upstream>,
    hosts: &Hosts,
    names: Vec<Name>,
) {
    let (strategy, options) = (LookupIpStrategy::Ipv4Only, DnsRequestOptions::default());
    match case {
        "LookupFuture::lookup" => {
            show(
                rt,
                call!(rt, case, LookupFuture::lookup(names, A, options, client, 0)),
            );
        }
        "LookupFuture::lookup_with_hosts" => show(
            rt,
            call!(
                rt,
                case,
                LookupFuture::lookup_with_hosts(names, A, options, client, hosts, 0)
            ),
        ),
        _ => show(
            rt,
            call!(
                rt,
                case,
                LookupIpFuture::lookup(names, strategy, client, options, hosts, None, 0)
            ),
        ),
    }
}

impl Shown for LookupIp {
    fn show(&self, rt: &impl Print) {
        self.as_lookup().show(rt);
    }
}

/// A configuration with a search domain.
pub fn with_search(alloc: Global) -> Result<ResolverConfig, NetError> {
    let search = name(alloc, "x")?;
    let mut config = ResolverConfig::default(alloc);
    whole(config.add_search(search), config)
}

/// A resolver over the same upstream, with a search domain.
pub fn resolver(alloc: Global, strategy: LookupIpStrategy) -> Result<Resolver<Upstream>, NetError> {
    let (config, handle) = both(with_search(alloc), upstream(alloc))?;
    let mut options = ResolverOpts::default(alloc);
    options.ip_strategy = strategy;
    Resolver::builder_with_config(config, handle)
        .with_options(options)
        .build()
}

fn with_resolver(rt: &impl Print, alloc: Global, case: &str) -> Result<(), NetError> {
    let mut resolver = resolver(alloc, LookupIpStrategy::default())?;
    let made = with_mut_resolver(rt, alloc, case, &mut resolver);
    drop(resolver);
    made
}

// Of the look-ups of one type each it is shown how many were out of memory. A refused clear drops nothing.
fn with_mut_resolver(
    rt: &impl Print,
    alloc: Global,
    case: &str,
    resolver: &mut Resolver<Upstream>,
) -> Result<(), NetError> {
    match case {
        "the look-ups of one type each" => {
            let refused = call!(rt, case, ask_each(resolver));
            let _ = println!(rt; "{refused} out of memory");
            return Ok(());
        }
        "Resolver::clear_lookup_cache" => {
            drop(resolver.ipv4_lookup("a.", 0));
            show(rt, call!(rt, case, resolver.clear_lookup_cache("a", A)));
        }
        "Resolver::lookup" => show(rt, call!(rt, case, resolver.lookup("a", A, 0))),
        "Resolver::lookup_ip" => show(rt, call!(rt, case, resolver.lookup_ip("a.", 0))),
        _ => show(rt, call!(rt, case, resolver.lookup_ip("127.0.0.1", 0))),
    }
    let client = resolver.client();
    show_client(
        rt,
        alloc,
        client.handle().exchanges(),
        client.cache(),
        &LABELS,
    )
}

// How many of these look-ups, each of a name that the upstream knows nothing of, were out of memory.
fn ask_each(resolver: &mut Resolver<Upstream>) -> u8 {
    let mut refused = 0_u8;
    for record_type in TYPES {
        let answer = look_up_type(resolver, "d.", record_type);
        if matches!(&answer, Err(NetError::OutOfMemory)) {
            refused = refused.saturating_add(1);
        }
        drop(answer);
    }
    refused
}

// The look-up of a type by its own call.
fn look_up_type(
    resolver: &mut Resolver<Upstream>,
    name: &str,
    record_type: RecordType,
) -> Result<Lookup, NetError> {
    match record_type {
        RecordType::A => resolver.ipv4_lookup(name, 0),
        RecordType::AAAA => resolver.ipv6_lookup(name, 0),
        RecordType::MX => resolver.mx_lookup(name, 0),
        RecordType::NS => resolver.ns_lookup(name, 0),
        RecordType::SMIMEA => resolver.smimea_lookup(name, 0),
        RecordType::SOA => resolver.soa_lookup(name, 0),
        RecordType::SRV => resolver.srv_lookup(name, 0),
        RecordType::TLSA => resolver.tlsa_lookup(name, 0),
        RecordType::TXT => resolver.txt_lookup(name, 0),
        RecordType::CERT => resolver.cert_lookup(name, 0),
        _ => resolver.reverse_lookup(name, 0),
    }
}

// The canonical name of an alias is asked for, and the handle has no memory for its answer.
fn look_up_behind(rt: &impl Print, alloc: Global, case: &str) -> Result<(), NetError> {
    let handle = Recorded::new(alloc, script(alloc, &BEHIND)?);
    let mut client = CachingClient::new(alloc, 8, handle, false);
    let shown = match look_up(rt, alloc, case, &mut client, "a") {
        Ok(()) => show_client(
            rt,
            alloc,
            client.handle().exchanges(),
            client.cache(),
            &LABELS,
        ),
        Err(error) => Err(error),
    };
    drop(client);
    shown
}

// Below the search domain the handle has no memory, so that the name itself is not attempted.
fn look_up_at_first(rt: &impl Print, alloc: Global, case: &str) -> Result<(), NetError> {
    let (config, script) = both(with_search(alloc), script(alloc, &AT_FIRST))?;
    let handle = Recorded::new(alloc, script);
    let mut resolver = Resolver::builder_with_config(config, handle).build()?;
    show(rt, call!(rt, case, resolver.ipv4_lookup("a", 0)));
    let client = resolver.client();
    let shown = show_client(
        rt,
        alloc,
        client.handle().exchanges(),
        client.cache(),
        &LABELS,
    );
    drop(resolver);
    shown
}
