//! Copies of values that hold a collection.
use crate::memory::marks::done;
use crate::parts::{both, whole};
use crate::sample::{
    IP, Said, address, answer, glue, group, name, none, one, outcome_of, query, server, text,
};
use crate::shown::say;
use hickory_proto_core::{
    DnsError, DnsResponse, ForwardNSData, Message, Name, NetError, NoRecords, Outcome, Query,
    RData, Record, RecordType, clone_outcome,
};
use hickory_resolver::{
    ConnectionConfig, Lookup, LookupIp, NameServerConfig, ProtocolConfig, ResolverConfig,
    ResolverOpts, ServerGroup, TtlBounds, TtlConfig,
};
use std::alloc::Global;
use std::fmt::Debug;

/// Makes the call of a case, and says whether there is such a case.
pub fn make(rt: &impl Print, alloc: Global, case: &str) -> Result<bool, NetError> {
    match case {
        "Name::clone" => done(copy(rt, case, name(alloc, "a"))),
        "Query::clone" => done(copy(rt, case, query(alloc, "a"))),
        "RData::clone" => done(copy(rt, case, strings(alloc))),
        "Record::clone" => done(copy(rt, case, address(alloc, "a", 60))),
        "Message::clone" => done(copy(rt, case, answer(alloc, "a", 60))),
        "DnsResponse::clone" => done(copy(rt, case, answered(alloc))),
        "ForwardNSData::clone" => done(copy(rt, case, forward(alloc))),
        "NoRecords::clone" => done(copy(rt, case, none(alloc))),
        "DnsError::clone" => done(copy(rt, case, none(alloc).map(DnsError::NoRecordsFound))),
        "NetError::clone" => done(copy(rt, case, none(alloc).map(NetError::from))),
        "ConnectionConfig::clone" => done(copy(rt, case, connection(alloc))),
        "ProtocolConfig::clone" => done(copy(rt, case, protocol(alloc))),
        "NameServerConfig::clone" => done(copy(rt, case, NameServerConfig::udp(alloc, IP))),
        "ResolverConfig::clone" => done(copy(rt, case, config(alloc))),
        "ServerGroup::clone" => done(copy(rt, case, group(alloc))),
        "ResolverOpts::clone" => done(copy(rt, case, options(alloc))),
        "clone_outcome" => done(copy(rt, case, Ok(answered(alloc)))),
        "Lookup::clone" => done(copy(rt, case, one(alloc, "a"))),
        "LookupIp::clone" => done(copy(rt, case, one(alloc, "a").map(LookupIp::from))),
        "TtlConfig::clone" => done(copy(rt, case, bounds(alloc))),
        _ => Ok(false),
    }
}

// A copy that outlives its source.
fn copy<T: Copied + Debug + Drop>(
    rt: &impl Print,
    case: &str,
    source: Result<T, NetError>,
) -> Result<(), NetError> {
    let source = source?;
    let copy = call!(rt, case, source.copied());
    drop(source);
    show_copy(rt, copy);
    Ok(())
}

/// A value that is copied by a call of its own.
trait Copied: Sized {
    /// The copy.
    fn copied(&self) -> Result<Self, NetError>;
}

impl Copied for Name {
    fn copied(&self) -> Result<Name, NetError> {
        Ok(self.clone()?)
    }
}

impl<'a> Copied for ServerGroup<'a> {
    fn copied(&self) -> Result<ServerGroup<'a>, NetError> {
        self.clone()
    }
}

impl Copied for Outcome {
    fn copied(&self) -> Result<Outcome, NetError> {
        clone_outcome(self)
    }
}

impl Copied for Query {
    fn copied(&self) -> Result<Query, NetError> {
        self.clone()
    }
}

impl Copied for RData {
    fn copied(&self) -> Result<RData, NetError> {
        self.clone()
    }
}

impl Copied for Record {
    fn copied(&self) -> Result<Record, NetError> {
        self.clone()
    }
}

impl Copied for Message {
    fn copied(&self) -> Result<Message, NetError> {
        self.clone()
    }
}

impl Copied for DnsResponse {
    fn copied(&self) -> Result<DnsResponse, NetError> {
        self.clone()
    }
}

impl Copied for ForwardNSData {
    fn copied(&self) -> Result<ForwardNSData, NetError> {
        self.clone()
    }
}

impl Copied for NoRecords {
    fn copied(&self) -> Result<NoRecords, NetError> {
        self.clone()
    }
}

impl Copied for DnsError {
    fn copied(&self) -> Result<DnsError, NetError> {
        self.clone()
    }
}

impl Copied for NetError {
    fn copied(&self) -> Result<NetError, NetError> {
        self.clone()
    }
}

impl Copied for ConnectionConfig {
    fn copied(&self) -> Result<ConnectionConfig, NetError> {
        self.clone()
    }
}

impl Copied for ProtocolConfig {
    fn copied(&self) -> Result<ProtocolConfig, NetError> {
        self.clone()
    }
}

impl Copied for NameServerConfig {
    fn copied(&self) -> Result<NameServerConfig, NetError> {
        self.clone()
    }
}

impl Copied for ResolverConfig {
    fn copied(&self) -> Result<ResolverConfig, NetError> {
        self.clone()
    }
}

impl Copied for ResolverOpts {
    fn copied(&self) -> Result<ResolverOpts, NetError> {
        self.clone()
    }
}

impl Copied for Lookup {
    fn copied(&self) -> Result<Lookup, NetError> {
        self.clone()
    }
}

impl Copied for LookupIp {
    fn copied(&self) -> Result<LookupIp, NetError> {
        self.clone()
    }
}

impl Copied for TtlConfig {
    fn copied(&self) -> Result<TtlConfig, NetError> {
        self.clone()
    }
}

// The copy as `Debug` prints it, or the error.
fn show_copy<T: Debug + Drop>(rt: &impl Print, copy: Result<T, NetError>) {
    match &copy {
        Ok(copy) => {
            let _ = println!(rt; "{copy:?}");
        }
        Err(error) => say(rt, error),
    }
    drop(copy);
}

fn answered(alloc: Global) -> Outcome {
    outcome_of(alloc, "a", RecordType::A, Said::Address)
}

fn strings(alloc: Global) -> Result<RData, NetError> {
    Ok(RData::TXT(vec![in alloc; Vec::from_slice(alloc, b"one")?]?))
}

fn forward(alloc: Global) -> Result<ForwardNSData, NetError> {
    let (ns, glue) = both(server(alloc), glue(alloc))?;
    Ok(ForwardNSData { ns, glue })
}

fn connection(alloc: Global) -> Result<ConnectionConfig, NetError> {
    ConnectionConfig::https(text(alloc, "s.")?, None)
}

fn protocol(alloc: Global) -> Result<ProtocolConfig, NetError> {
    let server_name = text(alloc, "s.")?;
    Ok(ProtocolConfig::Tls { server_name })
}

fn config(alloc: Global) -> Result<ResolverConfig, NetError> {
    let mut config = ResolverConfig::default(alloc);
    whole(add_parts(alloc, &mut config), config)
}

fn add_parts(alloc: Global, config: &mut ResolverConfig) -> Result<(), NetError> {
    config.set_domain(name(alloc, "d")?)?;
    config.add_name_server(NameServerConfig::udp(alloc, IP)?)
}

fn options(alloc: Global) -> Result<ResolverOpts, NetError> {
    let mut options = ResolverOpts::default(alloc);
    options.avoid_local_udp_ports.insert(53)?;
    Ok(options)
}

fn bounds(alloc: Global) -> Result<TtlConfig, NetError> {
    let mut config = TtlConfig::default(alloc);
    whole(add_bounds(&mut config), config)
}

fn add_bounds(config: &mut TtlConfig) -> Result<(), NetError> {
    config.with_query_type_ttl_bounds(RecordType::A, TtlBounds::default())?;
    Ok(())
}
