//! What a pool is opened with.
use crate::words::{behind, has_word, number_behind, put, whole, word_at};
use anyhow::Context;
use hickory_proto_core::{DnsRequestOptions, read_ip};
use hickory_resolver_config::{
    ConnectionConfig, NameServerConfig, ProtocolConfig, ResolverOpts, ServerOrderingStrategy,
};
use hickory_resolver_pool::{NameServerPool, PoolLimits, PoolServer};
use std::alloc::{AllocError, Global};
use std::hash::{BuildHasherDefault, FoldHasher};
use std::mem;
use std::net::{IpAddr, SocketAddr};

/// A pool with the usual hasher.
pub type Pool = NameServerPool<BuildHasherDefault<FoldHasher>>;

/// An address and what cases call the server there.
#[derive(Drop)]
pub struct ServerName {
    pub address: IpAddr,
    pub name: String,
}

/// The options, limits and seed of the pools that are opened from now on, the servers that the next list has, and the
/// names of all servers so far.
#[derive(Drop)]
pub struct Setup {
    pub options: ResolverOpts,
    pub request: DnsRequestOptions,
    limits: PoolLimits,
    seed: [u8; 32],
    servers: Vec<PoolServer>,
    pub names: Vec<ServerName>,
}

impl Setup {
    /// The usual options, without servers.
    pub fn new(alloc: Global) -> Setup {
        let options = usual_options(alloc);
        let request = request_of(&options);
        Setup {
            options,
            request,
            limits: PoolLimits::default(),
            seed: [0; 32],
            servers: Vec::new(alloc),
            names: Vec::new(alloc),
        }
    }

    /// Takes what a line says, and whether it says something of this.
    pub fn take(&mut self, alloc: Global, line: &str) -> anyhow::Result<bool> {
        if let Some(text) = line.strip_prefix("options") {
            self.begin(alloc, text)?;
            return Ok(true);
        }
        if let Some(text) = line.strip_prefix("limits ") {
            self.limits = limits_of(text)?;
            return Ok(true);
        }
        if let Some(text) = line.strip_prefix("seed ") {
            self.seed = seed_of(alloc, text)?;
            return Ok(true);
        }
        if let Some(text) = line.strip_prefix("server ") {
            self.add(alloc, text)?;
            return Ok(true);
        }
        Ok(false)
    }

    // All else is as it is by default again.
    fn begin(&mut self, alloc: Global, text: &str) -> anyhow::Result<()> {
        put(&mut self.options, usual_options(alloc));
        set_options(&mut self.options, text)?;
        self.request = request_of(&self.options);
        self.limits = PoolLimits::default();
        self.seed = [0; 32];
        Ok(())
    }

    // NAME ADDRESS, `udp` and `tcp`, each with a port or without, `bind=`, `scope=` and `trusted`.
    fn add(&mut self, alloc: Global, text: &str) -> anyhow::Result<()> {
        let address = read_ip(word_at(text, 1)?).context("an address")?;
        self.add_name(alloc, address, word_at(text, 0)?)?;
        let scope = behind(text, "scope=").unwrap_or("");
        let scope = Vec::from_slice(alloc, scope.as_bytes())?;
        let connections = connections_of(alloc, text)?;
        let config = NameServerConfig::new(address, has_word(text, "trusted"), connections);
        self.servers.push(PoolServer { config, scope })?;
        Ok(())
    }

    fn add_name(&mut self, alloc: Global, address: IpAddr, name: &str) -> anyhow::Result<()> {
        let name = String::from_str(alloc, name)?;
        self.names.push(ServerName { address, name })?;
        Ok(())
    }

    /// The servers that were said since the last list.
    pub fn take_servers(&mut self, alloc: Global) -> Vec<PoolServer> {
        mem::replace(&mut self.servers, Vec::new(alloc))
    }

    /// A pool with these options.
    pub fn open(&self, alloc: Global, options: ResolverOpts) -> Pool {
        let hasher = BuildHasherDefault::new();
        NameServerPool::new(alloc, options, self.limits, self.seed, hasher)
    }
}

/// One round, one try at once, servers in their order, without EDNS.
pub fn usual_options(alloc: Global) -> ResolverOpts {
    let mut options = ResolverOpts::default(alloc);
    options.timeout = 5;
    options.attempts = 0;
    options.num_concurrent_reqs = 1;
    options.max_active_requests = 32;
    options.edns_payload_len = 1232;
    options.server_ordering_strategy = ServerOrderingStrategy::UserProvidedOrder;
    options.try_tcp_on_error = false;
    options.case_randomization = false;
    options.edns0 = false;
    options.recursion_desired = true;
    options
}

// `timeout=`, `attempts=`, `concurrent=`, `active=`, `payload=`, `order=`, and of `tcp`, `letters`, `edns` and `norec`
// those that are wanted.
fn set_options(options: &mut ResolverOpts, text: &str) -> anyhow::Result<()> {
    options.timeout = number_behind(text, "timeout=", 5)?;
    options.attempts = number_behind(text, "attempts=", 0)? as usize;
    options.num_concurrent_reqs = number_behind(text, "concurrent=", 1)? as usize;
    options.max_active_requests = number_behind(text, "active=", 32)? as usize;
    options.edns_payload_len = number_behind(text, "payload=", 1232)?.min(65535) as u16;
    options.server_ordering_strategy = strategy_of(behind(text, "order="));
    options.try_tcp_on_error = has_word(text, "tcp");
    options.case_randomization = has_word(text, "letters");
    options.edns0 = has_word(text, "edns");
    options.recursion_desired = !has_word(text, "norec");
    Ok(())
}

fn strategy_of(word: Option<&str>) -> ServerOrderingStrategy {
    match word {
        Some("fast") => ServerOrderingStrategy::QueryStatistics,
        Some("turn") => ServerOrderingStrategy::RoundRobin,
        _ => ServerOrderingStrategy::UserProvidedOrder,
    }
}

// What the options say of each question.
fn request_of(options: &ResolverOpts) -> DnsRequestOptions {
    DnsRequestOptions {
        recursion_desired: options.recursion_desired,
        use_edns: options.edns0,
        edns_payload_len: options.edns_payload_len,
        case_randomization: options.case_randomization,
    }
}

fn limits_of(text: &str) -> anyhow::Result<PoolLimits> {
    let usual = PoolLimits::default();
    Ok(PoolLimits {
        transactions: number_behind(text, "transactions=", usual.transactions as u64)? as usize,
        waiting: number_behind(text, "waiting=", usual.waiting as u64)? as usize,
        channels: number_behind(text, "channels=", usual.channels as u64)? as usize,
    })
}

// The octets of a seed; those that are left out are 0.
fn seed_of(alloc: Global, text: &str) -> anyhow::Result<[u8; 32]> {
    let bytes = hex::decode(alloc, text)?;
    let mut seed = [0; 32];
    for i in 0..32 {
        seed[i] = bytes.get(i).copied().unwrap_or(0);
    }
    Ok(seed)
}

// `udp` and `tcp`, each with a port or without, and `bind=`.
fn connections_of(alloc: Global, text: &str) -> anyhow::Result<Vec<ConnectionConfig>> {
    let mut connections = Vec::new(alloc);
    let done = push_connections(&mut connections, text);
    whole(done, connections)
}

fn push_connections(connections: &mut Vec<ConnectionConfig>, text: &str) -> anyhow::Result<()> {
    let bind_addr = bind_of(behind(text, "bind="))?;
    for word in text.split_whitespace() {
        if word == "udp" || word.starts_with("udp=") {
            push_udp(connections, port_of(word, "udp=")?, bind_addr)?;
        } else if word == "tcp" || word.starts_with("tcp=") {
            push_tcp(connections, port_of(word, "tcp=")?, bind_addr)?;
        }
    }
    Ok(())
}

fn port_of(word: &str, front: &str) -> anyhow::Result<u16> {
    Ok(number_behind(word, front, 53)?.min(65535) as u16)
}

fn push_udp(
    connections: &mut Vec<ConnectionConfig>,
    port: u16,
    bind_addr: Option<SocketAddr>,
) -> Result<(), AllocError> {
    connections.push(ConnectionConfig {
        port,
        protocol: ProtocolConfig::Udp,
        bind_addr,
    })?;
    Ok(())
}

fn push_tcp(
    connections: &mut Vec<ConnectionConfig>,
    port: u16,
    bind_addr: Option<SocketAddr>,
) -> Result<(), AllocError> {
    connections.push(ConnectionConfig {
        port,
        protocol: ProtocolConfig::Tcp,
        bind_addr,
    })?;
    Ok(())
}

// An address, a colon, and a port.
fn bind_of(text: Option<&str>) -> anyhow::Result<Option<SocketAddr>> {
    let Some(text) = text else {
        return Ok(None);
    };
    let (address, port) = text.split_once(':').context("an address and a port")?;
    let address = read_ip(address).context("an address")?;
    Ok(Some(SocketAddr::new(address, port.parse::<u16>()?)))
}
