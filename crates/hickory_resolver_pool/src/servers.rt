//! The servers of a group, as a program gives them.
ghost use Rattle.std.specs.Prelude.{◌≡◌, map, IfOk};
ghost use Rattle.hickory_resolver_config.specs.Connections.{protocol_value};
ghost use Rattle.hickory_resolver_servers.specs.Server.{is_udp, is_tcp};
ghost use Rattle.hickory_resolver_pool.specs.Servers.{first_source, source_over, sources_of, has_fixed_port, first_fixed, states_of};

use hickory_resolver_config::{ConnectionConfig, NameServerConfig, ProtocolConfig};
use hickory_resolver_servers::{Server, Servers};
use hickory_resolver_traffic::Sources;
use std::alloc::{AllocError, AllocFailed, Global};
use std::marker::Model;
use std::net::SocketAddr;
use thiserror::Error;

/// A server of a group.
#[derive(Debug, Drop)]
pub struct PoolServer {
    /// How it is asked.
    pub config: NameServerConfig,
    /// The octets of the scope of a link-local address (RFC 4007, section 6), none where it has none.
    pub scope: Vec<u8>,
}

impl Model for PoolServer {
    ghost use Rattle.hickory_resolver_pool.specs.Servers.{PoolServerValue};

    ghost Value = { PoolServerValue };

    ghost view = { λ s. record { config = s.config; scope = s.scope.items } };
}

/// Why the servers of a group are refused.
#[derive(Clone, Copy, Debug, PartialEq, Eq, Error)]
pub enum ServersError {
    /// The server of this place, counted from 0, is to be asked over UDP from a port that is given: what is sent from
    /// it could be answered by anybody who guesses the number of the message.
    #[error("server {0} has a UDP source port")]
    FixedPort(usize),
    /// No memory was left.
    #[error("out of memory")]
    OutOfMemory,
}

impl From<AllocError> for ServersError {
    ghost use Rattle.std.specs.Prelude.{◌≡◌};
    ghost use Rattle.hickory_resolver_pool.specs.declared.servers.ServersError.TheVariants.{OutOfMemory};

    ghost from_gives = { λ _ e. e ≡ OutOfMemory };

    fn from(_e: AllocError) -> ServersError {
        ServersError::OutOfMemory
    }
}

impl<T: Drop> From<AllocFailed<T>> for ServersError {
    ghost use Rattle.std.specs.Prelude.{◌≡◌};
    ghost use Rattle.hickory_resolver_pool.specs.declared.servers.ServersError.TheVariants.{OutOfMemory};

    ghost from_gives = { λ _ e. e ≡ OutOfMemory };

    fn from(_e: AllocFailed<T>) -> ServersError {
        ServersError::OutOfMemory
    }
}

fn is_udp(protocol: &ProtocolConfig) -> bool
    ensures { result ≡ is_udp (protocol_value protocol.now) }
{
    match protocol {
        ProtocolConfig::Udp => true,
        _ => false,
    }
}

fn is_tcp(protocol: &ProtocolConfig) -> bool
    ensures { result ≡ is_tcp (protocol_value protocol.now) }
{
    match protocol {
        ProtocolConfig::Tcp => true,
        _ => false,
    }
}

fn first_udp(connections: &[ConnectionConfig]) -> Option<Option<SocketAddr>>
    ensures { result ≡ first_source is_udp connections.now }
{
    let first = connections.iter().find(|one| is_udp(&one.protocol));
    first.map(|one| one.bind_addr)
}

fn udp_source(connections: &[ConnectionConfig]) -> Option<SocketAddr>
    ensures { result ≡ source_over is_udp connections.now }
{
    match first_udp(connections) {
        Some(source) => source,
        None => None,
    }
}

fn first_tcp(connections: &[ConnectionConfig]) -> Option<Option<SocketAddr>>
    ensures { result ≡ first_source is_tcp connections.now }
{
    let first = connections.iter().find(|one| is_tcp(&one.protocol));
    first.map(|one| one.bind_addr)
}

fn tcp_source(connections: &[ConnectionConfig]) -> Option<SocketAddr>
    ensures { result ≡ source_over is_tcp connections.now }
{
    match first_tcp(connections) {
        Some(source) => source,
        None => None,
    }
}

impl PoolServer {
    // From where channels to it are opened.
    fn sources(&self) -> Sources
        ensures { result ≡ sources_of self.now }
    {
        Sources {
            udp: udp_source(&self.config.connections),
            tcp: tcp_source(&self.config.connections),
        }
    }

    // Whether it is to be asked over UDP from a port that is given.
    fn has_fixed_port(&self) -> bool
        ensures { result ≡ has_fixed_port self.now }
    {
        match udp_source(&self.config.connections) {
            Some(address) => address.port() != 0,
            None => false,
        }
    }
}

// The place of the first that is to be asked over UDP from a port that is given.
pub(crate) fn first_fixed(servers: &[PoolServer]) -> Option<usize>
    ensures { result ≡ first_fixed servers.now }
{
    servers.iter().position(|one| one.has_fixed_port())
}

pub(crate) fn servers_of(alloc: Global, servers: &[PoolServer]) -> Result<Servers, AllocError>
    ensures { IfOk result (λ s. s ≡ states_of servers.now) }
{
    let mut out = Servers::new(alloc);
    for one in servers {
        let scope = Vec::from_slice(alloc, &one.scope)?;
        out.push(Server::new(&one.config, scope))?;
    }
    Ok(out)
}

pub(crate) fn all_sources(alloc: Global, servers: &[PoolServer]) -> Result<Vec<Sources>, AllocError>
    ensures { IfOk result (λ s. s.items ≡ map sources_of servers.now) }
{
    let mut out = Vec::new(alloc);
    for one in servers {
        out.push(one.sources())?;
    }
    Ok(out)
}
