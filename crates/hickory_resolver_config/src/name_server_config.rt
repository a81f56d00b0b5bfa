//! Name servers.
ghost use Rattle.std.specs.Prelude.{◌≡◌, true, false, [], ◌∷◌, IfOk, IsOkUnless, string_bytes};
ghost use Rattle.hickory_proto_core.specs.Addresses.{address_text};
ghost use Rattle.hickory_resolver_config.specs.Connections.{over_udp, over_tcp, over_tls, over_https, over_quic, over_h3, path_or_default};
ghost use Rattle.hickory_resolver_config.specs.Servers.{ServerValue, server_over};

use crate::connection_config::ConnectionConfig;
use hickory_proto_core::{NetError, ip_text};
use std::alloc::{AllocError, Global};
use std::marker::Model;
use std::net::IpAddr;

/// A name server and how it is asked. No field has an effect here: the upstream that is handed in decides
/// whom it asks, and how.
#[derive(Debug, Drop)]
pub struct NameServerConfig {
    /// The address of the server.
    pub ip: IpAddr,
    /// Whether no other server is asked once this one has said that a name does not exist.
    pub trust_negative_responses: bool,
    /// The connections by which it is asked.
    pub connections: Vec<ConnectionConfig>,
}

impl Model for NameServerConfig {
    ghost use Rattle.hickory_resolver_config.specs.Servers.{ServerValue};

    ghost Value = { ServerValue };

    ghost view = { λ s. record {
      ip = s.ip;
      trust_negative_responses = s.trust_negative_responses;
      connections = s.connections.items;
    } };
}

impl NameServerConfig {
    /// A server of these parts.
    pub fn new(
        ip: IpAddr,
        trust_negative_responses: bool,
        connections: Vec<ConnectionConfig>,
    ) -> NameServerConfig
        ensures { result ≡ record {
          ip = ip;
          trust_negative_responses = trust_negative_responses;
          connections = connections.items;
        } }
    {
        NameServerConfig {
            ip,
            trust_negative_responses,
            connections,
        }
    }

    /// A trusted server that is asked over UDP and over TCP.
    pub fn udp_and_tcp(alloc: Global, ip: IpAddr) -> Result<NameServerConfig, NetError>
        ensures ok { IfOk result (λ s. s ≡ server_over (over_udp ∷ over_tcp ∷ []) ip) }
        ensures err { IsOkUnless result NetError.OutOfMemory }
    {
        let mut connections = Vec::new(alloc);
        connections.push(ConnectionConfig::udp())?;
        connections.push(ConnectionConfig::tcp())?;
        Ok(NameServerConfig::new(ip, true, connections))
    }

    /// A trusted server that is asked over UDP.
    pub fn udp(alloc: Global, ip: IpAddr) -> Result<NameServerConfig, NetError>
        ensures ok { IfOk result (λ s. s ≡ server_over (over_udp ∷ []) ip) }
        ensures err { IsOkUnless result NetError.OutOfMemory }
    {
        trusted(alloc, ip, ConnectionConfig::udp())
    }

    /// A trusted server that is asked over TCP.
    pub fn tcp(alloc: Global, ip: IpAddr) -> Result<NameServerConfig, NetError>
        ensures ok { IfOk result (λ s. s ≡ server_over (over_tcp ∷ []) ip) }
        ensures err { IsOkUnless result NetError.OutOfMemory }
    {
        trusted(alloc, ip, ConnectionConfig::tcp())
    }

    /// A trusted server of this name that is asked over TLS.
    pub fn tls(ip: IpAddr, server_name: String) -> Result<NameServerConfig, NetError>
        ensures ok { IfOk result (λ s. s ≡ server_over (over_tls (string_bytes server_name) ∷ []) ip) }
        ensures err { IsOkUnless result NetError.OutOfMemory }
    {
        let alloc = *server_name.allocator();
        trusted(alloc, ip, ConnectionConfig::tls(server_name))
    }

    /// A trusted server of this name that is asked over HTTPS, with this path, or `/dns-query` where none is
    /// given.
    pub fn https(
        ip: IpAddr,
        server_name: String,
        path: Option<String>,
    ) -> Result<NameServerConfig, NetError>
        ensures ok { IfOk result (λ s. s
            ≡ server_over (over_https (string_bytes server_name) (path_or_default path) ∷ []) ip) }
        ensures err { IsOkUnless result NetError.OutOfMemory }
    {
        let alloc = *server_name.allocator();
        trusted(alloc, ip, ConnectionConfig::https(server_name, path)?)
    }

    /// A trusted server of this name that is asked over QUIC.
    pub fn quic(ip: IpAddr, server_name: String) -> Result<NameServerConfig, NetError>
        ensures ok { IfOk result (λ s. s ≡ server_over (over_quic (string_bytes server_name) ∷ []) ip) }
        ensures err { IsOkUnless result NetError.OutOfMemory }
    {
        let alloc = *server_name.allocator();
        trusted(alloc, ip, ConnectionConfig::quic(server_name))
    }

    /// A trusted server of this name that is asked over HTTP/3, with this path, or `/dns-query` where none is
    /// given.
    pub fn h3(
        ip: IpAddr,
        server_name: String,
        path: Option<String>,
    ) -> Result<NameServerConfig, NetError>
        ensures ok { IfOk result (λ s. s
            ≡ server_over (over_h3 (string_bytes server_name) (path_or_default path) false ∷ []) ip) }
        ensures err { IsOkUnless result NetError.OutOfMemory }
    {
        let alloc = *server_name.allocator();
        trusted(alloc, ip, ConnectionConfig::h3(server_name, path)?)
    }

    /// A trusted server for opportunistic encryption (RFC 9539): UDP, TCP, TLS and QUIC, the last two with
    /// the text of the address as the name of the server.
    pub fn opportunistic_encryption(alloc: Global, ip: IpAddr) -> Result<NameServerConfig, NetError>
        ensures ok { IfOk result (λ s. s
            ≡ server_over
            (over_udp ∷ over_tcp ∷ over_tls (address_text ip) ∷ over_quic (address_text ip) ∷ []) ip) }
        ensures err { IsOkUnless result NetError.OutOfMemory }
    {
        let mut server = NameServerConfig::udp_and_tcp(alloc, ip)?;
        let tls = ConnectionConfig::tls(ip_text(alloc, ip)?);
        server.connections.push(tls)?;
        let quic = ConnectionConfig::quic(ip_text(alloc, ip)?);
        server.connections.push(quic)?;
        Ok(server)
    }

    /// A copy of every field.
    pub fn clone(&self) -> Result<NameServerConfig, NetError>
        ensures ok { IfOk result (λ s. s ≡ self.now) }
        ensures err { IsOkUnless result NetError.OutOfMemory }
    {
        Ok(Clone::clone(self)?)
    }
}

/// A copy equals its source.
impl Clone for NameServerConfig {
    ghost use Rattle.std.specs.Prelude.{◌≡◌};

    ghost is_clone = { λ source copy. copy ≡ source };

    fn clone(&self) -> Result<NameServerConfig, AllocError> {
        Ok(NameServerConfig {
            ip: self.ip,
            trust_negative_responses: self.trust_negative_responses,
            connections: self.connections.clone()?,
        })
    }
}

// A trusted server with one connection.
fn trusted(
    alloc: Global,
    ip: IpAddr,
    connection: ConnectionConfig,
) -> Result<NameServerConfig, NetError>
    ensures ok { IfOk result (λ s. s ≡ record {
      ip = ip;
      trust_negative_responses = true;
      connections = connection ∷ [];
    }) }
    ensures err { IsOkUnless result NetError.OutOfMemory }
{
    let mut connections = Vec::new(alloc);
    connections.push(connection)?;
    Ok(NameServerConfig::new(ip, true, connections))
}
