//! Connections to a server.
ghost use Rattle.std.specs.Prelude.{◌≡◌, false, IfOk, IsOk, IsOkUnless, IsSome, string_bytes};
ghost use Rattle.hickory_resolver_config.specs.Connections.{ConnectionValue, protocol_value, connection_over, over_udp, over_tcp, over_tls, over_https, over_quic, over_h3, path_or_default};

use crate::protocol_config::{DEFAULT_DNS_QUERY_PATH, ProtocolConfig};
use hickory_proto_core::NetError;
use std::alloc::AllocError;
use std::marker::Model;
use std::net::SocketAddr;

/// A connection to a server. No field has an effect here: the upstream that is handed in decides how it asks.
#[derive(Debug, Drop)]
pub struct ConnectionConfig {
    /// The port of the server.
    pub port: u16,
    /// The protocol, with what it needs to know of the server.
    pub protocol: ProtocolConfig,
    /// The local address to connect from.
    pub bind_addr: Option<SocketAddr>,
}

impl Model for ConnectionConfig {
    ghost use Rattle.hickory_resolver_config.specs.Connections.{ConnectionValue, protocol_value};

    ghost Value = { ConnectionValue };

    ghost view = { λ c. record {
      port = c.port;
      protocol = protocol_value c.protocol;
      bind_addr = c.bind_addr;
    } };
}

impl ConnectionConfig {
    /// A connection of this protocol to its default port, from any local address.
    pub fn new(protocol: ProtocolConfig) -> ConnectionConfig
        ensures { result ≡ connection_over (protocol_value protocol) }
    {
        ConnectionConfig {
            port: protocol.default_port(),
            protocol,
            bind_addr: None,
        }
    }

    /// A connection over UDP.
    pub fn udp() -> ConnectionConfig
        ensures { result ≡ connection_over over_udp }
    {
        ConnectionConfig::new(ProtocolConfig::Udp)
    }

    /// A connection over TCP.
    pub fn tcp() -> ConnectionConfig
        ensures { result ≡ connection_over over_tcp }
    {
        ConnectionConfig::new(ProtocolConfig::Tcp)
    }

    /// A connection over TLS to the server of this name.
    pub fn tls(server_name: String) -> ConnectionConfig
        ensures { result ≡ connection_over (over_tls (string_bytes server_name)) }
    {
        ConnectionConfig::new(ProtocolConfig::Tls { server_name })
    }

    /// A connection over HTTPS to the server of this name, with this path, or `/dns-query` where none is
    /// given. The only error is to be out of memory for that one.
    pub fn https(server_name: String, path: Option<String>) -> Result<ConnectionConfig, NetError>
        ensures ok { IfOk result
            (λ c. c ≡ connection_over (over_https (string_bytes server_name) (path_or_default path))) }
        ensures given { IsSome path → IsOk result }
        ensures err { IsOkUnless result NetError.OutOfMemory }
    {
        let path = given_or_default(&server_name, path)?;
        Ok(ConnectionConfig::new(ProtocolConfig::Https { server_name, path }))
    }

    /// A connection over QUIC to the server of this name.
    pub fn quic(server_name: String) -> ConnectionConfig
        ensures { result ≡ connection_over (over_quic (string_bytes server_name)) }
    {
        ConnectionConfig::new(ProtocolConfig::Quic { server_name })
    }

    /// A connection over HTTP/3 to the server of this name, with this path, or `/dns-query` where none is
    /// given, and with reserved values sent. The only error is to be out of memory for that path.
    pub fn h3(server_name: String, path: Option<String>) -> Result<ConnectionConfig, NetError>
        ensures ok { IfOk result
            (λ c. c ≡ connection_over (over_h3 (string_bytes server_name) (path_or_default path) false)) }
        ensures given { IsSome path → IsOk result }
        ensures err { IsOkUnless result NetError.OutOfMemory }
    {
        let path = given_or_default(&server_name, path)?;
        Ok(ConnectionConfig::new(ProtocolConfig::H3 {
            server_name,
            path,
            disable_grease: false,
        }))
    }

    /// A copy of every field.
    pub fn clone(&self) -> Result<ConnectionConfig, NetError>
        ensures ok { IfOk result (λ c. c ≡ self.now) }
        ensures err { IsOkUnless result NetError.OutOfMemory }
    {
        Ok(Clone::clone(self)?)
    }
}

/// A copy equals its source.
impl Clone for ConnectionConfig {
    ghost use Rattle.std.specs.Prelude.{◌≡◌};

    ghost is_clone = { λ source copy. copy ≡ source };

    fn clone(&self) -> Result<ConnectionConfig, AllocError> {
        Ok(ConnectionConfig {
            port: self.port,
            protocol: Clone::clone(&self.protocol)?,
            bind_addr: self.bind_addr,
        })
    }
}

// The path that is given, or the default one, in memory of the allocator of the server's name.
fn given_or_default(server_name: &String, path: Option<String>) -> Result<String, NetError>
    ensures ok { IfOk result (λ p. string_bytes p ≡ path_or_default path) }
    ensures given { IsSome path → IsOk result }
    ensures err { IsOkUnless result NetError.OutOfMemory }
{
    match path {
        Some(path) => Ok(path),
        None => Ok(String::from_str(*server_name.allocator(), DEFAULT_DNS_QUERY_PATH)?),
    }
}
