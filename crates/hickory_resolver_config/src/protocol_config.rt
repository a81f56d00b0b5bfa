//! Protocols with what they need to know of a server.
ghost use Rattle.std.specs.Prelude.{◌≡◌, IfOk, IsOkUnless};
ghost use Rattle.hickory_resolver_config.specs.Connections.{protocol_value, protocol_of, default_port, protocol_number, server_name_of, path_of, disables_grease};

use hickory_proto_core::{NetError, Protocol};
use std::alloc::AllocError;

// The path of a query over HTTP where no other is given: that of the examples in RFC 8484, section 4.1.1.
pub(crate) const DEFAULT_DNS_QUERY_PATH: &str = "/dns-query";

/// The protocol of a connection, with what it needs to know of the server. No field has an effect here: the
/// upstream that is handed in decides how it asks.
#[derive(Debug, Drop)]
pub enum ProtocolConfig {
    /// Plain DNS over UDP (RFC 1035, section 4.2.1).
    Udp,
    /// Plain DNS over TCP (RFC 7766).
    Tcp,
    /// DNS over TLS (RFC 7858).
    Tls {
        /// The name of the server in the TLS handshake.
        server_name: String,
    },
    /// DNS over HTTPS (RFC 8484).
    Https {
        /// The name of the server in the TLS handshake.
        server_name: String,
        /// The path of a query.
        path: String,
    },
    /// DNS over QUIC (RFC 9250).
    Quic {
        /// The name of the server in the TLS handshake.
        server_name: String,
    },
    /// DNS over HTTP/3 (RFC 8484, RFC 9114).
    H3 {
        /// The name of the server in the TLS handshake.
        server_name: String,
        /// The path of a query.
        path: String,
        /// Whether no reserved values are sent to keep peers tolerant (RFC 9114, section 7.2.8).
        disable_grease: bool,
    },
}

impl ProtocolConfig {
    /// The protocol of the same name.
    pub fn to_protocol(&self) -> Protocol
        ensures { result ≡ protocol_of (protocol_value self.now) }
    {
        match self {
            ProtocolConfig::Udp => Protocol::Udp,
            ProtocolConfig::Tcp => Protocol::Tcp,
            ProtocolConfig::Tls { .. } => Protocol::Tls,
            ProtocolConfig::Https { .. } => Protocol::Https,
            ProtocolConfig::Quic { .. } => Protocol::Quic,
            ProtocolConfig::H3 { .. } => Protocol::H3,
        }
    }

    /// The port at which servers of this protocol listen: 53 for UDP and TCP, 853 for TLS (RFC 7858, section
    /// 3.1) and QUIC (RFC 9250, section 4.1.1), 443 for HTTPS and HTTP/3.
    pub fn default_port(&self) -> u16
        ensures { result ≡ default_port (protocol_value self.now) }
    {
        match self {
            ProtocolConfig::Udp | ProtocolConfig::Tcp => 53,
            ProtocolConfig::Tls { .. } | ProtocolConfig::Quic { .. } => 853,
            ProtocolConfig::Https { .. } | ProtocolConfig::H3 { .. } => 443,
        }
    }

    // Tells the protocols apart.
    fn number(&self) -> u8
        ensures { result ≡ protocol_number (protocol_value self.now) }
    {
        match self {
            ProtocolConfig::Udp => 0,
            ProtocolConfig::Tcp => 1,
            ProtocolConfig::Tls { .. } => 2,
            ProtocolConfig::Https { .. } => 3,
            ProtocolConfig::Quic { .. } => 4,
            ProtocolConfig::H3 { .. } => 5,
        }
    }

    // The name of the server, where the protocol has it.
    fn server_name(&self) -> &str
        ensures { result.now ≡ server_name_of (protocol_value self.now) }
    {
        match self {
            ProtocolConfig::Udp | ProtocolConfig::Tcp => "",
            ProtocolConfig::Tls { server_name } => server_name,
            ProtocolConfig::Https { server_name, .. } => server_name,
            ProtocolConfig::Quic { server_name } => server_name,
            ProtocolConfig::H3 { server_name, .. } => server_name,
        }
    }

    // The path, where the protocol has it.
    fn path(&self) -> &str
        ensures { result.now ≡ path_of (protocol_value self.now) }
    {
        match self {
            ProtocolConfig::Https { path, .. } => path,
            ProtocolConfig::H3 { path, .. } => path,
            _ => "",
        }
    }

    fn disables_grease(&self) -> bool
        ensures { result ≡ disables_grease (protocol_value self.now) }
    {
        match self {
            ProtocolConfig::H3 { disable_grease, .. } => *disable_grease,
            _ => false,
        }
    }

    /// A copy of every field.
    pub fn clone(&self) -> Result<ProtocolConfig, NetError>
        ensures ok { IfOk result (λ p. protocol_value p ≡ protocol_value self.now) }
        ensures err { IsOkUnless result NetError.OutOfMemory }
    {
        Ok(Clone::clone(self)?)
    }
}

impl Default for ProtocolConfig {
    ghost use Rattle.std.specs.Prelude.{◌≡◌};
    ghost use Rattle.hickory_resolver_config.specs.declared.protocol_config.ProtocolConfig.TheVariants.{Udp};

    ghost is_default = { λ p. p ≡ Udp };

    fn default() -> ProtocolConfig {
        ProtocolConfig::Udp
    }
}

/// A copy equals its source.
impl Clone for ProtocolConfig {
    ghost use Rattle.std.specs.Prelude.{◌≡◌};
    ghost use Rattle.hickory_resolver_config.specs.Connections.{protocol_value};

    ghost is_clone = { λ source copy. protocol_value copy ≡ protocol_value source };

    fn clone(&self) -> Result<ProtocolConfig, AllocError> {
        match self {
            ProtocolConfig::Udp => Ok(ProtocolConfig::Udp),
            ProtocolConfig::Tcp => Ok(ProtocolConfig::Tcp),
            ProtocolConfig::Tls { server_name } => Ok(ProtocolConfig::Tls {
                server_name: server_name.clone()?,
            }),
            ProtocolConfig::Https { server_name, path } => Ok(ProtocolConfig::Https {
                server_name: server_name.clone()?,
                path: path.clone()?,
            }),
            ProtocolConfig::Quic { server_name } => Ok(ProtocolConfig::Quic {
                server_name: server_name.clone()?,
            }),
            ProtocolConfig::H3 {
                server_name,
                path,
                disable_grease,
            } => Ok(ProtocolConfig::H3 {
                server_name: server_name.clone()?,
                path: path.clone()?,
                disable_grease: *disable_grease,
            }),
        }
    }
}

impl PartialEq for ProtocolConfig {
    ghost use Rattle.std.specs.Cmp.{partial_equiv_from_equiv};
    ghost use Rattle.hickory_resolver_config.specs.Connections.{config_protocol_eq, config_protocol_equiv};

    ghost eq = { config_protocol_eq };

    ghost laws = { partial_equiv_from_equiv config_protocol_equiv };

    fn eq(&self, other: &ProtocolConfig) -> bool {
        self.number() == other.number()
            && self.server_name() == other.server_name()
            && self.path() == other.path()
            && self.disables_grease() == other.disables_grease()
    }
}

impl Eq for ProtocolConfig {
    ghost use Rattle.hickory_resolver_config.specs.Connections.{config_protocol_equiv};

    ghost laws = { config_protocol_equiv };
}
