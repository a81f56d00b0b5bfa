//! The servers of a group, one after another.
ghost use Rattle.std.specs.Prelude.{◌≡◌, IfOk, IsOkUnless};
ghost use Rattle.hickory_resolver_config.specs.Servers.{ServerValue, server_over, servers_over, transport_protocols, GivesNextServer};

use crate::name_server_config::NameServerConfig;
use hickory_proto_core::NetError;
use std::alloc::Global;
use std::marker::Model;
use std::net::IpAddr;

// How the servers of a group are asked.
#[derive(Clone, Copy, Debug)]
pub(crate) enum Transport {
    UdpAndTcp,
    Udp,
    Tcp,
    Tls,
    Https,
    Quic,
    H3,
}

/// The servers of a group in order: one for each address, or out of memory in its place.
#[derive(Debug, Drop)]
pub struct ServerGroupIter<'a> {
    alloc: Global,
    transport: Transport,
    ips: &'a [IpAddr],
    server_name: &'a str,
    path: &'a str,
}

impl<'a> Model for ServerGroupIter<'a> {
    ghost use Rattle.std.specs.Prelude.{List};
    ghost use Rattle.hickory_resolver_config.specs.Servers.{ServerValue, servers_over, transport_protocols};

    ghost Value = { List ServerValue };

    ghost view = { λ s.
        servers_over (transport_protocols s.transport s.server_name.now s.path.now) s.ips.now };
}

impl<'a> ServerGroupIter<'a> {
    // The servers at these addresses.
    pub(crate) fn new(
        alloc: Global,
        transport: Transport,
        ips: &'a [IpAddr],
        server_name: &'a str,
        path: &'a str,
    ) -> ServerGroupIter<'a>
        ensures { result ≡ servers_over (transport_protocols transport server_name.now path.now) ips.now }
    {
        ServerGroupIter {
            alloc,
            transport,
            ips,
            server_name,
            path,
        }
    }
}

impl<'a> Iterator for ServerGroupIter<'a> {
    type Item = Result<NameServerConfig, NetError>;

    ghost use Rattle.std.specs.Iterator.{item_count};
    ghost use Rattle.hickory_resolver_config.specs.Servers.{GivesNextServer};

    ghost next_gives = { GivesNextServer };

    ghost remaining = { item_count (λ servers. servers) };

    fn next(&mut self) -> Option<Result<NameServerConfig, NetError>> {
        let (first, others) = self.ips.split_first()?;
        self.ips = others;
        Some(server(
            self.alloc,
            self.transport,
            *first,
            self.server_name,
            self.path,
        ))
    }
}

// The server at an address.
fn server(
    alloc: Global,
    transport: Transport,
    ip: IpAddr,
    server_name: &str,
    path: &str,
) -> Result<NameServerConfig, NetError>
    ensures ok { IfOk result
        (λ s. s ≡ server_over (transport_protocols transport server_name.now path.now) ip) }
    ensures err { IsOkUnless result NetError.OutOfMemory }
{
    match transport {
        Transport::UdpAndTcp => NameServerConfig::udp_and_tcp(alloc, ip),
        Transport::Udp => NameServerConfig::udp(alloc, ip),
        Transport::Tcp => NameServerConfig::tcp(alloc, ip),
        Transport::Tls => NameServerConfig::tls(ip, String::from_str(alloc, server_name)?),
        Transport::Quic => NameServerConfig::quic(ip, String::from_str(alloc, server_name)?),
        Transport::Https => {
            let server_name = String::from_str(alloc, server_name)?;
            let path = String::from_str(alloc, path)?;
            NameServerConfig::https(ip, server_name, Some(path))
        }
        Transport::H3 => {
            let server_name = String::from_str(alloc, server_name)?;
            let path = String::from_str(alloc, path)?;
            NameServerConfig::h3(ip, server_name, Some(path))
        }
    }
}
