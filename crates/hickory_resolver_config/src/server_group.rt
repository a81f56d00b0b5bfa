//! Groups of servers, and known ones.
ghost use Rattle.std.specs.Prelude.{◌≡◌, false, [], ◌∷◌, IfOk, IsOkUnless, codes};
ghost use Rattle.hickory_resolver_config.specs.Connections.{over_udp, over_tcp, over_tls, over_https, over_quic, over_h3};
ghost use Rattle.hickory_resolver_config.specs.Servers.{GroupValue, servers_over, transport_protocols, google_group, cloudflare_group, quad9_group};

use crate::protocol_config::DEFAULT_DNS_QUERY_PATH;
use crate::server_group_iter::{ServerGroupIter, Transport};
use hickory_proto_core::NetError;
use std::alloc::{AllocError, Global};
use std::marker::Model;
use std::net::{IpAddr, Ipv4Addr, Ipv6Addr};

/// Servers that have a name and a path in common. No field has an effect here, beyond the configurations that
/// are made of them.
#[derive(Debug, Drop)]
pub struct ServerGroup<'a> {
    /// The addresses of the servers.
    pub ips: Vec<IpAddr>,
    /// The name of the servers in a TLS handshake.
    pub server_name: &'a str,
    /// The path of a query over HTTP.
    pub path: &'a str,
}

impl<'a> Model for ServerGroup<'a> {
    ghost use Rattle.hickory_resolver_config.specs.Servers.{GroupValue};

    ghost Value = { GroupValue };

    ghost view = { λ g. record {
      ips = g.ips.items;
      server_name = g.server_name.now;
      path = g.path.now;
    } };
}

impl<'a> ServerGroup<'a> {
    /// A server for each address, asked over UDP and TCP.
    pub fn udp_and_tcp(&self) -> ServerGroupIter<'_>
        ensures { result ≡ servers_over (over_udp ∷ over_tcp ∷ []) self.now.ips }
    {
        self.over(Transport::UdpAndTcp)
    }

    /// A server for each address, asked over UDP.
    pub fn udp(&self) -> ServerGroupIter<'_>
        ensures { result ≡ servers_over (over_udp ∷ []) self.now.ips }
    {
        self.over(Transport::Udp)
    }

    /// A server for each address, asked over TCP.
    pub fn tcp(&self) -> ServerGroupIter<'_>
        ensures { result ≡ servers_over (over_tcp ∷ []) self.now.ips }
    {
        self.over(Transport::Tcp)
    }

    /// A server for each address, asked over TLS by the group's name.
    pub fn tls(&self) -> ServerGroupIter<'_>
        ensures { result ≡ servers_over (over_tls self.now.server_name ∷ []) self.now.ips }
    {
        self.over(Transport::Tls)
    }

    /// A server for each address, asked over HTTPS by the group's name and path.
    pub fn https(&self) -> ServerGroupIter<'_>
        ensures { result ≡ servers_over (over_https self.now.server_name self.now.path ∷ []) self.now.ips }
    {
        self.over(Transport::Https)
    }

    /// A server for each address, asked over QUIC by the group's name.
    pub fn quic(&self) -> ServerGroupIter<'_>
        ensures { result ≡ servers_over (over_quic self.now.server_name ∷ []) self.now.ips }
    {
        self.over(Transport::Quic)
    }

    /// A server for each address, asked over HTTP/3 by the group's name and path, with reserved values sent.
    pub fn h3(&self) -> ServerGroupIter<'_>
        ensures { result ≡ servers_over (over_h3 self.now.server_name self.now.path false ∷ []) self.now.ips }
    {
        self.over(Transport::H3)
    }

    /// A copy of every field.
    pub fn clone(&self) -> Result<ServerGroup<'a>, NetError>
        ensures ok { IfOk result (λ g. g ≡ self.now) }
        ensures err { IsOkUnless result NetError.OutOfMemory }
    {
        Ok(Clone::clone(self)?)
    }

    fn over(&self, transport: Transport) -> ServerGroupIter<'_>
        ensures { result
            ≡ servers_over (transport_protocols transport self.now.server_name self.now.path) self.now.ips }
    {
        let alloc = *self.ips.allocator();
        ServerGroupIter::new(alloc, transport, &self.ips, self.server_name, self.path)
    }
}

/// A copy equals its source.
impl<'a> Clone for ServerGroup<'a> {
    ghost use Rattle.std.specs.Prelude.{◌≡◌};

    ghost is_clone = { λ source copy. copy ≡ source };

    fn clone(&self) -> Result<ServerGroup<'a>, AllocError> {
        Ok(ServerGroup {
            ips: self.ips.clone()?,
            server_name: self.server_name,
            path: self.path,
        })
    }
}

/// The public resolvers of Google.
pub fn google(alloc: Global) -> Result<ServerGroup<'static>, NetError>
    ensures ok { IfOk result (λ g. g ≡ google_group) }
    ensures err { IsOkUnless result NetError.OutOfMemory }
{
    let ips = [
        IpAddr::V4(Ipv4Addr::new(8, 8, 8, 8)),
        IpAddr::V4(Ipv4Addr::new(8, 8, 4, 4)),
        IpAddr::V6(Ipv6Addr::new(0x2001, 0x4860, 0x4860, 0, 0, 0, 0, 0x8888)),
        IpAddr::V6(Ipv6Addr::new(0x2001, 0x4860, 0x4860, 0, 0, 0, 0, 0x8844)),
    ];
    known_group(alloc, &ips, "dns.google")
}

/// The public resolvers of Cloudflare.
pub fn cloudflare(alloc: Global) -> Result<ServerGroup<'static>, NetError>
    ensures ok { IfOk result (λ g. g ≡ cloudflare_group) }
    ensures err { IsOkUnless result NetError.OutOfMemory }
{
    let ips = [
        IpAddr::V4(Ipv4Addr::new(1, 1, 1, 1)),
        IpAddr::V4(Ipv4Addr::new(1, 0, 0, 1)),
        IpAddr::V6(Ipv6Addr::new(0x2606, 0x4700, 0x4700, 0, 0, 0, 0, 0x1111)),
        IpAddr::V6(Ipv6Addr::new(0x2606, 0x4700, 0x4700, 0, 0, 0, 0, 0x1001)),
    ];
    known_group(alloc, &ips, "cloudflare-dns.com")
}

/// The public resolvers of Quad9.
pub fn quad9(alloc: Global) -> Result<ServerGroup<'static>, NetError>
    ensures ok { IfOk result (λ g. g ≡ quad9_group) }
    ensures err { IsOkUnless result NetError.OutOfMemory }
{
    let ips = [
        IpAddr::V4(Ipv4Addr::new(9, 9, 9, 9)),
        IpAddr::V4(Ipv4Addr::new(149, 112, 112, 112)),
        IpAddr::V6(Ipv6Addr::new(0x2620, 0xfe, 0, 0, 0, 0, 0, 0xfe)),
        IpAddr::V6(Ipv6Addr::new(0x2620, 0xfe, 0, 0, 0, 0, 0, 9)),
    ];
    known_group(alloc, &ips, "dns.quad9.net")
}

// The group of this name at these addresses, with the usual path.
fn known_group<'a>(
    alloc: Global,
    ips: &[IpAddr],
    server_name: &'a str,
) -> Result<ServerGroup<'a>, NetError>
    ensures ok { IfOk result (λ g. g ≡ record {
      ips = ips.now;
      server_name = server_name.now;
      path = codes "/dns-query";
    }) }
    ensures err { IsOkUnless result NetError.OutOfMemory }
{
    Ok(ServerGroup {
        ips: Vec::from_slice(alloc, ips)?,
        server_name,
        path: DEFAULT_DNS_QUERY_PATH,
    })
}
