//! Which addresses are in a network.
ghost use Rattle.std.specs.Prelude.{◌≡◌};
ghost use Rattle.std.specs.List.{list_any};
ghost use Rattle.std.specs.Net.Addr.{ipv4_bits, ipv6_bits};
ghost use Rattle.hickory_proto_core.specs.Records.{data_of};
ghost use Rattle.hickory_resolver_filters.specs.Networks.{leading_bits, has_v4, has_v6, is_in, is_in_some};

use hickory_proto_core::{IpNet, RData};
use std::net::{IpAddr, Ipv4Addr, Ipv6Addr};

// The leading bits, of 32, as a number.
fn leading_v4(address: Ipv4Addr, count: u8) -> u32
    ensures { result ≡ leading_bits 32 count (ipv4_bits address) }
{
    let behind = 32_u8.saturating_sub(count);
    address.to_bits().checked_shr(behind as u32).unwrap_or(0)
}

// The leading bits, of 128, as a number.
fn leading_v6(address: Ipv6Addr, count: u8) -> u128
    ensures { result ≡ leading_bits 128 count (ipv6_bits address) }
{
    let behind = 128_u8.saturating_sub(count);
    address.to_bits().checked_shr(behind as u32).unwrap_or(0)
}

fn has_v4(net: &IpNet, address: Ipv4Addr) -> bool
    ensures { result ≡ has_v4 net.now.addr net.now.prefix_len (ipv4_bits address) }
{
    match net.addr {
        IpAddr::V4(own) => leading_v4(own, net.prefix_len) == leading_v4(address, net.prefix_len),
        IpAddr::V6(_) => false,
    }
}

fn has_v6(net: &IpNet, address: Ipv6Addr) -> bool
    ensures { result ≡ has_v6 net.now.addr net.now.prefix_len (ipv6_bits address) }
{
    match net.addr {
        IpAddr::V4(_) => false,
        IpAddr::V6(own) => leading_v6(own, net.prefix_len) == leading_v6(address, net.prefix_len),
    }
}

/// Whether the data of a record are an address in a network: of the same family, and with the leading bits of the
/// network's address, as many as the network says; all of them where it says more than there are.
#[tactic(auto, unfolding(std::specs::Net::Addr::ipv4_bits, std::specs::Net::Addr::ipv6_bits))]
pub fn is_in(net: &IpNet, rdata: &RData) -> bool
    ensures { result ≡ is_in net.now (data_of rdata.now) }
{
    match rdata {
        RData::A(address) => has_v4(net, *address),
        RData::AAAA(address) => has_v6(net, *address),
        _ => false,
    }
}

// Whether they are an address in some of these networks.
pub(crate) fn is_in_some(nets: &[IpNet], rdata: &RData) -> bool
    ensures { result ≡ is_in_some nets.now (data_of rdata.now) }
{
    nets.iter().any(|net| is_in(net, rdata))
}
