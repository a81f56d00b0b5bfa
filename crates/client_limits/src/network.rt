//! What an address counts as.
ghost use Rattle.std.specs.Prelude.{◌≡◌};
ghost use Rattle.client_limits.specs.Networks.{as_v6, counted_as, network_of};

use std::net::IpAddr;

// An address of IPv4 as one of IPv6 (RFC 4291, section 2.5.5.2).
fn as_v6(address: IpAddr) -> u128
    ensures { result ≡ as_v6 address }
{
    match address {
        IpAddr::V4(address) => 0xffff_0000_0000 + u128::from(address.to_bits()),
        IpAddr::V6(address) => address.to_bits(),
    }
}

fn network_of(address: u128) -> u128
    ensures { result ≡ network_of address }
{
    if address / 0x1_0000_0000 == 0xffff {
        address
    } else {
        address / 0x1_0000_0000_0000_0000 * 0x1_0000_0000_0000_0000
    }
}

/// What an address counts as: one of IPv4 as itself, as that of IPv6 that stands for it; any other of IPv6 as the first
/// of its network of 64 bits, since one client has at least such a network (RFC 6177).
pub fn counted_as(address: IpAddr) -> u128
    ensures { result ≡ counted_as address }
{
    network_of(as_v6(address))
}
