//! IPv6 addresses with an IPv4 address in them (RFC 6052, section 2.2).
ghost use Rattle.std.specs.Prelude.{◌≡◌, IfOk, IsTrue, nat_eq};
ghost use Rattle.std.specs.Cmp.Lexicographic.{pointwise};
ghost use Rattle.std.specs.Net.Addr.{ipv4_octets, ipv6_octets, ipv6_segments};
ghost use Rattle.synthesis.specs.Dns64.{embedded, is_embedded, is_length};

use std::alloc::{AllocError, Global};
use std::net::{Ipv4Addr, Ipv6Addr};

/// A prefix, and how many octets of it count.
#[derive(Clone, Copy, Debug)]
pub struct Prefix {
    pub address: Ipv6Addr,
    pub octets: u8,
}

/// Whether an IPv6 address is the prefix with the IPv4 address behind it.
pub fn is_embedded(
    alloc: Global,
    prefix: &Prefix,
    address: &Ipv4Addr,
    told: &Ipv6Addr,
) -> Result<bool, AllocError>
    ensures { IfOk result
        (λ is. is ≡ is_embedded prefix.now (ipv4_octets address.now) (ipv6_segments told.now)) }
{
    let count = usize::from(prefix.octets);
    if !is_length(count) {
        return Ok(false);
    }
    let made = embedded(alloc, &prefix.address.octets(), count, &address.octets())?;
    Ok(made.as_slice() == told.octets().as_slice())
}

// 32, 40, 48, 56, 64 or 96 bits.
fn is_length(octets: usize) -> bool
    ensures { result ≡ is_length octets }
{
    octets == 12 || (4 <= octets && octets <= 8)
}

// The octets of the prefix, with those of the address behind them, but for the ninth, which is 0.
fn embedded(
    alloc: Global,
    prefix: &[u8; 16],
    count: usize,
    address: &[u8; 4],
) -> Result<Vec<u8>, AllocError>
    requires { IsTrue (is_length count) }
    ensures { IfOk result (λ made. made.items ≡ embedded count prefix.now address.now) }
{
    let mut made = Vec::new(alloc);
    made.extend_from_slice(&prefix[..count])?;
    if count == 12 {
        made.extend_from_slice(address)?;
        return Ok(made);
    }
    made.extend_from_slice(&address[..8 - count])?;
    made.push(0)?;
    made.extend_from_slice(&address[8 - count..])?;
    made.extend_from_slice(&[0; 7])?;
    made.truncate(16);
    Ok(made)
}
