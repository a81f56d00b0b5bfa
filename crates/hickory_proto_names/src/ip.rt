//! The texts of addresses, and networks.
ghost use Rattle.std.specs.Prelude.{◌≡◌, ◌↔◌, Some, IfOk, string_bytes};
ghost use Rattle.hickory_proto_names.specs.Addresses.{IsAddressText, IsPrintedAddress, address_text};

use std::alloc::{AllocError, Global};
use std::net::IpAddr;

/// An address and the number of its leading bits that name a network.
#[derive(Clone, Copy, Debug, PartialEq, Eq)]
pub struct IpNet {
    pub addr: IpAddr,
    pub prefix_len: u8,
}

impl IpNet {
    /// The network of this address and this many leading bits. Neither is changed.
    pub fn new(addr: IpAddr, prefix_len: u8) -> IpNet
        ensures { result ≡ record { addr = addr; prefix_len = prefix_len } }
    {
        IpNet { addr, prefix_len }
    }

    /// The address.
    pub fn addr(&self) -> IpAddr
        ensures { result ≡ self.now.addr }
    {
        self.addr
    }

    /// How many leading bits of the address name the network.
    pub fn prefix_len(&self) -> u8
        ensures { result ≡ self.now.prefix_len }
    {
        self.prefix_len
    }
}

/// The address that the text spells, if it spells one. An IPv4 address is four decimal numbers up to 255
/// without leading zeros (RFC 6943, section 3.1.1). An IPv6 address is eight groups of one to four hex digits
/// of either case; one `::` may stand for one zero group or more, the last two groups may be an IPv4 address,
/// and there is no zone (RFC 4291, section 2.2). Takes no memory.
pub fn read_ip(text: &str) -> Option<IpAddr>
    ensures { (a : IpAddr) → (result ≡ Some a) ↔ IsAddressText text.now a }
{
    IpAddr::parse_ascii(text.as_bytes()).ok()
}

/// The text of the address as RFC 5952 wants it: lower case, no leading zeros, `::` for the longest run of at
/// least two zero groups, of equal runs the first, and `::ffff:a.b.c.d` for an IPv4-mapped address.
pub fn printed_text(alloc: Global, address: IpAddr) -> Result<String, AllocError>
    ensures text { IfOk result (λ s. string_bytes s ≡ address_text address) }
    ensures rule { IfOk result (λ s. IsPrintedAddress (string_bytes s) address) }
{
    Ok(format!(in alloc; "{address}")?)
}
