//! The texts of addresses.
ghost use Rattle.std.specs.Prelude.{◌≡◌, IfOk, IsOkUnless, string_bytes};
ghost use Rattle.hickory_proto_names.specs.Addresses.{IsPrintedAddress, address_text};

use crate::net_error::NetError;
use hickory_proto_names::ip;
use std::alloc::Global;
use std::net::IpAddr;

/// The text of the address as RFC 5952 wants it: lower case, no leading zeros, `::` for the longest run of at
/// least two zero groups, of equal runs the first, and `::ffff:a.b.c.d` for an IPv4-mapped address. The only
/// error is to be out of memory.
pub fn ip_text(alloc: Global, address: IpAddr) -> Result<String, NetError>
    ensures text { IfOk result (λ s. string_bytes s ≡ address_text address) }
    ensures rule { IfOk result (λ s. IsPrintedAddress (string_bytes s) address) }
    ensures err { IsOkUnless result NetError.OutOfMemory }
{
    Ok(ip::printed_text(alloc, address)?)
}
