//! Numbers that are choices.

/// How many octets a datagram has at the most. So it is not cut into pieces on its way, over IPv6 too (DNS Flag Day
/// 2020).
pub const LARGEST_DATAGRAM: u16 = 1232;

// Each client takes 512 octets (RFC 1035, section 4.2.1). IPv6 carries 1,280 everywhere, of which headers take 48.
const _: () = prove!(512 <= LARGEST_DATAGRAM && LARGEST_DATAGRAM <= 1280 - 48);
