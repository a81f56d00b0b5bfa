//! Who asks.

use std::net::IpAddr;

/// Who asks: a number that the program gives it, its address, and whether it asks by a stream.
#[derive(Clone, Copy, Debug, PartialEq, Eq)]
pub struct Client {
    /// The number of who is replied to.
    pub number: u64,
    /// The address that the query came from.
    pub address: IpAddr,
    /// Whether it came by a stream, and not as a datagram.
    pub is_stream: bool,
}
