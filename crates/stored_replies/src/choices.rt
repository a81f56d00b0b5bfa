//! Numbers that are choices.

/// How many octets of a reply are stored at the most, without OPT: as many as a message over a stream has (RFC 1035,
/// section 4.2.2).
pub const LONGEST: usize = 65535;

/// A reply that is stored, beside its octets and places: 72 for the value itself, and 32 for each of its two pieces of
/// memory, on a machine of 64 bits with glibc.
pub const REPLY: u64 = 136;

/// The place of one TTL.
pub const PLACE: u64 = 2;

/// The TTL (seconds) of each record of a reply that is told past its end (RFC 8767, section 4).
pub const STALE_TTL: u32 = 30;
