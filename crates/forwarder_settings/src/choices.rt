//! Numbers that are choices, each with its reason.

/// For how many seconds a reply is kept at the most: an hour, after which a name that moved is found again.
pub const GREATEST_TTL: u64 = 3_600;

/// How many octets the replies that are kept weigh at the most: what a small machine can spare.
pub const CACHE_OCTETS: u64 = 67_108_864;

/// How many replies are kept at the most: their octets alone bound them.
pub const CACHE_ENTRIES: usize = usize::MAX;

/// How many failures are kept at the most: as many as questions may fail at once.
pub const FAILURES: usize = 4_096;
