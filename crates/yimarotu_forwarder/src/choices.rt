//! Numbers that are choices.

/// For how many seconds past its end a reply is told at the most: a day, the least that RFC 8767, section 5, suggests.
pub const LONGEST_STALE: u64 = 86_400;

/// After how many milliseconds those who wait for a look-up are told what is kept past its end (RFC 8767, section 5).
pub const LATE: u64 = 1_800;

/// While fewer questions than these are looked up, what is kept may be looked up anew before its end, for nobody.
pub const FEW_FETCHES: usize = 256;

/// How many octets of memory a reply takes at the most that is put behind aliases, in place of being asked for: reading
/// it takes time for each of them.
pub const HEAVIEST_END: u64 = 4096;
