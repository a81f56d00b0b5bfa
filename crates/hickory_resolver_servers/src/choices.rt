//! The numbers that are choices, each with its reason. All are of milliseconds, or weights.

/// For how long a measure says something of a server: three minutes. A route may be another one after that, and who
/// asks less often than that measures anew for little.
pub const KNOWN_FOR: u64 = 180_000;

/// The greatest round trip that is noted: a minute. A server that was dead for long is so tried again before all others
/// have failed for as long.
pub const GREATEST_ROUND_TRIP: u64 = 60_000;

/// What was known before has seven eighths of the weight in a smoothed round trip, and a new measure one (RFC 6298,
/// section 2.3).
pub const OLD_WEIGHT: u64 = 7;

/// All of the weight.
pub const WHOLE_WEIGHT: u64 = 8;
