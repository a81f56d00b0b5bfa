//! The numbers that are choices, each with its reason.

/// The greatest count of rounds: the first and two retries (RFC 9520, section 3.1).
pub const MOST_ROUNDS: usize = 3;

/// How often a server is sent to in a round by one transport: once, and once more without OPT, or where a stream was
/// closed under what waited on it.
pub const SENDS_BY_TRANSPORT: u8 = 2;

/// How many tries are kept whose time has passed, and believed if their reply comes late. Each has a socket.
pub const LATE_TRIES: usize = 2;
