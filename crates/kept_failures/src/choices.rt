//! Numbers that are choices.

/// For how many seconds a first failure is told again: no less than there must be (RFC 9520, section 3.2).
pub const FIRST_SECONDS: u64 = 1;

/// For how many seconds a failure is told again at the most. There may be 300 (RFC 9520, section 3.2).
pub const MOST_SECONDS: u64 = 60;

/// For how many seconds more it is remembered, so that a further failure is told for longer.
pub const REMEMBERED_SECONDS: u64 = 60;

// A failure has to be told again for a second at the least, and may be for five minutes at the most (RFC 9520, section
// 3.2).
const _: () = prove!(1 <= FIRST_SECONDS && FIRST_SECONDS <= MOST_SECONDS && MOST_SECONDS <= 300);

/// How many octets of memory a failure takes beside its key, about.
pub const FAILURE: u64 = 128;
