//! Numbers that were chosen here, or that an RFC says.

/// The TTL of what a zone that is served here has, and of its negative answers (seconds; RFC 6303, section 3).
pub const SERVED_SECONDS: u32 = 10800;

/// The TTL of what is said of a blocked name, and of its negative answers: for so many seconds a client keeps it.
pub const BLOCKED_SECONDS: u32 = 60;

/// The TTL of the answer to a question for all types (seconds; RFC 8482, section 4.2).
pub const ANY_SECONDS: u32 = 3600;

/// The type DS (RFC 4034, section 5).
pub const DS: u16 = 43;
