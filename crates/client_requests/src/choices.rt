//! Numbers that standards fix.

/// How many octets a message over a stream has at the most (RFC 1035, section 4.2.2).
pub const LONGEST_MESSAGE: usize = 65535;

/// How many octets a question has at the most: 255 of its name, and four of its type and its class (RFC 1035, sections
/// 2.3.4 and 4.1.2).
pub const LONGEST_QUESTION: usize = 259;

/// How many octets a key has at the most: a question, and one before it.
pub const LONGEST_KEY: usize = 260;
