//! The numbers that are choices, each with its reason. They are of milliseconds.

/// For how long a stream is kept on which there is no try: ten seconds, so that what comes in a row goes on one stream
/// (RFC 7766, section 6.2.3).
pub const IDLE_FOR: u64 = 10_000;
