//! How long these replies are.
ghost use Rattle.failure_replies.specs.Laws.{FailuresAreShort, RefusalsAreShort};

/// A reply that says that a look-up failed has at most so many octets beside the question, and fits into every datagram
/// (RFC 1035, section 2.3.4).
pub fn failures_are_short()
    ensures { FailuresAreShort }
{}

/// So does one that refuses a query.
pub fn refusals_are_short()
    ensures { RefusalsAreShort }
{}
