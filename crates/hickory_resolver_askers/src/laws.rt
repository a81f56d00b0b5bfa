//! What holds after every list of events.
ghost use Rattle.hickory_resolver_askers.specs.Laws.{StaysWithinLimits};

/// Transactions stay within their limits, and the next number is greater than that of each, whatever comes.
pub fn stays_within_limits()
    ensures { StaysWithinLimits }
{}
