//! What holds after every list of events and steps.
ghost use Rattle.hickory_resolver_pool.specs.Laws.{StaysBounded};

/// Channels, the tries on each, transactions in flight and those that wait stay within the limits, and the number that a
/// channel or a transaction is given next is greater than that of each that there is, whatever comes.
pub fn stays_bounded()
    ensures { StaysBounded }
{}
