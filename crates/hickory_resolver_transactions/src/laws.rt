//! What holds after every list of events.
ghost use Rattle.hickory_resolver_transactions.specs.Laws.{EachKeepsItsTime, NeverWaitsForEver, NothingIsMadeUp, StaysBounded};

/// A transaction stays within its bounds, whatever comes: rounds, messages to a server in a round by one transport,
/// tries that wait at once, late tries.
pub fn stays_bounded()
    ensures { StaysBounded }
{}

/// An outcome that is a reply, or was made of one, is of a reply that came, whatever comes.
pub fn nothing_is_made_up()
    ensures { NothingIsMadeUp }
{}

/// While a transaction is not over, a round is to begin, something is to be sent, or it waits up to a moment.
pub fn never_waits_for_ever()
    ensures { NeverWaitsForEver }
{}

/// What waits for a channel waits up to one moment, however often one comes free for it and it cannot be sent.
pub fn each_keeps_its_time()
    ensures { EachKeepsItsTime }
{}
