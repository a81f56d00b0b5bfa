//! What holds after every list of events.
ghost use Rattle.hickory_resolver_flights.specs.Laws.{EachTryWasSent, NothingIsMadeUp};

/// The reply that is kept is of octets that came on a channel on which a try waited or was late, and that were believed
/// as a reply to it, whatever comes.
pub fn nothing_is_made_up()
    ensures { NothingIsMadeUp }
{}

/// Each try that waits or is late was sent, on its channel and with its number, whatever comes.
pub fn each_try_was_sent()
    ensures { EachTryWasSent }
{}
