//! What holds after every list of events.
ghost use Rattle.client_limits.specs.Laws.{StaysWithinLimits};

/// No more clients wait than the limits say, in all and of each address, whoever comes and goes.
pub fn stays_within_limits()
    ensures { StaysWithinLimits }
{}
