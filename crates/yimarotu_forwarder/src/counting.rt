//! How many queries came, and what became of them.
ghost use Rattle.std.specs.Prelude.{◌≡◌};
ghost use Rattle.yimarotu_forwarder.specs.Counting.{counted, no_counts, one_more};

use crate::answered::Outcome;

/// How many queries came to a forwarder, what became of them, and how many look-ups it began of itself. A number that is
/// the greatest stays.
#[derive(Clone, Copy, Debug, PartialEq, Eq)]
pub struct ForwarderCounts {
    /// Octets that were a query.
    pub queries: u64,
    /// Queries that were told out of what is kept.
    pub from_cache: u64,
    /// Queries that were told out of local data or of these counts, or that asked for all types.
    pub local: u64,
    /// Queries that were told at once that the look-up fails: a failure that is kept, no servers, or no place to wait.
    pub failures_told: u64,
    /// Queries that were refused.
    pub refused: u64,
    /// Queries that have no reply.
    pub dropped: u64,
    /// Queries that waited for what servers say.
    pub waited: u64,
    /// Look-ups that nobody waited for as they began.
    pub prefetched: u64,
}

impl ForwarderCounts {
    // No query came.
    pub(crate) fn new() -> ForwarderCounts
        ensures { result ≡ no_counts }
    {
        ForwarderCounts {
            queries: 0,
            from_cache: 0,
            local: 0,
            failures_told: 0,
            refused: 0,
            dropped: 0,
            waited: 0,
            prefetched: 0,
        }
    }

    // One more query came, and this became of it.
    pub(crate) fn count(&mut self, outcome: Outcome)
        ensures { self.new ≡ counted outcome self.old }
    {
        self.queries = one_more(self.queries);
        match outcome {
            Outcome::FromCache => self.from_cache = one_more(self.from_cache),
            Outcome::Local => self.local = one_more(self.local),
            Outcome::Fails => self.failures_told = one_more(self.failures_told),
            Outcome::Refused => self.refused = one_more(self.refused),
            Outcome::Waits => self.waited = one_more(self.waited),
            Outcome::Dropped => self.dropped = one_more(self.dropped),
        }
    }
}

// One more, but that the greatest number stays.
pub(crate) fn one_more(count: u64) -> u64
    ensures { result ≡ one_more count }
{
    count.saturating_add(1)
}
