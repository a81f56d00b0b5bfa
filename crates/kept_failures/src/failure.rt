//! A failure that is kept.
ghost use Rattle.std.specs.Prelude.{◌≡◌};
ghost use Rattle.kept_failures.specs.Failures.{failure_from, reason_at, remembered_until, seconds_behind};

use crate::choices::{MOST_SECONDS, REMEMBERED_SECONDS};

/// Why something failed, and how long it is told.
#[derive(Debug, Drop)]
pub struct KeptFailure<R> {
    /// Why.
    pub reason: R,
    /// For how many seconds it is told.
    pub seconds: u64,
    /// The last second at which it is told.
    pub until: u64,
}

impl<R> KeptFailure<R> {
    // A failure of this second, which is told for so many seconds.
    pub(crate) fn from(reason: R, seconds: u64, now: u64) -> KeptFailure<R>
        ensures { result ≡ failure_from reason seconds now }
    {
        KeptFailure {
            reason,
            seconds,
            until: now.saturating_add(seconds),
        }
    }

    // For how many seconds one is told that comes behind it.
    pub(crate) fn seconds_behind(&self) -> u64
        ensures { result ≡ seconds_behind self.now }
    {
        self.seconds.saturating_mul(2).min(MOST_SECONDS)
    }

    // The last second at which it is remembered.
    pub(crate) fn remembered_until(&self) -> u64
        ensures { result ≡ remembered_until self.now }
    {
        self.until.saturating_add(REMEMBERED_SECONDS)
    }
}

impl<R: Copy> KeptFailure<R> {
    // Why, where it is told at this second.
    pub(crate) fn reason_at(&self, now: u64) -> Option<R>
        ensures { result ≡ reason_at now self.now }
    {
        if now <= self.until {
            Some(self.reason)
        } else {
            None
        }
    }
}
