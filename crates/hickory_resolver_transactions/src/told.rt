//! What a transaction tells: its outcome, up to when it waits, and its tries.
ghost use Rattle.std.specs.Prelude.{◌≡◌, ◌&&◌, not, None};
ghost use Rattle.std.specs.Option.{option_and_then};
ghost use Rattle.hickory_resolver_transactions.specs.Transaction.{is_idle, may_go_on, told, outcome_of, next_deadline, try_at, due_try, failed_try, reply_of, named};

use crate::candidate::Try;
use crate::deadlines::{earliest, earliest_late};
use crate::outcome::Outcome;
use crate::picked::{first_due, late_try, try_in, waiting_on, waiting_try};
use crate::table::failed_try;
use crate::transaction::Transaction;

impl Transaction {
    /// What it came to, once it is over. The caller then lets it go: a reply that is told to it later still counts.
    pub fn outcome(&self) -> Option<Outcome>
        ensures { result ≡ outcome_of self.now }
    {
        match self.ended {
            Some(reply) => Some(Outcome::Reply(reply)),
            None => self.failure(),
        }
    }

    // The best that was noted, where nothing is left.
    fn failure(&self) -> Option<Outcome>
        ensures { result ≡ told None (is_idle self.now && not (may_go_on self.now)) self.now.noted }
    {
        if self.is_idle() && !self.may_go_on() {
            Some(self.noted.unwrap_or(Outcome::Unreachable))
        } else {
            None
        }
    }

    /// The number of the reply that it ended with, and before that of the best so far.
    pub fn named(&self) -> Option<u64>
        ensures { result ≡ named self.now }
    {
        match self.ended {
            Some(reply) => Some(reply),
            None => reply_of(self.noted),
        }
    }

    /// The earliest moment up to which it waits, if it waits.
    pub fn next_deadline(&self) -> Option<u64>
        ensures { result ≡ next_deadline self.now }
    {
        let first = earliest(None, &self.candidates);
        earliest_late(first, &self.late)
    }

    /// The try on this channel with this number.
    pub fn try_at(&self, channel: u64, id: u16) -> Option<Try>
        ensures { result ≡ try_at channel id self.now }
    {
        match waiting_try(&self.candidates, channel, id) {
            Some(tried) => Some(tried),
            None => late_try(&self.late, channel, id),
        }
    }

    /// The try of which `expired` says that its time has passed, if it is one that waits.
    pub fn due_try(&self, now: u64) -> Option<Try>
        ensures { result ≡ due_try now self.now }
    {
        match first_due(&self.candidates, now) {
            Some(candidate) => try_in(&candidate.progress),
            None => None,
        }
    }

    /// The try that waits on this channel, where it tells something of the server that the channel fails: what waits on
    /// a stream is first sent anew.
    pub fn failed_try(&self, channel: u64) -> Option<Try>
        ensures { result ≡ failed_try channel self.now }
    {
        match waiting_on(&self.candidates, channel) {
            Some(candidate) => failed_try(&candidate),
            None => None,
        }
    }
}

fn reply_of(noted: Option<Outcome>) -> Option<u64>
    ensures { result ≡ option_and_then reply_of noted }
{
    match noted {
        Some(Outcome::Reply(reply)) => Some(reply),
        Some(Outcome::Cut(reply)) => Some(reply),
        Some(Outcome::Code(reply)) => Some(reply),
        _ => None,
    }
}
