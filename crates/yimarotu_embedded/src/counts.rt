//! What a session with a network did, in numbers.
ghost use Rattle.std.specs.Prelude.{◌≡◌};
ghost use Rattle.std.specs.Option.{option_copied};
ghost use Rattle.yimarotu_embedded.specs.Counts.{has_timed_out, is_timeout, no_counts, one_more, with_action, with_done, with_start};
ghost use Rattle.yimarotu_session.specs.NetworkSessions.{found_at};

use hickory_proto_core::NetError;
use hickory_resolver::Lookup;
use yimarotu_session::{NetworkAction, NetworkSession};

/// What a session did. A count that reached its greatest number stays there.
#[derive(Clone, Copy, Debug, PartialEq, Eq)]
pub struct Counts {
    /// How many look-ups were started.
    pub started: u64,
    /// How many of them were done at once: by the cache, by the hosts, or as no name is asked for them.
    pub done_at_once: u64,
    /// How many messages were to be sent.
    pub sent: u64,
    /// How many look-ups came to a timeout.
    pub timed_out: u64,
}

impl Counts {
    pub(crate) fn none() -> Counts
        ensures { result ≡ no_counts }
    {
        Counts {
            started: 0,
            done_at_once: 0,
            sent: 0,
            timed_out: 0,
        }
    }

    // A look-up was started, and waits or is done.
    pub(crate) fn count_start(&mut self, waits: bool)
        ensures { self.new ≡ with_start waits self.old }
    {
        self.started = one_more(self.started);
        if !waits {
            self.done_at_once = one_more(self.done_at_once);
        }
    }

    // The program has to do this.
    pub(crate) fn count_action(&mut self, session: &NetworkSession, action: Option<&NetworkAction>)
        ensures { self.new ≡ with_action (option_copied action.entry) session.now self.old }
    {
        match action {
            Some(NetworkAction::Send(_)) => self.sent = one_more(self.sent),
            Some(NetworkAction::Done(number)) => self.count_done(has_timed_out(session, *number)),
            _ => {}
        }
    }

    // A look-up is done.
    fn count_done(&mut self, timed_out: bool)
        ensures { self.new ≡ with_done timed_out self.old }
    {
        if timed_out {
            self.timed_out = one_more(self.timed_out);
        }
    }
}

fn one_more(count: u64) -> u64
    ensures { result ≡ one_more count }
{
    count.saturating_add(1)
}

// Whether the look-up of a number came to a timeout.
fn has_timed_out(session: &NetworkSession, number: u64) -> bool
    ensures { result ≡ has_timed_out (found_at number session.now) }
{
    match session.found(number) {
        Ok(found) => is_timeout(found),
        Err(_) => false,
    }
}

fn is_timeout(found: &Result<Lookup, NetError>) -> bool
    ensures { result ≡ is_timeout found.now }
{
    matches!(found, Err(NetError::Timeout))
}
