//! A reply that is kept.
ghost use Rattle.std.specs.Prelude.{◌≡◌, option_copied};
ghost use Rattle.yimarotu_forwarder.specs.Cached.{fresh_until, if_told};

use std::marker::Model;
use stored_replies::StoredReply;

// A reply that is kept; the last second before the last tenth of the time for which it is told, as it ages; the last
// second of that time; and how many replies of servers made it, at the most.
#[derive(Drop)]
pub struct CachedReply {
    pub(crate) reply: StoredReply,
    pub(crate) fresh_until: u64,
    pub(crate) told_until: u64,
    pub(crate) replies: u32,
}

impl Model for CachedReply {
    ghost use Rattle.yimarotu_forwarder.specs.Cached.{CachedValue};

    ghost Value = { CachedValue };

    ghost view = { λ c. record {
      reply = c.reply;
      fresh_until = c.fresh_until;
      told_until = c.told_until;
      replies = c.replies;
    } };
}

// The last second before the last tenth of the time from one second up to another.
pub(crate) fn fresh_until(now: u64, deadline: u64) -> u64
    ensures { result ≡ fresh_until now deadline }
{
    deadline.saturating_sub(deadline.saturating_sub(now) / 10)
}

// The reply, where the time is not over for which it is told.
pub(crate) fn if_told(cached: &CachedReply, now: u64) -> Option<&CachedReply>
    ensures { option_copied result ≡ if_told now cached.now }
{
    if now <= cached.told_until {
        Some(cached)
    } else {
        None
    }
}
