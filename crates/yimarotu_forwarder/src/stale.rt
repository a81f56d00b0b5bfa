//! Replies that are told past their end, where servers fail (RFC 8767).
ghost use Rattle.std.specs.Prelude.{◌≡◌, ◌-◌, ◌&&◌, nat_le, nat_lt, option_copied, unwrap_or};
ghost use Rattle.std.specs.Option.{is_some};
ghost use Rattle.client_requests.specs.Replies.{failure_reply};
ghost use Rattle.yimarotu_forwarder.specs.Options.{stale_seconds};
ghost use Rattle.yimarotu_forwarder.specs.Stale.{if_stale, kept_until, stale_hit_in, stale_in, told_end_in};

use crate::cached::CachedReply;
use crate::forwarder::Cache;
use crate::options::ForwarderOptions;
use client_requests::{FetchEnd, ReplyKey, ReplyRoom, Request};
use failure_replies::FailureReason;
use stored_replies::StoredReply;

// The last second at which a reply is kept that is told, as it ages, up to a second.
pub(crate) fn kept_until(options: &ForwarderOptions, told_until: u64) -> u64
    ensures { result ≡ kept_until options.now told_until }
{
    told_until.saturating_add(options.stale_seconds())
}

// Whether it is past its end, and by no more seconds than it is told for.
fn is_stale(options: &ForwarderOptions, told_until: u64, now: u64) -> bool
    ensures { result ≡ (nat_lt told_until now && nat_le (now - told_until) (stale_seconds options.now)) }
{
    told_until < now && now - told_until <= options.stale_seconds()
}

// The reply, where it is past its end.
fn if_stale<'a>(
    options: &ForwarderOptions,
    cached: &'a CachedReply,
    now: u64,
) -> Option<&'a StoredReply>
    ensures { option_copied result ≡ if_stale options.now now cached.now }
{
    if is_stale(options, cached.told_until, now) {
        Some(&cached.reply)
    } else {
        None
    }
}

// What is kept under a key past its end.
fn stale_in<'a>(
    cache: &'a Cache,
    key: &ReplyKey,
    options: &ForwarderOptions,
    now: u64,
) -> Option<&'a StoredReply>
    ensures { option_copied result ≡ stale_in cache.now key.now options.now now }
{
    match cache.peek(key.as_slice(), now) {
        Some(cached) => if_stale(options, cached, now),
        None => None,
    }
}

// Writes what a request is told of what is kept under a key past its end. Tells whether there is such a reply.
pub(crate) fn put_stale(
    reply: &mut ReplyRoom,
    cache: &Cache,
    request: &Request<'_>,
    key: &ReplyKey,
    options: &ForwarderOptions,
    now: u64,
) -> bool
    ensures told { result ≡ is_some (stale_hit_in cache.now request.now key.now options.now now) }
    ensures reply { reply.new ≡ unwrap_or (stale_hit_in cache.now request.now key.now options.now now) reply.old }
{
    match stale_in(cache, key, options, now) {
        Some(stored) => reply.put_stale(request, stored),
        None => false,
    }
}

// Writes what a request is told of a look-up of a key that failed: what is kept past its end, or why it failed.
fn put_failed(
    reply: &mut ReplyRoom,
    cache: &Cache,
    request: &Request<'_>,
    key: &ReplyKey,
    why: FailureReason,
    options: &ForwarderOptions,
    now: u64,
)
    ensures { reply.new ≡ unwrap_or (stale_hit_in cache.now request.now key.now options.now now)
        (failure_reply request.now why) }
{
    if !put_stale(reply, cache, request, key, options, now) {
        reply.put_failure(request, why);
    }
}

// Writes what a request is told of a look-up of a key.
pub(crate) fn put_end(
    reply: &mut ReplyRoom,
    cache: &Cache,
    request: &Request<'_>,
    key: &ReplyKey,
    end: &FetchEnd,
    options: &ForwarderOptions,
    now: u64,
)
    ensures { reply.new ≡ told_end_in cache.now request.now key.now options.now now end.now }
{
    match end {
        FetchEnd::Reply(_) => reply.put_end(request, end, options.trusts_authentic_data, now),
        FetchEnd::Failure(why) => put_failed(reply, cache, request, key, *why, options, now),
    }
}

// Whether something is kept under a key past its end.
pub(crate) fn is_kept_stale(
    cache: &Cache,
    key: &ReplyKey,
    options: &ForwarderOptions,
    now: u64,
) -> bool
    ensures { result ≡ is_some (stale_in cache.now key.now options.now now) }
{
    stale_in(cache, key, options, now).is_some()
}
