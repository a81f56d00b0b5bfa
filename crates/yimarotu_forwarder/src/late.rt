//! Look-ups that are late: those who wait are told what is kept past its end (RFC 8767, section 5).
ghost use Rattle.std.specs.Prelude.{◌≡◌, ◌<◌, ◌++◌, ◌∷◌, [], if◌then◌else◌, slice_get, MatchOption, OnOk};
ghost use Rattle.std.specs.Option.{option_and_then, option_map};
ghost use Rattle.std.specs.VecDeque.{deque_capacity, deque_len};
ghost use Rattle.whole_replies.specs.Kept.{lesser};
ghost use Rattle.yimarotu_forwarder.specs.Fetches.{HoldsFetch, fetch_at};
ghost use Rattle.yimarotu_forwarder.specs.FetchTables.{fetches_of};
ghost use Rattle.yimarotu_forwarder.specs.Late.{TellsLate, TellsWaitingOf, first_due, first_moment, if_due, has_stale, is_late, is_noted_late, is_told_late, late_at, late_replying, with_nobody};

use crate::choices::LATE;
use crate::fetch::Fetch;
use crate::fetches::Fetches;
use crate::forwarder::Forwarder;
use crate::replying::Replying;
use crate::stale::is_kept_stale;
use client_requests::{FetchEnd, ReplyKey};
use failure_replies::FailureReason;
use std::alloc::{AllocError, Global};
use std::collections::VecDeque;
use std::mem;

// The moments at which look-ups are late, with their keys.
pub(crate) type Lates = VecDeque<(u64, ReplyKey)>;

impl Forwarder {
    // Whether something is kept under a key past its end.
    pub(crate) fn has_stale(&self, key: &ReplyKey) -> bool
        ensures { result ≡ has_stale key.now self.now }
    {
        is_kept_stale(&self.cache, key, &self.options, self.second())
    }

    // Whether the moment is noted at which a look-up is late that begins.
    pub(crate) fn is_noted_late(&self, key: &ReplyKey) -> bool
        ensures { result ≡ is_noted_late key.now self.now }
    {
        self.has_stale(key) && self.late.len() < self.options.limits.all
    }

    // The key of the first look-up whose moment has come.
    pub(crate) fn first_due(&self) -> Option<ReplyKey>
        ensures { result ≡ first_due self.now }
    {
        first_due(&self.late, self.clock)
    }

    // Those who wait for a look-up whose moment has come are told from then on what is kept past its end, where it
    // still goes on and something is.
    pub(crate) fn tell_late(&mut self, key: ReplyKey)
        ensures { TellsLate self.old self.new key }
    {
        let is_told = self.is_told_late(&key);
        self.late.pop_front();
        if is_told {
            self.tell_waiting(key);
        }
    }

    fn is_told_late(&self, key: &ReplyKey) -> bool
        ensures { result ≡ is_told_late key.now self.now }
    {
        match self.fetches.get(key) {
            Some(fetch) => is_late(fetch, self.clock) && self.has_stale(key),
            None => false,
        }
    }

    // Those who wait for a look-up are told from then on, and it goes on with nobody waiting.
    fn tell_waiting(&mut self, key: ReplyKey)
        ensures { TellsWaitingOf key self.old self.new }
    {
        match take_waiting(self.alloc, &mut self.fetches, &key) {
            Some(replying) => self.replying = Some(replying),
            None => {}
        }
    }
}

// Takes those who wait for the look-up of a key, where there is one, to be told.
fn take_waiting(alloc: Global, fetches: &mut Fetches, key: &ReplyKey) -> Option<Replying>
    ensures told { result ≡ option_map (late_replying key.now) (fetch_at key.now (fetches_of fetches.old)) }
    ensures left { MatchOption (fetch_at key.now (fetches_of fetches.old))
        (fetches_of fetches.new ≡ fetches_of fetches.old)
        (λ f. HoldsFetch key.now (with_nobody f) (fetches_of fetches.old) (fetches_of fetches.new)) }
{
    match fetches.fetches.get_mut(key) {
        Some(fetch) => Some(late_replying(alloc, key, fetch)),
        None => None,
    }
}

fn late_replying(alloc: Global, key: &ReplyKey, fetch: &mut Fetch) -> Replying
    ensures told { result ≡ late_replying key.now fetch.old }
    ensures left { fetch.new ≡ with_nobody fetch.old }
{
    let waiting = mem::replace(&mut fetch.waiting, VecDeque::new(alloc));
    Replying {
        key: key.copied(),
        end: FetchEnd::Failure(FailureReason::NoReachableAuthority),
        replies: 0,
        generation: fetch.generation,
        waiting,
    }
}

// The key of the first look-up whose moment has come.
fn first_due(late: &Lates, now: u64) -> Option<ReplyKey>
    ensures { result ≡ option_and_then (if_due now) (slice_get late.now.items 0) }
{
    match late.front() {
        Some((moment, key)) => if_due(*moment, key, now),
        None => None,
    }
}

fn if_due(moment: u64, key: &ReplyKey, now: u64) -> Option<ReplyKey>
    ensures { result ≡ if_due now (moment, key.now) }
{
    if moment <= now {
        Some(key.copied())
    } else {
        None
    }
}

// The moment at which a look-up is late that began at another.
pub(crate) fn late_at(began: u64) -> u64
    ensures { result ≡ late_at began }
{
    began.saturating_add(LATE)
}

// The earlier of two moments, where there are two.
pub(crate) fn earlier(one: Option<u64>, other: Option<u64>) -> Option<u64>
    ensures { result ≡ lesser one other }
{
    match (one, other) {
        (Some(one), Some(other)) => Some(one.min(other)),
        (Some(one), None) => Some(one),
        (None, other) => other,
    }
}

pub(crate) fn first_moment(late: &Lates) -> Option<u64>
    ensures { result ≡ first_moment late.now.items }
{
    match late.front() {
        Some((moment, _)) => Some(*moment),
        None => None,
    }
}

// Whether a look-up is late at a moment.
pub(crate) fn is_late(fetch: &Fetch, now: u64) -> bool
    ensures { result ≡ is_late fetch.now now }
{
    late_at(fetch.began) <= now
}

// A look-up begins at a moment: where that is to be noted, so is the moment at which it is late.
pub(crate) fn note_late(late: &mut Lates, is_noted: bool, key: &ReplyKey, now: u64)
    requires { deque_len late.old < deque_capacity late.old }
    ensures { late.new.items ≡ (if is_noted then late.old.items ++ (late_at now, key.now) ∷ [] else late.old.items) }
{
    if is_noted {
        late.push_back_reserved((late_at(now), key.copied()));
    }
}

// Room for one more. A refused call changes nothing.
pub(crate) fn reserve_late(late: &mut Lates) -> Result<(), AllocError>
    ensures same { late.new.items ≡ late.old.items }
    ensures room { OnOk result (deque_len late.new < deque_capacity late.new) }
{
    late.reserve(1)
}
