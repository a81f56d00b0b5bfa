//! Where replies are written.
ghost use Rattle.std.specs.Prelude.{◌≡◌, ◌≤◌, length, IfOk, [], unwrap_or, Some};
ghost use Rattle.std.specs.Option.{is_some, option_map};
ghost use Rattle.stored_replies.specs.Told.{put_in};
ghost use Rattle.client_queries.specs.Refusals.{question_octets, refusal_octets};
ghost use Rattle.failure_replies.specs.Failures.{failure_octets};
ghost use Rattle.client_requests.specs.Replies.{stored_reply, stale_reply, reply_to, failure_reply, refusal_reply};

use crate::choices::{LONGEST_MESSAGE, LONGEST_QUESTION};
use crate::fetch_end::FetchEnd;
use crate::request::Request;
use client_queries::{ClientQuery, Refusal};
use failure_replies::laws::{failures_are_short, refusals_are_short};
use failure_replies::{FailureReason, write_failure, write_refusal};
use std::alloc::{AllocError, Global};
use std::marker::Model;
use stored_replies::StoredReply;

/// Where a reply is written, with room for the longest. It is made once, so that a reply takes no memory.
#[derive(Drop)]
pub struct ReplyRoom {
    octets: Vec<u8>,
    // How many of them are the reply.
    filled: usize,
}

impl Model for ReplyRoom {
    ghost use Rattle.std.specs.Prelude.{◌≡◌, ℕ, List, length, take};
    ghost use Rattle.client_requests.specs.declared.choices.TheConstants.{LONGEST_MESSAGE};

    ghost Value = { List ℕ };

    ghost view = { λ r. take r.filled r.octets.items };

    ghost invariant = { λ r. length r.octets.items ≡ LONGEST_MESSAGE };
}

impl ReplyRoom {
    /// Nothing is written yet.
    pub fn new(alloc: Global) -> Result<ReplyRoom, AllocError>
        ensures { IfOk result (λ room. room ≡ []) }
    {
        let octets = vec![in alloc; 0; LONGEST_MESSAGE]?;
        Ok(ReplyRoom { octets, filled: 0 })
    }

    /// The octets that were written last.
    pub fn as_slice(&self) -> &[u8]
        ensures { result.now ≡ self.now }
    {
        &self.octets[..self.octets.len().min(self.filled)]
    }

    /// Writes the reply that is stored, as it has aged at this second, with AD where the server that said it is trusted.
    /// Where it is too long for the client, it says TC and has no records. Tells whether the request asks for it;
    /// nothing is written where it does not.
    pub fn put_stored(
        &mut self,
        request: &Request<'_>,
        stored: &StoredReply,
        trust: bool,
        now: u64,
    ) -> bool
        ensures told { result ≡ is_some (stored_reply request.now stored.now trust now) }
        ensures room { self.new ≡ unwrap_or (stored_reply request.now stored.now trust now) self.old }
    {
        match write_stored(request, stored, trust, now, &mut self.octets) {
            Some(length) => {
                self.filled = length;
                true
            }
            None => false,
        }
    }

    /// Writes the reply that is stored, past its end (RFC 8767): each TTL is 30 seconds, and AD is not set. Else as
    /// `put_stored`.
    pub fn put_stale(&mut self, request: &Request<'_>, stored: &StoredReply) -> bool
        ensures told { result ≡ is_some (stale_reply request.now stored.now) }
        ensures room { self.new ≡ unwrap_or (stale_reply request.now stored.now) self.old }
    {
        match write_stale(request, stored, &mut self.octets) {
            Some(length) => {
                self.filled = length;
                true
            }
            None => false,
        }
    }

    /// Writes the reply that refuses a request.
    pub fn put_refusal(&mut self, request: &Request<'_>, refusal: Refusal)
        ensures { self.new ≡ refusal_reply request.now refusal }
    {
        self.filled = write_refused(request.octets(), request.query(), refusal, &mut self.octets);
    }

    /// Writes the reply that says that there is none, and why.
    pub fn put_failure(&mut self, request: &Request<'_>, reason: FailureReason)
        ensures { self.new ≡ failure_reply request.now reason }
    {
        self.filled = write_failed(request.octets(), request.query(), reason, &mut self.octets);
    }

    /// Writes what a look-up came to.
    pub fn put_end(&mut self, request: &Request<'_>, end: &FetchEnd, trust: bool, now: u64)
        ensures { self.new ≡ reply_to request.now end.now trust now }
    {
        match end {
            FetchEnd::Reply(stored) => {
                if !self.put_stored(request, stored, trust, now) {
                    self.put_failure(request, FailureReason::Other);
                }
            }
            FetchEnd::Failure(reason) => self.put_failure(request, *reason),
        }
    }
}

// The same, to the front of a room: how many octets it has.
fn write_stored(
    request: &Request<'_>,
    stored: &StoredReply,
    trust: bool,
    now: u64,
    room: &mut [u8],
) -> Option<usize>
    requires { length room.old ≡ LONGEST_MESSAGE }
    ensures length { result ≡ option_map length (stored_reply request.now stored.now trust now) }
    ensures room { room.new ≡ put_in room.old (stored_reply request.now stored.now trust now) }
{
    let (octets, query) = (request.octets(), request.query());
    if stored.length(query) <= request.limit() {
        stored.write(octets, query, trust, now, room)
    } else {
        stored.write_cut(octets, query, trust, room)
    }
}

// The same past its end.
fn write_stale(request: &Request<'_>, stored: &StoredReply, room: &mut [u8]) -> Option<usize>
    requires { length room.old ≡ LONGEST_MESSAGE }
    ensures length { result ≡ option_map length (stale_reply request.now stored.now) }
    ensures room { room.new ≡ put_in room.old (stale_reply request.now stored.now) }
{
    let (octets, query) = (request.octets(), request.query());
    if stored.length(query) <= request.limit() {
        stored.write_stale(octets, query, room)
    } else {
        stored.write_cut(octets, query, false, room)
    }
}

// A refusal, to the front of a room: how many octets it has. It has few.
fn write_refused(octets: &[u8], query: &ClientQuery, refusal: Refusal, room: &mut [u8]) -> usize
    requires room { length room.old ≡ LONGEST_MESSAGE }
    requires short { length (question_octets octets.now query.now.question_end) ≤ LONGEST_QUESTION }
    ensures length { result ≡ length (refusal_octets octets.now query.now refusal) }
    ensures room { room.new ≡ put_in room.old (Some (refusal_octets octets.now query.now refusal)) }
{
    refusals_are_short();
    match write_refusal(octets, query, refusal, room) {
        Some(length) => length,
        None => 0,
    }
}

// The same of a failure.
fn write_failed(octets: &[u8], query: &ClientQuery, reason: FailureReason, room: &mut [u8]) -> usize
    requires room { length room.old ≡ LONGEST_MESSAGE }
    requires short { length (question_octets octets.now query.now.question_end) ≤ LONGEST_QUESTION }
    ensures length { result ≡ length (failure_octets octets.now query.now reason) }
    ensures room { room.new ≡ put_in room.old (Some (failure_octets octets.now query.now reason)) }
{
    failures_are_short();
    match write_failure(octets, query, reason, room) {
        Some(length) => length,
        None => 0,
    }
}
