//! Replies that are made at once, and those to who waited.
ghost use Rattle.std.specs.Prelude.{◌≡◌, IfOk, OnErr};
ghost use Rattle.yimarotu_forwarder.specs.Replying.{Fails, Refuses, TellsLocal, end_of};

use crate::answered::Outcome;
use crate::forwarder::Forwarder;
use client_queries::Refusal;
use client_requests::{FetchEnd, ReplyKey, Request, WaitingRequest};
use failure_replies::FailureReason;
use hickory_proto_core::Query;
use std::alloc::{AllocError, Global};
use std::collections::VecDeque;
use std::marker::Model;
use stored_replies::{StoreError, StoredReply};
use whole_replies::KeptReply;

// What a look-up came to: its key, what it was, how many replies of servers made that, at the most, the generation under
// which it began, and who is still to be told.
#[derive(Drop)]
pub(crate) struct Replying {
    pub(crate) key: ReplyKey,
    pub(crate) end: FetchEnd,
    pub(crate) replies: u32,
    pub(crate) generation: u64,
    pub(crate) waiting: VecDeque<WaitingRequest>,
}

impl Model for Replying {
    ghost use Rattle.yimarotu_forwarder.specs.Forwarders.{ReplyingValue};

    ghost Value = { ReplyingValue };

    ghost view = { λ r. record {
      key = r.key;
      end = r.end;
      replies = r.replies;
      generation = r.generation;
      waiting = r.waiting.items;
    } };
}

impl Forwarder {
    // A request is refused.
    pub(crate) fn refuse(&mut self, request: &Request<'_>, why: Refusal) -> Outcome
        ensures { Refuses self.old request.now why result self.new }
    {
        self.reply.put_refusal(request, why);
        Outcome::Refused
    }

    // A request is told that the look-up failed.
    pub(crate) fn fail(&mut self, request: &Request<'_>, why: FailureReason) -> Outcome
        ensures { Fails self.old request.now why result self.new }
    {
        self.reply.put_failure(request, why);
        Outcome::Fails
    }

    // What is known here is told, as of this second.
    pub(crate) fn tell_local(
        &mut self,
        request: &Request<'_>,
        query: &Query,
        kept: KeptReply,
    ) -> Result<Outcome, AllocError>
        ensures ok { IfOk result (λ answered. TellsLocal self.old request.now query.now kept answered self.new) }
        ensures err { OnErr result (self.new ≡ self.old) }
    {
        let second = self.second();
        let end = end_of(self.alloc, query, kept, second)?;
        self.reply
            .put_end(request, &end, self.options.trusts_authentic_data, second);
        Ok(Outcome::Local)
    }
}

// A whole reply as it is stored from a second on. One that cannot be written is none.
pub(crate) fn end_of(
    alloc: Global,
    query: &Query,
    kept: KeptReply,
    second: u64,
) -> Result<FetchEnd, AllocError>
    ensures { IfOk result (λ end. end ≡ end_of query.now kept second) }
{
    match StoredReply::of(alloc, query, kept, second) {
        Ok(stored) => Ok(FetchEnd::Reply(stored)),
        Err(StoreError::OutOfMemory) => Err(AllocError),
        Err(_) => Ok(FetchEnd::Failure(FailureReason::Other)),
    }
}
