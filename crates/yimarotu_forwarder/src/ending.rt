//! The end of a look-up.
ghost use Rattle.std.specs.Prelude.{◌≡◌, IfOk, MatchOption, OnErr, OnOk, Some};
ghost use Rattle.client_requests.specs.declared.fetch_end.FetchEnd.TheVariants as fetch_end;
ghost use Rattle.failure_replies.specs.declared.failure.FailureReason.TheVariants as reason;
ghost use Rattle.yimarotu_forwarder.specs.Fetches.{fetch_at};
ghost use Rattle.yimarotu_forwarder.specs.Forwarders.{second_of};
ghost use Rattle.yimarotu_forwarder.specs.Hearing.{StopsKey};
ghost use Rattle.yimarotu_forwarder.specs.Telling.{EndsFetch, as_told, failures_after, is_kept_failure, is_noted, is_unreachable, replies_of, replying_of, whole_end, with_end};

use crate::fetch::Fetch;
use crate::forwarder::Forwarder;
use crate::options::ForwarderOptions;
use crate::replying::{Replying, end_of};
use client_requests::{FetchEnd, ReplyKey};
use failure_replies::FailureReason;
use hickory_proto_core::Name;
use hickory_resolver_filters::AnswerFilter;
use std::alloc::AllocError;
use whole_lookups::{cap, without_denied};
use whole_replies::KeptReply;

impl Forwarder {
    // The fetch of a key, where there is one, came to this whole reply: those who wait are replied to from then on.
    // Where no memory is left to store it, the look-up fails.
    pub(crate) fn end_whole(&mut self, key: ReplyKey, kept: KeptReply) -> Result<(), AllocError>
        ensures ok { OnOk result (MatchOption (fetch_at key self.old.fetches) (self.new ≡ self.old)
            (λ f. EndsFetch key (whole_end kept f self.old) f self.old self.new)) }
        ensures err { OnErr result (StopsKey key self.old self.new) }
    {
        match self.fetches.remove(&key) {
            Some(fetch) => self.finish_whole(key, fetch, kept),
            None => Ok(()),
        }
    }

    // The fetch of a key, where there is one, failed: those who wait are told from then on.
    pub(crate) fn end_failed(&mut self, key: ReplyKey, why: FailureReason) -> Result<(), AllocError>
        ensures ok { OnOk result (MatchOption (fetch_at key self.old.fetches) (self.new ≡ self.old)
            (λ f. EndsFetch key (fetch_end.Failure why) f self.old self.new)) }
        ensures err { OnErr result (StopsKey key self.old self.new) }
    {
        match self.fetches.remove(&key) {
            Some(fetch) => self.finish(key, fetch, FetchEnd::Failure(why)),
            None => Ok(()),
        }
    }

    // A fetch that left came to this whole reply.
    pub(crate) fn finish_whole(
        &mut self,
        key: ReplyKey,
        fetch: Fetch,
        kept: KeptReply,
    ) -> Result<(), AllocError>
        ensures ok { OnOk result (self.new ≡ record (with_end key (whole_end kept fetch self.old) fetch self.old) {
          replying = Some (replying_of key (whole_end kept fetch self.old) fetch);
        }) }
        ensures err { OnErr result (self.new
            ≡ record self.old { replying = Some (replying_of key (fetch_end.Failure reason.Other) fetch) }) }
    {
        match self.whole_end(&fetch, kept) {
            Ok(end) => self.finish(key, fetch, end),
            Err(error) => {
                self.reply_all(key, fetch, FetchEnd::Failure(FailureReason::Other));
                Err(error)
            }
        }
    }

    // The whole reply as it is told and stored. It counts from the second at which the pool told the first of its
    // replies.
    fn whole_end(&self, fetch: &Fetch, kept: KeptReply) -> Result<FetchEnd, AllocError>
        ensures { IfOk result (λ end. end ≡ whole_end kept fetch.now self.now) }
    {
        let mut kept = kept;
        tell_as(&self.options, &fetch.lookup.asked.name, &mut kept);
        let second = fetch.first_second(self.second());
        end_of(self.alloc, &fetch.lookup.asked, kept, second)
    }

    // A fetch that left came to this, which is noted. Where no memory is left for that, it fails.
    pub(crate) fn finish(
        &mut self,
        key: ReplyKey,
        fetch: Fetch,
        end: FetchEnd,
    ) -> Result<(), AllocError>
        ensures ok { OnOk result (self.new
            ≡ record (with_end key end fetch self.old) { replying = Some (replying_of key end fetch) }) }
        ensures err { OnErr result (self.new
            ≡ record self.old { replying = Some (replying_of key (fetch_end.Failure reason.Other) fetch) }) }
    {
        match self.note_end(&key, &fetch, &end) {
            Ok(()) => {
                self.reply_all(key, fetch, end);
                Ok(())
            }
            Err(error) => {
                self.reply_all(key, fetch, FetchEnd::Failure(FailureReason::Other));
                Err(error)
            }
        }
    }

    // A failure is noted, and a reply lets go of those before it, unless local data changed since the look-up began. A
    // refused call changes nothing.
    fn note_end(&mut self, key: &ReplyKey, fetch: &Fetch, end: &FetchEnd) -> Result<(), AllocError>
        ensures ok { OnOk result (self.new ≡ with_end key.now end.now fetch.now self.old) }
        ensures err { OnErr result (self.new ≡ self.old) }
    {
        if fetch.generation != self.generation {
            return Ok(());
        }
        match end {
            FetchEnd::Reply(_) => {
                self.failures.forget(key.as_slice());
                Ok(())
            }
            FetchEnd::Failure(reason) => self.note_failure(key, fetch, *reason),
        }
    }

    fn note_failure(
        &mut self,
        key: &ReplyKey,
        fetch: &Fetch,
        reason: FailureReason,
    ) -> Result<(), AllocError>
        ensures ok { OnOk result (self.new ≡ record self.old {
          failures = failures_after key.now (fetch_end.Failure reason) fetch.now.began self.old.stalled
              (second_of self.old) self.old.failures;
        }) }
        ensures err { OnErr result (self.new ≡ self.old) }
    {
        if !self.is_noted(fetch, reason) {
            return Ok(());
        }
        let second = self.second();
        self.failures.note(key.as_slice(), reason, second)
    }

    // Whether it says something of the servers: not that there was no place; nor that none could be reached, where since
    // the look-up began a channel could not be opened here.
    fn is_noted(&self, fetch: &Fetch, reason: FailureReason) -> bool
        ensures { result ≡ is_noted reason fetch.now.began self.now.stalled }
    {
        is_kept_failure(reason) && !(is_unreachable(reason) && self.is_stalled_since(fetch.began))
    }

    // Those who wait for a fetch that left are told this from then on.
    pub(crate) fn reply_all(&mut self, key: ReplyKey, fetch: Fetch, end: FetchEnd)
        ensures { self.new ≡ record self.old { replying = Some (replying_of key end fetch) } }
    {
        let replies = replies_of(&end, fetch.questions());
        self.replying = Some(Replying {
            key,
            end,
            replies,
            generation: fetch.generation,
            waiting: fetch.waiting,
        });
    }
}

// A whole reply to a question for a name as it is told: without the addresses that are denied, and with no TTL above the
// greatest.
#[tactic(auto, unfolding(crate::specs::Telling::as_told))]
pub(crate) fn tell_as(options: &ForwarderOptions, name: &Name, kept: &mut KeptReply)
    ensures { kept.new ≡ as_told name.now options.now kept.old }
{
    let by = AnswerFilter {
        allow: &options.allowed,
        deny: options.denied_for(name),
    };
    without_denied(&by, kept);
    cap(options.greatest_ttl, kept);
}

// That no server could be reached.
fn is_unreachable(reason: FailureReason) -> bool
    ensures { result ≡ is_unreachable reason }
{
    match reason {
        FailureReason::NoReachableAuthority => true,
        _ => false,
    }
}

// How many replies of servers made it, at the most.
fn replies_of(end: &FetchEnd, questions: u32) -> u32
    ensures { result ≡ replies_of end.now questions }
{
    match end {
        FetchEnd::Reply(_) => questions,
        FetchEnd::Failure(_) => 0,
    }
}

// That there was no place says nothing of the servers.
fn is_kept_failure(reason: FailureReason) -> bool
    ensures { result ≡ is_kept_failure reason }
{
    match reason {
        FailureReason::NotReady => false,
        _ => true,
    }
}
