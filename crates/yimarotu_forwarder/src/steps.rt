//! The steps of a forwarder.
ghost use Rattle.std.specs.Prelude.{◌≡◌, IfOk, MatchOption, None, OnErr, OnOk, Some, slice_get};
ghost use Rattle.yimarotu_forwarder.specs.Fetches.{FetchValue, fetch_at};
ghost use Rattle.yimarotu_forwarder.specs.Forwarders.{ReplyingValue};
ghost use Rattle.yimarotu_forwarder.specs.LookingUp.{next_question};
ghost use Rattle.yimarotu_forwarder.specs.NextQuestions.{ended_by, next_key, with_asked_where};
ghost use Rattle.yimarotu_forwarder.specs.Steps.{AsksFor, AsksOr, AsksPool, EndsWith, ForwarderSteps, IsDecidedNext, IsLetGo, RepliesFirst, RepliesNext, RepliesTo, StepsPool, StopsAsking, StopsFetch, StopsReplyingFirst, StopsStep, TellsLateFirst, action_of, has_turn, keeps, keeps_chain_end, keeps_end, lets_go, with_stored};
ghost use Rattle.local_answers.specs.declared.local_data.Decision.TheVariants as decision;
ghost use Rattle.yimarotu_forwarder.specs.Telling.{EndsFetch, Finishes, replying_of, whole_end, with_end};
ghost use Rattle.client_requests.specs.declared.fetch_end.FetchEnd.TheVariants as fetch_end;
ghost use Rattle.failure_replies.specs.declared.failure.FailureReason.TheVariants as reason;
ghost use Rattle.std.specs.Option.{is_none, option_map};
ghost use Rattle.whole_lookups.specs.Lookups.{whole_with};

use crate::cached::{CachedReply, fresh_until};
use crate::chain_ends::ChainEnd;
use crate::fetch::Fetch;
use crate::forwarder::Forwarder;
use crate::local::decide;
use crate::looking_up::ask;
use crate::replying::Replying;
use crate::stale::{kept_until, put_end};
use crate::telling::Telling;
use client_requests::{FetchEnd, ReplyKey};
use failure_replies::FailureReason;
use hickory_proto_core::Query;
use hickory_resolver_pool::{Action, Asked, DnssecOptions, Opening, Sent};
use local_answers::Decision;
use std::alloc::AllocError;
use stored_replies::StoredReply;
use whole_replies::KeptReply;

/// What a program has to do next.
#[derive(Drop)]
pub enum ForwarderAction {
    /// It sends the forwarder's reply to the client of this number.
    Reply(u64),
    /// It opens a channel.
    Open(Opening),
    /// It writes octets on a channel.
    Send(Sent),
    /// It closes a channel. Each that was opened is closed once, also one that failed.
    Close(u64),
    /// Nothing: something was done of which it has no part.
    Continue,
}

impl Forwarder {
    /// Does the next step, and answers what the program has to do for it; `None` where nothing is left to be done. The
    /// end of a chain is kept first; then who waits for what a look-up came to is replied to; then questions are asked
    /// that replies led to; then those are told who asked in a transaction that is over; then what is kept is looked up
    /// anew before its end; then those who wait for a look-up that is late are told what is kept past its end; and else
    /// the pool does its next step. A refused call changes nothing, but that a look-up that was at its end fails, that
    /// its reply is not kept, once all were told of it, nor the end of a chain, or that what is kept is not looked up
    /// anew.
    pub fn next_action(&mut self) -> Result<Option<ForwarderAction>, AllocError>
        ensures ok { IfOk result (λ action. ForwarderSteps self.old action self.new) }
        ensures err { OnErr result (StopsStep self.old self.new) }
    {
        if let Some(end) = self.chain_end.take() {
            self.keep_chain_end(end)?;
            return Ok(Some(ForwarderAction::Continue));
        }
        self.reply_or_ask()
    }

    // Who waits is replied to first, and then questions are asked.
    fn reply_or_ask(&mut self) -> Result<Option<ForwarderAction>, AllocError>
        ensures ok { IfOk result (λ action. RepliesFirst self.old action self.new) }
        ensures err { OnErr result (StopsReplyingFirst self.old self.new) }
    {
        if self.replying.is_some() {
            return Ok(Some(self.reply_next()?));
        }
        if let Some(key) = self.fetches.first_to_ask() {
            self.ask_for(key)?;
            return Ok(Some(ForwarderAction::Continue));
        }
        if self.telling.is_some() {
            self.tell()?;
            return Ok(Some(ForwarderAction::Continue));
        }
        if let Some(key) = self.prefetch.take() {
            self.prefetch(key)?;
            return Ok(Some(ForwarderAction::Continue));
        }
        self.tell_late_or_step()
    }

    // ---- who waits

    // The next who waits is replied to. Where all were, what the look-up came to is kept, and let go.
    fn reply_next(&mut self) -> Result<ForwarderAction, AllocError>
        ensures ok { (r : ReplyingValue) → self.old.replying ≡ Some r
            → IfOk result (λ action. RepliesNext self.old (Some action) self.new r) }
        ensures err { (r : ReplyingValue) → self.old.replying ≡ Some r → OnErr result (IsLetGo self.old self.new r) }
    {
        if self.all_are_told() {
            self.let_go()
        } else {
            Ok(self.reply_first())
        }
    }

    fn all_are_told(&self) -> bool
        ensures { (r : ReplyingValue) → self.now.replying ≡ Some r → result ≡ is_none (slice_get r.waiting 0) }
    {
        match &self.replying {
            Some(replying) => replying.waiting.front().is_none(),
            None => true,
        }
    }

    // The first who waits is replied to, where there is one.
    fn reply_first(&mut self) -> ForwarderAction
        ensures { (r : ReplyingValue) → self.old.replying ≡ Some r
            → MatchOption (slice_get r.waiting 0) (self.new ≡ self.old) (RepliesTo r self.old (Some result) self.new) }
    {
        let second = self.second();
        let Some(replying) = &mut self.replying else {
            return ForwarderAction::Continue;
        };
        match replying.waiting.pop_front() {
            Some(waiting) => {
                let client = waiting.client();
                put_end(
                    &mut self.reply,
                    &self.cache,
                    &waiting.request(),
                    &replying.key,
                    &replying.end,
                    &self.options,
                    second,
                );
                self.counts.remove(client.address);
                ForwarderAction::Reply(client.number)
            }
            None => ForwarderAction::Continue,
        }
    }

    // What the look-up came to is let go, once it is kept. Where no memory is left it is not.
    fn let_go(&mut self) -> Result<ForwarderAction, AllocError>
        ensures ok { (r : ReplyingValue) → self.old.replying ≡ Some r
            → IfOk result (λ action. (action ≡ ForwarderAction.Continue) × (self.new ≡ lets_go r self.old)) }
        ensures err { OnErr result (self.new ≡ record self.old { replying = None }) }
    {
        if let Some(replying) = self.replying.take() {
            self.keep(replying)?;
        }
        Ok(ForwarderAction::Continue)
    }

    fn keep(&mut self, replying: Replying) -> Result<(), AllocError>
        ensures ok { OnOk result (self.new ≡ keeps replying self.old) }
        ensures err { OnErr result (self.new ≡ self.old) }
    {
        let Replying {
            key,
            end,
            replies,
            generation,
            ..
        } = replying;
        if generation != self.generation {
            return Ok(());
        }
        self.keep_end(&key, end, replies)
    }

    fn keep_end(&mut self, key: &ReplyKey, end: FetchEnd, replies: u32) -> Result<(), AllocError>
        ensures ok { OnOk result (self.new ≡ keeps_end key.now end replies self.old) }
        ensures err { OnErr result (self.new ≡ self.old) }
    {
        match end {
            FetchEnd::Reply(stored) => self.store(key, stored, replies),
            FetchEnd::Failure(_) => Ok(()),
        }
    }

    // The end of a chain is kept, and a failure of its question is let go. Where no memory is left it is not.
    fn keep_chain_end(&mut self, end: ChainEnd) -> Result<(), AllocError>
        ensures ok { OnOk result (self.new ≡ keeps_chain_end end self.old) }
        ensures err { OnErr result (self.new ≡ self.old) }
    {
        if end.generation != self.generation {
            return Ok(());
        }
        let ChainEnd { key, reply, .. } = end;
        self.store(&key, reply, 1)?;
        self.failures.forget(key.as_slice());
        Ok(())
    }

    // A reply is kept that so many replies of servers made, unless it is told for no time: then what was kept goes.
    fn store(&mut self, key: &ReplyKey, stored: StoredReply, replies: u32) -> Result<(), AllocError>
        ensures ok { OnOk result (self.new ≡ with_stored key.now stored replies self.old) }
        ensures err { OnErr result (self.new ≡ self.old) }
    {
        let second = self.second();
        let weight = stored.weight();
        let until = stored
            .until()
            .min(second.saturating_add(self.options.greatest_ttl));
        if until <= second {
            self.cache.remove(key.as_slice());
            return Ok(());
        }
        let deadline = kept_until(&self.options, until);
        let cached = CachedReply {
            reply: stored,
            fresh_until: fresh_until(second, until),
            told_until: until,
            replies,
        };
        self.cache
            .store(key.as_slice(), cached, weight, deadline, second)
    }

    // ---- questions that replies led to

    // The fetch of a key, the first that has one, asks its question.
    fn ask_for(&mut self, key: ReplyKey) -> Result<(), AllocError>
        ensures ok { OnOk result (AsksFor self.old self.new key) }
        ensures err { OnErr result (StopsAsking self.old self.new key) }
    {
        match self.decide_next(&key)? {
            Some(decision) => self.ask_as(key, decision),
            None => {
                self.fetches.pop_to_ask();
                Ok(())
            }
        }
    }

    // As was decided of its question.
    fn ask_as(&mut self, key: ReplyKey, decision: Decision) -> Result<(), AllocError>
        ensures ok { (f : FetchValue) → fetch_at key self.old.fetches ≡ Some f
            → OnOk result (AsksOr decision key f (has_turn self.old) self.new) }
        ensures err { OnErr result (StopsAsking self.old self.new key) }
    {
        match decision {
            Decision::Answer(kept) => self.answer_next(key, kept, 0),
            Decision::Ask(group) => self.ask_or_end(key, group),
        }
    }

    // What is kept of the question is put behind what came, and counts as asked for again; and else a group is asked.
    fn ask_or_end(&mut self, key: ReplyKey, group: u64) -> Result<(), AllocError>
        ensures ok { (f : FetchValue) → fetch_at key self.old.fetches ≡ Some f
            → OnOk result (AsksOr (decision.Ask group) key f (has_turn self.old) self.new) }
        ensures err { OnErr result (StopsAsking self.old self.new key) }
    {
        match self.kept_end(&key)? {
            Some((kept, replies)) => self.answer_kept(key, kept, replies),
            None => self.ask_next(key, group),
        }
    }

    // What is kept of the question, which so many replies of servers made, is told behind what came, and is marked.
    fn answer_kept(
        &mut self,
        key: ReplyKey,
        kept: KeptReply,
        replies: u32,
    ) -> Result<(), AllocError>
        ensures ok { (f : FetchValue) → fetch_at key self.old.fetches ≡ Some f → OnOk result
            (EndsWith key kept replies f (with_asked_where (next_key f) (has_turn self.old)) self.new) }
        ensures err { OnErr result (StopsAsking self.old self.new key) }
    {
        let end = self.end_key(&key)?;
        self.answer_next(key, kept, replies)?;
        self.mark_end(end);
        Ok(())
    }

    // What is decided of the question that the fetch of a key has to ask; none where there is no such fetch.
    fn decide_next(&self, key: &ReplyKey) -> Result<Option<Decision>, AllocError>
        ensures { IfOk result (IsDecidedNext self.now key.now) }
    {
        match self.fetches.get(key) {
            Some(fetch) => {
                let next = &fetch.lookup.next;
                Ok(Some(decide(self.alloc, &self.local, next, self.second())?))
            }
            None => Ok(None),
        }
    }

    // The question is answered here, by what so many replies of servers made: that is told behind what came.
    fn answer_next(
        &mut self,
        key: ReplyKey,
        kept: KeptReply,
        replies: u32,
    ) -> Result<(), AllocError>
        ensures ok { (f : FetchValue) → fetch_at key self.old.fetches ≡ Some f
            → OnOk result (EndsWith key kept replies f (has_turn self.old) self.new) }
        ensures err { OnErr result (StopsFetch key self.old self.new) }
    {
        self.fetches.pop_to_ask();
        match self.fetches.remove(&key) {
            Some(fetch) => self.finish_with(key, fetch, kept, replies),
            None => Ok(()),
        }
    }

    fn finish_with(
        &mut self,
        key: ReplyKey,
        fetch: Fetch,
        kept: KeptReply,
        replies: u32,
    ) -> Result<(), AllocError>
        ensures ok { OnOk result (self.new
            ≡ record (with_end key (whole_end (whole_with kept fetch.lookup) fetch self.old) fetch self.old) {
              replying = Some (replying_of key (whole_end (whole_with kept fetch.lookup) fetch self.old)
                  (ended_by replies fetch));
            }) }
        ensures err { OnErr result (self.new
            ≡ record self.old { replying = Some (replying_of key (fetch_end.Failure reason.Other) fetch) }) }
    {
        let mut fetch = fetch;
        match fetch.lookup.hear_local(kept) {
            Ok(whole) => self.finish_whole(key, fetch.ended_by(replies), whole),
            Err(error) => {
                self.reply_all(key, fetch, FetchEnd::Failure(FailureReason::Other));
                Err(error)
            }
        }
    }

    // The fetch of a key asks its question of a group.
    fn ask_next(&mut self, key: ReplyKey, group: u64) -> Result<(), AllocError>
        ensures ok { (f : FetchValue) → fetch_at key self.old.fetches ≡ Some f
            → OnOk result (AsksPool group key f (has_turn self.old) self.new) }
        ensures err { OnErr result (self.new ≡ self.old) }
    {
        let Some((query, dnssec)) = self.next_question(&key)? else {
            return Ok(());
        };
        self.fetches.reserve_asker()?;
        let asked = ask(&mut self.pool, group, query, dnssec, self.clock)?;
        self.fetches.pop_to_ask();
        match asked {
            Asked::Asker(asker) => {
                self.fetches.insert_asker(asker.number, key);
                Ok(())
            }
            Asked::Overloaded => Ok(self.end_unasked(key, FailureReason::NotReady)),
            Asked::NoServers => Ok(self.end_unasked(key, FailureReason::NoReachableAuthority)),
        }
    }

    // The question that the fetch of a key has to ask, and what is asked of DNSSEC.
    fn next_question(&self, key: &ReplyKey) -> Result<Option<(Query, DnssecOptions)>, AllocError>
        ensures { IfOk result (λ question. question
            ≡ option_map (next_question self.now) (fetch_at key.now self.now.fetches)) }
    {
        match self.fetches.get(key) {
            Some(fetch) => {
                let dnssec = self.dnssec_of(fetch.lookup.dnssec, fetch.checking_disabled);
                Ok(Some((Clone::clone(&fetch.lookup.next)?, dnssec)))
            }
            None => Ok(None),
        }
    }

    // The question of the fetch of a key was not asked: it failed, which is not noted.
    fn end_unasked(&mut self, key: ReplyKey, why: FailureReason)
        ensures { (f : FetchValue) → fetch_at key self.old.fetches ≡ Some f
            → Finishes key (fetch_end.Failure why) f self.old self.new }
    {
        if let Some(fetch) = self.fetches.remove(&key) {
            self.reply_all(key, fetch, FetchEnd::Failure(why));
        }
    }

    // ---- the pool

    // Those who wait for a look-up that is late are told from then on, or the pool does its next step.
    fn tell_late_or_step(&mut self) -> Result<Option<ForwarderAction>, AllocError>
        ensures ok { self.old.telling ≡ None → IfOk result (λ action. TellsLateFirst self.old action self.new) }
        ensures err { OnErr result (self.new ≡ self.old) }
    {
        match self.first_due() {
            Some(key) => {
                self.tell_late(key);
                Ok(Some(ForwarderAction::Continue))
            }
            None => self.step_pool(),
        }
    }

    // The pool does its next step, where nobody is told.
    fn step_pool(&mut self) -> Result<Option<ForwarderAction>, AllocError>
        ensures ok { self.old.telling ≡ None → IfOk result (λ action. StepsPool self.old action self.new) }
        ensures err { OnErr result (self.new ≡ self.old) }
    {
        match self.pool.next_action()? {
            Some(Action::Over(over)) => {
                self.telling = Some(Telling::new(over));
                Ok(Some(ForwarderAction::Continue))
            }
            did => Ok(handed_on(did)),
        }
    }
}

// What the program has to do for a step of the pool.
fn handed_on(did: Option<Action>) -> Option<ForwarderAction>
    ensures { result ≡ action_of did }
{
    match did {
        None => None,
        Some(Action::Open(opening)) => Some(ForwarderAction::Open(opening)),
        Some(Action::Send(sent)) => Some(ForwarderAction::Send(sent)),
        Some(Action::Close(channel)) => Some(ForwarderAction::Close(channel)),
        Some(Action::Over(_)) => Some(ForwarderAction::Continue),
        Some(Action::Continue) => Some(ForwarderAction::Continue),
    }
}
