//! What each event does with a transaction.
ghost use Rattle.std.specs.Prelude.{◌≡◌, find, filter, not, true, OnOk, OnErr, Option, None, Some};
ghost use Rattle.std.specs.List.{list_any};
ghost use Rattle.std.specs.Option.{option_map_or};
ghost use Rattle.hickory_resolver_transactions.specs.Candidates.{is_try, waits_as, waits_on, is_due, is_blocked, freed_one, has_failed_by};
ghost use Rattle.hickory_resolver_transactions.specs.Transaction.{replaced, replacing, putting, noting, with_late, acted, picked, candidate_at, late_at, late_came_to, late_replied, came_to, without_answered, came, opt_was_refused, other_letters_came, failed_at, failed_in, failed, blocked_in, blocked, freed, expired_in, late_expired, expired};

use crate::candidate::{Candidate, LateTry, Progress, Transport, Try};
use crate::changed::replace;
use crate::outcome::Outcome;
use crate::picked::{
    any_failed_by, candidate_at, first_blocked, first_due, late_at, not_failed_by, not_sent_as,
    waiting_as, waiting_on,
};
use crate::table::{
    after_closed_stream, after_deadline, after_reply, stays_believed, then_of_other_letters,
    then_of_refused_opt, then_of_reply,
};
use crate::transaction::Transaction;
use hickory_resolver_tries::ReplyOutcome;
use std::alloc::AllocError;

impl Transaction {
    /// A reply was believed, to the try on this channel with this number. It comes to this, and the caller keeps it
    /// under a number. Where memory is refused nothing changes.
    pub fn came(
        &mut self,
        channel: u64,
        id: u16,
        outcome: ReplyOutcome,
        reply: u64,
    ) -> Result<(), AllocError>
        ensures ok { OnOk result (self.new ≡ came channel id outcome reply self.old) }
        ensures err { OnErr result (self.new ≡ self.old) }
    {
        match waiting_as(&self.candidates, channel, id) {
            Some(candidate) => self.came_to(&candidate, outcome, reply),
            None => self.came_late(channel, id, outcome, reply),
        }
    }

    fn came_to(
        &mut self,
        candidate: &Candidate,
        outcome: ReplyOutcome,
        reply: u64,
    ) -> Result<(), AllocError>
        ensures ok { OnOk result (self.new ≡ came_to candidate.now outcome reply self.old) }
        ensures err { OnErr result (self.new ≡ self.old) }
    {
        let what = then_of_reply(candidate, outcome, reply);
        self.act(what, stays_believed(outcome), candidate)
    }

    // The same of a late try.
    fn came_late(
        &mut self,
        channel: u64,
        id: u16,
        outcome: ReplyOutcome,
        reply: u64,
    ) -> Result<(), AllocError>
        ensures ok { OnOk result (self.new ≡ option_map_or
            (λ l. late_replied outcome reply l (without_answered outcome channel id self.old))
            (late_at channel id self.old) self.old) }
        ensures err { OnErr result (self.new ≡ self.old) }
    {
        if let Some(late) = late_at(&self.late, channel, id) {
            self.end_answered(outcome, channel, id)?;
            self.late_replied(&late, outcome, reply);
        }
        Ok(())
    }

    // It is late no more, unless it is believed on.
    fn end_answered(
        &mut self,
        outcome: ReplyOutcome,
        channel: u64,
        id: u16,
    ) -> Result<(), AllocError>
        ensures ok { OnOk result (self.new ≡ without_answered outcome channel id self.old) }
        ensures err { OnErr result (self.new ≡ self.old) }
    {
        if !stays_believed(outcome) {
            self.late = not_sent_as(&self.late, channel, id)?;
        }
        Ok(())
    }

    fn late_replied(&mut self, late: &LateTry, outcome: ReplyOutcome, reply: u64)
        ensures { self.new ≡ late_replied outcome reply late.now self.old }
    {
        if let Some(candidate) = candidate_at(&self.candidates, late.place) {
            self.late_came_to(&candidate, &late.tried, outcome, reply);
        }
    }

    fn late_came_to(
        &mut self,
        candidate: &Candidate,
        tried: &Try,
        outcome: ReplyOutcome,
        reply: u64,
    )
        ensures { self.new ≡ late_came_to candidate.now tried.now outcome reply self.old }
    {
        let what = after_reply(candidate, tried, outcome, reply);
        self.act_late(what, candidate);
    }

    /// A header alone came, to the try on this channel with this number, that says that OPT is not known. Where
    /// memory is refused nothing changes.
    pub fn opt_was_refused(&mut self, channel: u64, id: u16) -> Result<(), AllocError>
        ensures ok { OnOk result (self.new ≡ opt_was_refused channel id self.old) }
        ensures err { OnErr result (self.new ≡ self.old) }
    {
        match waiting_as(&self.candidates, channel, id) {
            Some(candidate) => self.act(then_of_refused_opt(&candidate), false, &candidate),
            None => Ok(()),
        }
    }

    /// A reply came, to the try on this channel with this number, that is right but for letters that were varied. Where
    /// memory is refused nothing changes.
    pub fn other_letters_came(&mut self, channel: u64, id: u16) -> Result<(), AllocError>
        ensures ok { OnOk result (self.new ≡ other_letters_came channel id self.old) }
        ensures err { OnErr result (self.new ≡ self.old) }
    {
        match waiting_as(&self.candidates, channel, id) {
            Some(candidate) => self.act(then_of_other_letters(&candidate), true, &candidate),
            None => Ok(()),
        }
    }

    /// A channel failed, or a stream was closed. Where memory is refused nothing changes.
    pub fn failed(&mut self, channel: u64) -> Result<(), AllocError>
        ensures ok { OnOk result (self.new ≡ failed channel self.old) }
        ensures err { OnErr result (self.new ≡ self.old) }
    {
        match waiting_on(&self.candidates, channel) {
            Some(candidate) => self.fail(&candidate),
            None => Ok(()),
        }
    }

    fn fail(&mut self, candidate: &Candidate) -> Result<(), AllocError>
        ensures ok { OnOk result (self.new ≡ failed_in candidate.now candidate.now.progress self.old) }
        ensures err { OnErr result (self.new ≡ self.old) }
    {
        match candidate.progress {
            Progress::Waiting(tried) => self.fail_try(candidate, &tried),
            _ => Ok(()),
        }
    }

    fn fail_try(&mut self, candidate: &Candidate, tried: &Try) -> Result<(), AllocError>
        ensures ok { OnOk result (self.new
            ≡ failed_at candidate.now candidate.now.progress tried.now.transport tried.now self.old) }
        ensures err { OnErr result (self.new ≡ self.old) }
    {
        match tried.transport {
            Transport::Udp => self.fail_datagram(candidate, tried),
            Transport::Tcp => self.act(after_closed_stream(candidate, tried), false, candidate),
        }
    }

    fn fail_datagram(&mut self, candidate: &Candidate, tried: &Try) -> Result<(), AllocError>
        ensures ok { OnOk result (self.new ≡ putting Progress.Tried candidate.now
            (with_late (record { place = candidate.now.place; tried = tried.now; has_failed = true }) self.old)) }
        ensures err { OnErr result (self.new ≡ self.old) }
    {
        self.keep(&LateTry {
            place: candidate.place,
            tried: *tried,
            has_failed: true,
        })?;
        self.put(candidate, Progress::Tried);
        Ok(())
    }

    /// There was no channel: what was to be sent on this one is not sent, and waits.
    pub fn blocked(&mut self, channel: u64)
        ensures { self.new ≡ blocked channel self.old }
    {
        if let Some(candidate) = waiting_on(&self.candidates, channel) {
            self.block(&candidate);
        }
    }

    fn block(&mut self, candidate: &Candidate)
        ensures { self.new ≡ blocked_in candidate.now candidate.now.progress self.old }
    {
        if let Progress::Waiting(tried) = candidate.progress {
            replace(&mut self.candidates, &candidate.blocked(&tried));
        }
    }

    /// A channel was closed: the first that waits for one is sent.
    pub fn freed(&mut self)
        ensures { self.new ≡ freed self.old }
    {
        if let Some(candidate) = first_blocked(&self.candidates) {
            replace(&mut self.candidates, &candidate.freed());
        }
    }

    /// Time passed: the first that was due by now is not waited for any more. It is told again up to when nothing is
    /// due. Where memory is refused nothing changes.
    pub fn expired(&mut self, now: u64) -> Result<(), AllocError>
        ensures ok { OnOk result (self.new ≡ expired now self.old) }
        ensures err { OnErr result (self.new ≡ self.old) }
    {
        match first_due(&self.candidates, now) {
            Some(candidate) => self.expire(&candidate),
            None => self.expire_late(now),
        }
    }

    fn expire(&mut self, candidate: &Candidate) -> Result<(), AllocError>
        ensures ok { OnOk result (self.new ≡ expired_in candidate.now candidate.now.progress self.old) }
        ensures err { OnErr result (self.new ≡ self.old) }
    {
        match candidate.progress {
            Progress::Waiting(tried) => {
                let what = after_deadline(self.settings.tcp_on_error, candidate, &tried);
                self.act(what, true, candidate)
            }
            Progress::Blocked(_, _) => {
                self.rest(candidate, Outcome::Timeout);
                Ok(())
            }
            _ => Ok(()),
        }
    }

    fn expire_late(&mut self, now: u64) -> Result<(), AllocError>
        ensures ok { OnOk result (self.new ≡ late_expired now self.old) }
        ensures err { OnErr result (self.new ≡ self.old) }
    {
        if any_failed_by(&self.late, now) {
            self.late = not_failed_by(&self.late, now)?;
            self.note(Outcome::Unreachable);
        }
        Ok(())
    }
}
