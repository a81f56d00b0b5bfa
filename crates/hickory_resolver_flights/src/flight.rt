//! A question in flight.
ghost use Rattle.std.specs.Prelude.{◌≡◌, ◌+◌, Some, IfOk, OnOk, OnErr, option_copied};
ghost use Rattle.hickory_proto_core.specs.Errors.{items_or_none};
ghost use Rattle.hickory_proto_wire.specs.Messages.{message_of};
ghost use Rattle.hickory_resolver_tries.specs.Belief.{belief_of};
ghost use Rattle.hickory_resolver_tries.specs.Heads.{head_of};
ghost use Rattle.hickory_resolver_tries.specs.Outcome.{is_truncated, message_if, outcome_of};
ghost use Rattle.hickory_resolver_transactions.specs.Transaction.{came, failed, blocked, freed, expired, without_oldest, with_round, unsent, other_letters_came, opt_was_refused, try_at};
ghost use Rattle.hickory_resolver_flights.specs.Flights.{flight_of, octets_to_send, sent_by, names, settled, replied, heard_as, heard_by, heard, meaning_as, meaning_to, meaning, changed, kept_of};

use crate::heard::Heard;
use crate::kept::KeptReply;
use hickory_resolver_servers::Server;
use hickory_resolver_transactions::{Made, Settings, Transaction, Try};
use hickory_resolver_tries::belief::{Belief, judge};
use hickory_resolver_tries::outcome::{ReplyOutcome, read_reply};
use hickory_resolver_tries::{TryForm, TryMessage};
use std::alloc::{AllocError, Global};
use std::marker::Model;

/// A question in flight to the servers of a group. It keeps one reply: the one that it came to, or the best so far.
#[derive(Drop)]
pub struct Flight {
    message: TryMessage,
    transaction: Transaction,
    replies: u64,
    kept: Option<KeptReply>,
}

impl Model for Flight {
    ghost use Rattle.hickory_resolver_flights.specs.Flights.{FlightState};

    ghost Value = { FlightState };

    ghost view = { λ f. record {
      question = f.message;
      transaction = f.transaction;
      replies = f.replies;
      kept = f.kept;
    } };
}

impl Flight {
    /// A question to these servers, as they are now. No round has begun.
    pub fn new(
        alloc: Global,
        settings: Settings,
        servers: &[Server],
        message: TryMessage,
    ) -> Result<Flight, AllocError>
        ensures { IfOk result (λ f. f ≡ flight_of settings servers.now message) }
    {
        let transaction = Transaction::new(alloc, settings, servers)?;
        Ok(Flight {
            message,
            transaction,
            replies: 0,
            kept: None,
        })
    }

    /// The transaction: what is to be done next, and what it came to. A reply that it names is the one that is kept.
    pub fn transaction(&self) -> &Transaction
        ensures { result.now ≡ self.now.transaction }
    {
        &self.transaction
    }

    /// The reply that is kept.
    pub fn kept(&self) -> Option<&KeptReply>
        ensures { option_copied result ≡ self.now.kept }
    {
        self.kept.as_ref()
    }

    // ---- sending

    /// The octets of what is wanted, as it is made now; nothing where nothing is wanted. Once they are on their way,
    /// `sent` is told.
    pub fn octets_to_send(&self, alloc: Global, made: &Made) -> Result<Option<Vec<u8>>, AllocError>
        ensures { IfOk result (λ octets. items_or_none octets ≡ octets_to_send made.now self.now) }
    {
        match self.transaction.try_to_send(made) {
            None => Ok(None),
            Some(tried) => {
                let octets = self.message.octets(alloc, &tried.form)?;
                Ok(Some(octets))
            }
        }
    }

    /// What was wanted is sent so.
    pub fn sent(&mut self, made: &Made)
        ensures { self.new ≡ sent_by made.now self.old }
    {
        self.transaction.sent(made);
    }

    /// There is no channel for what is wanted: it waits for one up to a moment.
    pub fn unsent(&mut self, due: u64)
        ensures { self.new ≡ changed (unsent due) self.old }
    {
        self.transaction.unsent(due);
    }

    /// Begins a round in this order, where one is to begin.
    pub fn begin_round(&mut self, order: Vec<usize>)
        ensures { self.new ≡ changed (with_round order.items) self.old }
    {
        self.transaction.begin_round(order);
    }

    // ---- what came

    /// Octets came on a channel, with this number in their header. Tells what they were. A refused call changes
    /// nothing: what could not be read may come again, or time out.
    pub fn came(
        &mut self,
        alloc: Global,
        channel: u64,
        id: u16,
        octets: &[u8],
    ) -> Result<Heard, AllocError>
        ensures meaning { IfOk result (λ heard. heard ≡ meaning channel id octets.now self.old) }
        ensures ok { OnOk result (self.new ≡ heard channel id octets.now self.old) }
        ensures err { OnErr result (self.new ≡ self.old) }
    {
        match self.transaction.try_at(channel, id) {
            None => Ok(Heard::Nothing),
            Some(tried) => self.came_to(alloc, channel, id, &tried, octets),
        }
    }

    fn came_to(
        &mut self,
        alloc: Global,
        channel: u64,
        id: u16,
        tried: &Try,
        octets: &[u8],
    ) -> Result<Heard, AllocError>
        ensures meaning { IfOk result (λ heard. heard ≡ meaning_to octets.now self.old tried.now) }
        ensures ok { OnOk result (self.new ≡ heard_by channel id octets.now self.old tried.now) }
        ensures err { OnErr result (self.new ≡ self.old) }
    {
        match judge(&self.message, &tried.form, octets) {
            Belief::Believed => self.believe(alloc, channel, id, tried, octets),
            Belief::OtherLetters => {
                self.transaction.other_letters_came(channel, id)?;
                Ok(Heard::OtherLetters)
            }
            Belief::OptRefused => {
                self.transaction.opt_was_refused(channel, id)?;
                Ok(Heard::OptRefused)
            }
            Belief::NotBelieved => Ok(Heard::Nothing),
        }
    }

    // A reply is believed: it is read, and told to the transaction.
    fn believe(
        &mut self,
        alloc: Global,
        channel: u64,
        id: u16,
        tried: &Try,
        octets: &[u8],
    ) -> Result<Heard, AllocError>
        ensures meaning { IfOk result (λ heard. heard
            ≡ meaning_as Belief.Believed self.old.question tried.now.form octets.now) }
        ensures ok { OnOk result (self.new ≡ replied channel id tried.now octets.now self.old) }
        ensures err { OnErr result (self.new ≡ self.old) }
    {
        let number = self.replies;
        let mut kept = None;
        let outcome = read_kept(alloc, &self.message, &tried.form, octets, number, &mut kept)?;
        self.settle(channel, id, outcome, &mut kept)
    }

    // Tells the transaction what a reply comes to, and takes the reply where it is named then.
    fn settle(
        &mut self,
        channel: u64,
        id: u16,
        outcome: ReplyOutcome,
        kept: &mut Option<KeptReply>,
    ) -> Result<Heard, AllocError>
        ensures meaning { IfOk result (λ heard. heard ≡ Heard.Reply outcome) }
        ensures ok { OnOk result (self.new ≡ settled channel id outcome kept.old self.old) }
        ensures err { OnErr result (self.new ≡ self.old) }
    {
        let Some(replies) = self.replies.checked_add(1) else {
            return Err(AllocError);
        };
        self.transaction.came(channel, id, outcome, self.replies)?;
        if is_named(&self.transaction, self.replies) {
            self.kept = kept.take();
        }
        self.replies = replies;
        Ok(Heard::Reply(outcome))
    }

    // ---- what failed, and time

    /// A channel failed, or a stream was closed. A refused call changes nothing.
    pub fn failed(&mut self, channel: u64) -> Result<(), AllocError>
        ensures ok { OnOk result (self.new ≡ changed (failed channel) self.old) }
        ensures err { OnErr result (self.new ≡ self.old) }
    {
        self.transaction.failed(channel)?;
        Ok(())
    }

    /// There was no channel: what was to be sent on this one is not sent, and waits.
    pub fn blocked(&mut self, channel: u64)
        ensures { self.new ≡ changed (blocked channel) self.old }
    {
        self.transaction.blocked(channel);
    }

    /// A channel was closed: the first that waits for one is sent.
    pub fn freed(&mut self)
        ensures { self.new ≡ changed freed self.old }
    {
        self.transaction.freed();
    }

    /// The oldest late try is given up, where there is one.
    pub fn give_up_oldest(&mut self)
        ensures { self.new ≡ changed without_oldest self.old }
    {
        self.transaction.give_up_oldest();
    }

    /// Time passed: the first that was due by now is not waited for any more. A refused call changes nothing.
    pub fn expired(&mut self, now: u64) -> Result<(), AllocError>
        ensures ok { OnOk result (self.new ≡ changed (expired now) self.old) }
        ensures err { OnErr result (self.new ≡ self.old) }
    {
        self.transaction.expired(now)?;
        Ok(())
    }
}

// Reads a believed reply, and what it comes to. After a refused call what was to be kept is not told.
fn read_kept(
    alloc: Global,
    message: &TryMessage,
    form: &TryForm,
    octets: &[u8],
    number: u64,
    kept: &mut Option<KeptReply>,
) -> Result<ReplyOutcome, AllocError>
    ensures outcome { IfOk result (λ outcome. outcome ≡ outcome_of message.now form.now octets.now) }
    ensures kept { OnOk result (kept.new ≡ Some (record {
      number = number;
      octets = octets.now;
      message = message_if (is_truncated (head_of octets.now)) message.now.query.name (message_of octets.now);
    })) }
{
    let copy = Vec::from_slice(alloc, octets)?;
    let reply = read_reply(alloc, message, form, octets)?;
    let outcome = reply.outcome;
    *kept = Some(KeptReply {
        number,
        octets: copy,
        message: reply.message,
    });
    Ok(outcome)
}

fn is_named(transaction: &Transaction, number: u64) -> bool
    ensures { result ≡ names number transaction.now }
{
    match transaction.named() {
        Some(named) => named == number,
        None => false,
    }
}
