//! What is to be done next with the transaction that is worked on.
ghost use Rattle.std.specs.Prelude.{◌≡◌, position};
ghost use Rattle.std.specs.Option.{option_map_or};
ghost use Rattle.hickory_resolver_channels.specs.Channels.{has_place};
ghost use Rattle.hickory_resolver_steps.specs.Ending.{is_done, first_done};
ghost use Rattle.hickory_resolver_traffic.specs.Inbox.{first_failure};
ghost use Rattle.hickory_resolver_traffic.specs.Doing.{same_moment, is_empty, is_ending, at_rest, sends_or_blocks, round_or_place, forward, is_due, runs_out, going_on, by_failure, doing_for, doing};

use crate::entry::{Current, Entry, ToDo};
use crate::inbox::Failure;
use crate::traffic::Traffic;
use hickory_resolver_steps::{Flying, SentTry};
use hickory_resolver_transactions::Transaction;

/// What is to be done with the transaction that is worked on.
#[derive(Clone, Copy, Debug, PartialEq, Eq)]
pub enum Doing {
    /// It hears the first message.
    Hears,
    /// Nothing of that message was heard.
    Doubts,
    /// The channel that failed could not be opened: its try waits for one.
    Stalls,
    /// A channel failed.
    Fails,
    /// Its try leaves that channel.
    Quits,
    /// It goes back to those that are ready.
    PutsBack,
    /// Its deadline has come.
    Expires,
    /// A channel is free.
    Frees,
    /// It has waited for a place for too long: it is over.
    Refused,
    /// The try of this place leaves its channel.
    Leaves(usize),
    /// It is over.
    Ends,
    /// A place is drawn from which its rounds go in turn.
    Draws,
    /// A round begins, which goes in turn from this place.
    BeginsRound(usize),
    /// There is no channel for what it wants: the oldest of its late tries is given up.
    GivesUp,
    /// It is noted that it waits for a channel.
    Blocks,
    /// What it wants is sent.
    Sends,
    /// It is noted up to when it waits.
    Dates(Option<u64>),
    /// It waits.
    Rests,
}

fn same_moment(one: Option<u64>, other: Option<u64>) -> bool
    ensures { result ≡ same_moment one other }
{
    match (one, other) {
        (None, None) => true,
        (Some(one), Some(other)) => one == other,
        _ => false,
    }
}

fn is_done(transaction: &Transaction, one: &SentTry) -> bool
    ensures { result ≡ is_done transaction.now one.now }
{
    transaction.try_at(one.channel, one.id).is_none()
}

// The place of the first try that nothing waits for.
fn first_done(flying: &Flying) -> Option<usize>
    ensures { result ≡ first_done flying.now }
{
    place_done(flying.flight.transaction(), &flying.tries)
}

fn place_done(transaction: &Transaction, tries: &[SentTry]) -> Option<usize>
    ensures { result ≡ position (is_done transaction.now) tries.now }
{
    tries.iter().position(|one| is_done(transaction, one))
}

fn no_tries(tries: &[SentTry]) -> bool
    ensures { result ≡ is_empty tries.now }
{
    tries.is_empty()
}

fn by_failure(why: Failure) -> Doing
    ensures { result ≡ by_failure why }
{
    match why {
        Failure::Local => Doing::Stalls,
        _ => Doing::Fails,
    }
}

impl Entry {
    // It waits, and it is noted up to when.
    fn at_rest(&self) -> Doing
        ensures { result ≡ at_rest self.now }
    {
        let due = self.parts.flying.flight.transaction().next_deadline();
        if same_moment(due, self.parts.due) {
            Doing::Rests
        } else {
            Doing::Dates(due)
        }
    }

    fn round_or_place(&self) -> Doing
        ensures { result ≡ round_or_place self.now }
    {
        match self.parts.place {
            Some(place) => Doing::BeginsRound(place),
            None => Doing::Draws,
        }
    }
}

impl Traffic {
    // Whether a transaction came to something, or nobody asks for it any more.
    fn is_ending(&self, number: u64, flying: &Flying) -> bool
        ensures { result ≡ is_ending number flying.now self.now }
    {
        flying.flight.transaction().outcome().is_some() || self.askers.askers(number).is_none()
    }

    // Whether there may be a channel more.
    pub(crate) fn has_place(&self) -> bool
        ensures { result ≡ has_place self.now.shared.channels }
    {
        self.shared.channels.number_given().is_some()
    }

    fn sends_or_blocks(&self, number: u64, transaction: &Transaction) -> Doing
        ensures { result ≡ sends_or_blocks number transaction.now self.now }
    {
        if self.has_place() {
            Doing::Sends
        } else if transaction.has_late() {
            Doing::GivesUp
        } else if self.table.is_blocked(number) {
            Doing::Sends
        } else {
            Doing::Blocks
        }
    }

    fn forward(&self, number: u64, entry: &Entry) -> Doing
        ensures { result ≡ forward number entry.now self.now }
    {
        let transaction = entry.parts.flying.flight.transaction();
        if transaction.wants_round() {
            entry.round_or_place()
        } else if transaction.wanted().is_some() {
            self.sends_or_blocks(number, transaction)
        } else {
            entry.at_rest()
        }
    }

    // Whether a deadline of it has come.
    fn is_due(&self, entry: &Entry) -> bool
        ensures { result ≡ is_due entry.now self.now }
    {
        match entry.parts.flying.flight.transaction().next_deadline() {
            Some(due) => due <= self.clock,
            None => false,
        }
    }

    // What came is read first.
    fn runs_out(&self, entry: &Entry) -> bool
        ensures { result ≡ runs_out entry.now self.now }
    {
        self.inbox.is_read() && self.is_due(entry)
    }

    fn going_on(&self, number: u64, entry: &Entry) -> Doing
        ensures { result ≡ going_on number entry.now self.now }
    {
        if self.is_ending(number, &entry.parts.flying) {
            return if no_tries(&entry.parts.flying.tries) {
                Doing::Ends
            } else {
                Doing::Leaves(0)
            };
        }
        if self.runs_out(entry) {
            return Doing::Expires;
        }
        match first_done(&entry.parts.flying) {
            Some(place) => Doing::Leaves(place),
            None => self.forward(number, entry),
        }
    }

    /// What is to be done next with the transaction that is worked on.
    pub fn doing(&self, current: &Current) -> Doing
        ensures { result ≡ doing current.now self.now }
    {
        match current.to_do {
            ToDo::GoOn => self.going_on(current.number, &current.entry),
            ToDo::Hear => Doing::Hears,
            ToDo::Doubt => Doing::Doubts,
            ToDo::Fail => self.failing(),
            ToDo::Quit => Doing::Quits,
            ToDo::PutBack => Doing::PutsBack,
            ToDo::Expire => Doing::Expires,
            ToDo::Free => Doing::Frees,
            ToDo::Refuse => Doing::Refused,
        }
    }

    fn failing(&self) -> Doing
        ensures { result ≡ option_map_or (λ f. by_failure f.why) (first_failure self.now.inbox) Doing.PutsBack }
    {
        match self.inbox.first_failure() {
            Some(failure) => by_failure(failure.why),
            None => Doing::PutsBack,
        }
    }
}
