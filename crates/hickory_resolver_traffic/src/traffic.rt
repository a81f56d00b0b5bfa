//! What is on its way, and what each event does with it.
ghost use Rattle.std.specs.Prelude.{◌≡◌, ◌++◌, ◌∷◌, [], max, None, Some, IfOk, OnOk, OnErr};
ghost use Rattle.std.specs.Option.{option_map_or};
ghost use Rattle.hickory_resolver_askers.specs.Askers.{asker_given, joiner, left_of, place_for};
ghost use Rattle.hickory_resolver_askers.specs.Askers as asking;
ghost use Rattle.hickory_resolver_traffic.specs.Traffic.{taken_in};
ghost use Rattle.hickory_resolver_traffic.specs.Table.{with_entry, has_entry};
ghost use Rattle.hickory_resolver_traffic.specs.Traffic.{no_traffic, ticked, with_group, joined, entry_of, ready_in, until_of, begun_as, begun_with, begun, begun_asker, came_on, came, failed, ready_after, forgotten};

use crate::acting::{Moment, later};
use crate::entry::{Entry, EntryParts};
use crate::groups::{GroupList, Groups, Sources};
use crate::inbox::{ChannelFailure, Inbox};
use crate::table::Table;
use hickory_resolver_askers::{Asker, AskerLimits, Askers, Forgotten, Place};
use hickory_resolver_channels::{ChannelKind, ChannelLimits, Channels, Draws};
use hickory_resolver_config::ServerOrderingStrategy;
use hickory_resolver_flights::Flight;
use hickory_resolver_servers::Servers;
use hickory_resolver_steps::{Flying, Sending, Shared};
use hickory_resolver_transactions::Settings;
use hickory_resolver_tries::{PoolQuestion, TryMessage};
use std::alloc::{AllocError, Global};
use std::collections::VecDeque;
use std::marker::Model;

/// What the options say of all transactions.
#[derive(Clone, Copy, Debug, PartialEq, Eq)]
pub struct Rules {
    /// For how many milliseconds something is waited for.
    pub timeout: u64,
    /// In which order a round tries servers.
    pub strategy: ServerOrderingStrategy,
}

/// How much there may be.
#[derive(Clone, Copy, Debug, PartialEq, Eq)]
pub struct TrafficLimits {
    /// Of channels, and of tries on a stream.
    pub channels: ChannelLimits,
    /// Of transactions.
    pub askers: AskerLimits,
}

/// What goes out next.
#[derive(Drop)]
pub struct Outgoing {
    /// The number of the list of its server.
    pub list: u64,
    /// What is sent.
    pub sending: Sending,
}

impl Model for Outgoing {
    ghost use Rattle.hickory_resolver_traffic.specs.Traffic.{OutgoingValue};

    ghost Value = { OutgoingValue };

    ghost view = { λ o. record { list = o.list; sending = o.sending } };
}

/// What is on its way, but for the transaction that is worked on. An event takes in what came; what follows of it is
/// done in steps.
#[derive(Drop)]
pub struct Traffic {
    pub(crate) alloc: Global,
    pub(crate) rules: Rules,
    pub(crate) clock: u64,
    pub(crate) shared: Shared,
    pub(crate) askers: Askers,
    pub(crate) groups: Groups,
    pub(crate) table: Table,
    pub(crate) inbox: Inbox,
    pub(crate) ready: VecDeque<u64>,
    pub(crate) outgoing: Option<Outgoing>,
    pub(crate) freed: u64,
}

impl Model for Traffic {
    ghost use Rattle.hickory_resolver_traffic.specs.Traffic.{TrafficState};

    ghost Value = { TrafficState };

    ghost view = { λ t. record {
      rules = t.rules;
      clock = t.clock;
      shared = t.shared;
      askers = t.askers;
      groups = t.groups;
      table = t.table;
      inbox = t.inbox;
      ready = t.ready.items;
      outgoing = t.outgoing;
      freed = t.freed;
    } };
}

impl Traffic {
    /// Nothing is on its way.
    pub fn new(alloc: Global, rules: Rules, limits: TrafficLimits, seed: [u8; 32]) -> Traffic
        ensures { result ≡ no_traffic rules limits seed }
    {
        Traffic {
            alloc,
            rules,
            clock: 0,
            shared: Shared {
                channels: Channels::new(alloc, limits.channels),
                draws: Draws::new(seed),
            },
            askers: Askers::new(alloc, limits.askers),
            groups: Groups::new(alloc),
            table: Table::new(alloc),
            inbox: Inbox::new(alloc),
            ready: VecDeque::new(alloc),
            outgoing: None,
            freed: 0,
        }
    }

    /// The server lists of groups.
    pub fn groups(&self) -> &Groups
        ensures { result.now ≡ self.now.groups }
    {
        &self.groups
    }

    /// Who asks.
    pub fn askers(&self) -> &Askers
        ensures { result.now ≡ self.now.askers }
    {
        &self.askers
    }

    pub(crate) fn moment(&self) -> Moment
        ensures { result ≡ record { clock = self.now.clock; timeout = self.now.rules.timeout } }
    {
        Moment {
            clock: self.clock,
            timeout: self.rules.timeout,
        }
    }

    // ---- events

    /// Time passed: it is this moment, or a later one where one was told.
    pub fn tick(&mut self, now: u64)
        ensures { self.new ≡ ticked now self.old }
    {
        self.clock = self.clock.max(now);
    }

    /// A group has these servers from now on. A refused call changes nothing.
    pub fn set_servers(
        &mut self,
        group: u64,
        servers: Servers,
        sources: Vec<Sources>,
    ) -> Result<(), AllocError>
        ensures ok { OnOk result (self.new ≡ with_group group servers sources.items self.old) }
        ensures err { OnErr result (self.new ≡ self.old) }
    {
        self.groups.set(self.alloc, group, servers, sources)
    }

    /// One asks what is asked already, and is answered its number, where there is such a transaction. A refused call
    /// changes nothing.
    pub fn join(&mut self, number: u64, now: u64) -> Result<Option<Asker>, AllocError>
        ensures told { IfOk result (λ asker. asker ≡ joiner number self.old.askers) }
        ensures ok { OnOk result (self.new ≡ joined number now self.old) }
        ensures err { OnErr result (self.new ≡ self.old) }
    {
        match self.askers.join(number)? {
            Some(asker) => {
                self.tick(now);
                Ok(Some(asker))
            }
            None => Ok(None),
        }
    }

    // Up to when a transaction waits for a place.
    fn until(&self, now: u64) -> u64
        ensures { result ≡ until_of now self.now }
    {
        later(self.clock.max(now), self.rules.timeout)
    }

    /// One asks what nobody asks of the servers of a list, and is answered its number, where there is place and such a
    /// list. A refused call changes nothing.
    pub fn begin(
        &mut self,
        list: u64,
        question: PoolQuestion,
        message: TryMessage,
        settings: Settings,
        now: u64,
    ) -> Result<Option<Asker>, AllocError>
        requires { question ≡ message }
        ensures told { IfOk result (λ asker. asker ≡ begun_asker list self.old) }
        ensures ok { OnOk result (self.new ≡ begun list question settings now self.old) }
        ensures err { OnErr result (self.new ≡ self.old) }
    {
        let Some(held) = self.groups.list(list) else {
            self.tick(now);
            return Ok(None);
        };
        let entry = Entry::new(self.alloc, list, question, message, settings, held)?;
        self.begin_entry(list, entry, now)
    }

    fn begin_entry(
        &mut self,
        list: u64,
        entry: Entry,
        now: u64,
    ) -> Result<Option<Asker>, AllocError>
        ensures told { IfOk result (λ asker. asker ≡ asker_given self.old.askers) }
        ensures ok { OnOk result (self.new ≡ begun_as (place_for self.old.askers) entry list now self.old) }
        ensures err { OnErr result (self.new ≡ self.old) }
    {
        let place = self.askers.place();
        if place == Place::Overloaded {
            self.tick(now);
            return Ok(None);
        }
        let until = self.until(now);
        let number = self.askers.next_transaction();
        self.ready.reserve(1)?;
        let asker = insert_begun(
            &mut self.askers,
            &mut self.table,
            self.alloc,
            number,
            entry,
            until,
        )?;
        self.groups.begin(list);
        if place == Place::InFlight {
            self.ready.push_back_reserved(number);
        }
        self.tick(now);
        Ok(asker)
    }

    /// Octets came on a channel. Where it is not open nothing of them is kept. A refused call changes nothing.
    pub fn came(&mut self, channel: u64, octets: &[u8], now: u64) -> Result<(), AllocError>
        ensures ok { OnOk result (self.new ≡ came channel octets.now now self.old) }
        ensures err { OnErr result (self.new ≡ self.old) }
    {
        if let Some(held) = self.shared.channels.channel(channel) {
            take_in(&mut self.inbox, held.kind, channel, octets)?;
        }
        self.tick(now);
        Ok(())
    }

    /// A channel failed. Where it is not open nothing of that is kept. A refused call changes nothing.
    pub fn fail(&mut self, failure: ChannelFailure, now: u64) -> Result<(), AllocError>
        ensures ok { OnOk result (self.new ≡ failed failure now self.old) }
        ensures err { OnErr result (self.new ≡ self.old) }
    {
        if self.shared.channels.channel(failure.channel).is_some() {
            self.inbox.push_failure(failure)?;
        }
        self.tick(now);
        Ok(())
    }

    /// Forgets an asker, and tells whether others ask the same still. A refused call changes nothing.
    pub fn forget(&mut self, asker: &Asker) -> Result<Forgotten, AllocError>
        ensures told { IfOk result (λ left. left ≡ left_of asker.now self.old.askers) }
        ensures ok { OnOk result (self.new ≡ forgotten asker.now self.old) }
        ensures err { OnErr result (self.new ≡ self.old) }
    {
        self.ready.reserve(1)?;
        let left = self.askers.forget(asker);
        if left == Forgotten::Last {
            self.ready.push_back_reserved(asker.transaction);
        }
        Ok(left)
    }
}

impl Entry {
    // A question to these servers, for which nothing was sent.
    fn new(
        alloc: Global,
        list: u64,
        question: PoolQuestion,
        message: TryMessage,
        settings: Settings,
        held: &GroupList,
    ) -> Result<Entry, AllocError>
        requires { question ≡ message }
        ensures { IfOk result (λ e. e ≡ entry_of list question settings held.now) }
    {
        let flight = Flight::new(alloc, settings, held.servers.servers(), message)?;
        let parts = EntryParts {
            asked: (list, question),
            flying: Flying {
                flight,
                tries: Vec::new(alloc),
            },
            place: None,
            due: None,
        };
        Ok(Entry {
            parts: Box::new(alloc, parts)?,
        })
    }
}

fn take_in(
    inbox: &mut Inbox,
    kind: ChannelKind,
    channel: u64,
    octets: &[u8],
) -> Result<(), AllocError>
    ensures ok { OnOk result (inbox.new ≡ taken_in kind channel octets.now inbox.old) }
    ensures err { OnErr result (inbox.new ≡ inbox.old) }
{
    match kind {
        ChannelKind::Datagram => inbox.push_message(channel, octets),
        ChannelKind::Stream => inbox.push_piece(channel, octets),
    }
}

// Adds a transaction, as the one that begins next. Where there is one of this number already, memory is refused: a new
// one has none.
fn insert_begun(
    askers: &mut Askers,
    table: &mut Table,
    alloc: Global,
    number: u64,
    entry: Entry,
    until: u64,
) -> Result<Option<Asker>, AllocError>
    ensures told { IfOk result (λ asker. asker ≡ asker_given askers.old) }
    ensures askers { OnOk result (askers.new ≡ asking.begun until askers.old) }
    ensures table { OnOk result (table.new ≡ with_entry number entry table.old) }
    ensures err { OnErr result (askers.new ≡ askers.old) }
    ensures unlisted { OnErr result (table.new ≡ table.old) }
{
    if table.has_entry(number) {
        return Err(AllocError);
    }
    insert_entry(table, number, entry)?;
    match askers.begin(alloc, until) {
        Ok(asker) => Ok(asker),
        Err(AllocError) => {
            drop(table.take(number));
            Err(AllocError)
        }
    }
}

fn insert_entry(table: &mut Table, number: u64, entry: Entry) -> Result<(), AllocError>
    ensures ok { OnOk result (table.new ≡ with_entry number entry table.old) }
    ensures err { OnErr result (table.new ≡ table.old) }
{
    match table.insert(number, entry) {
        Ok(()) => Ok(()),
        Err(_) => Err(AllocError),
    }
}
