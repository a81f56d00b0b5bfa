//! A pool of name servers.
ghost use Rattle.std.specs.Prelude.{◌≡◌, ◌<◌, None, Some, Err, IfOk, OnOk, OnErr, IsOkUnless};
ghost use Rattle.indexmap.specs.IndexMap.{spare};
ghost use Rattle.indexmap.specs.IndexMap as index;
ghost use Rattle.hickory_proto_core.specs.Errors.{items_or_none};
ghost use Rattle.hickory_proto_wire.specs.Refused.{Refuses, name_fault};
ghost use Rattle.hickory_resolver_askers.specs.Askers.{left_of, askers_of};
ghost use Rattle.hickory_resolver_tries.specs.Question.{question_of};
ghost use Rattle.hickory_resolver_traffic.specs.Doing.{closed_by};
ghost use Rattle.hickory_resolver_traffic.specs.Tasks.{next_deadline};
ghost use Rattle.hickory_resolver_traffic.specs.Table.{CurrentState};
ghost use Rattle.hickory_resolver_traffic.specs.Traffic as in_traffic;
ghost use Rattle.hickory_resolver_pool.specs.Servers.{first_fixed};
ghost use Rattle.hickory_resolver_pool.specs.Pool.{settings_for, no_servers, after_tick, after_servers, after_octets, after_failure, after_forgetting, list_of, number_of, joiner_of, after_joining, after_beginning, asked_by, ask_of, asked_of, fault_of, after_asking, asking_told, asking_fault, Starts, Steps, StepsWith, Carries, IsDoneTo, close_or_continue, put_away, put_off, let_go, let_go_action, is_end, is_put, put_by, over_or_continue, told_outcome, outcome_in, asked_eq, is_its_own, without_question, if_servers};

use crate::limits::{PoolLimits, limits_of, rules_of};
use crate::over::{Over, PoolOutcome, told_as};
use crate::servers::{PoolServer, ServersError, all_sources, first_fixed, servers_of};
use hickory_proto_core::{DnsRequestOptions, Query};
use hickory_proto_wire::ToWireError;
use hickory_resolver_askers::{Asker, Forgotten};
use hickory_resolver_config::ResolverOpts;
use hickory_resolver_traffic::{
    ChannelFailure, Current, Did, Doing, Entry, Failure, Opening, Sent, Traffic,
};
use hickory_resolver_transactions::{Outcome, Settings};
use hickory_resolver_tries::{DnssecOptions, PoolQuestion, TryMessage};
use indexmap::IndexMap;
use std::alloc::{AllocError, Global};
use std::hash::BuildHasher;
use std::marker::Model;

/// What became of a question that is asked.
#[derive(Clone, Copy, Debug, PartialEq, Eq)]
pub enum Asked {
    /// It is on its way, or waits for a place: this is who asks.
    Asker(Asker),
    /// There is no place for it.
    Overloaded,
    /// The group has no server: it is unreachable.
    NoServers,
}

/// What a program has to do next.
#[derive(Drop)]
pub enum Action {
    /// It opens a channel.
    Open(Opening),
    /// It writes octets on a channel.
    Send(Sent),
    /// It closes a channel. Each that was opened is closed once, also one that failed.
    Close(u64),
    /// A transaction is over, for these askers.
    Over(Over),
    /// Nothing: something was done of which it has no part.
    Continue,
}

/// Transactions by what is asked of the servers of a list.
pub type Questions<S> = IndexMap<(u64, PoolQuestion), u64, S>;

/// A pool of name servers. Events take in what came, and `next_action` does what follows of it, one step a call: after
/// each event, and before the next, it is called until it answers `None`. Moments are milliseconds of one clock. All of it
/// is a function of the seed and the events; the hasher decides nothing that is seen.
#[derive(Drop)]
pub struct NameServerPool<S: BuildHasher> {
    alloc: Global,
    options: ResolverOpts,
    questions: Questions<S>,
    traffic: Traffic,
    current: Option<Current>,
}

impl<S: BuildHasher> Model for NameServerPool<S> {
    ghost use Rattle.hickory_resolver_pool.specs.Pool.{PoolState};

    ghost Value = { PoolState };

    ghost view = { λ p. record {
      options = p.options;
      questions = p.questions.entries;
      traffic = p.traffic;
      current = p.current;
    } };
}

impl<S: BuildHasher> NameServerPool<S> {
    /// No group has servers yet. The seed is 32 octets that nobody knows; a child of `fork`, or a copied machine,
    /// begins anew with another one. The hasher is for names that come from strangers.
    pub fn new(
        alloc: Global,
        options: ResolverOpts,
        limits: PoolLimits,
        seed: [u8; 32],
        hasher: S,
    ) -> NameServerPool<S>
        ensures { result ≡ no_servers options limits seed }
    {
        let rules = rules_of(&options);
        let limits = limits_of(&limits, &options);
        NameServerPool {
            alloc,
            options,
            questions: IndexMap::with_hasher(alloc, hasher),
            traffic: Traffic::new(alloc, rules, limits, seed),
            current: None,
        }
    }

    /// The options. Who opens a datagram channel reads there which local ports are avoided, and who chooses them.
    pub fn options(&self) -> &ResolverOpts
        ensures { result.now ≡ self.now.options }
    {
        &self.options
    }

    // ---- events

    /// A group has these servers from now on, of which nothing is known yet. What is in flight goes on with those
    /// that it began with. A refused call changes nothing.
    pub fn set_servers(&mut self, group: u64, servers: &[PoolServer]) -> Result<(), ServersError>
        ensures ok { OnOk result (self.new ≡ after_servers group servers.now self.old) }
        ensures err { OnErr result (self.new ≡ self.old) }
        ensures fixed { (place : _) → first_fixed servers.now ≡ Some place
            → result ≡ Err (ServersError.FixedPort place) }
        ensures free { first_fixed servers.now ≡ None → IsOkUnless result ServersError.OutOfMemory }
    {
        if let Some(place) = first_fixed(servers) {
            return Err(ServersError::FixedPort(place));
        }
        let sources = all_sources(self.alloc, servers)?;
        let servers = servers_of(self.alloc, servers)?;
        self.traffic.set_servers(group, servers, sources)?;
        Ok(())
    }

    // The number of the list of a group, where it has servers.
    fn list_of(&self, group: u64) -> Option<u64>
        ensures { result ≡ list_of group self.now.traffic }
    {
        match self.traffic.groups().current(group) {
            Some(number) => self.if_servers(number),
            None => None,
        }
    }

    fn if_servers(&self, number: u64) -> Option<u64>
        ensures { result ≡ if_servers self.now.traffic number }
    {
        match self.traffic.groups().list(number) {
            Some(list) if !list.servers.servers().is_empty() => Some(number),
            _ => None,
        }
    }

    /// One asks a question of the servers of a group. Where an equal one is on its way, it is joined, with the letters
    /// of the name as the first asker spelled and varied them.
    ///
    /// # Errors
    /// `RelativeName` where the name is relative, and `OutOfMemory`. A refused call changes nothing.
    pub fn ask(
        &mut self,
        group: u64,
        query: Query,
        options: DnsRequestOptions,
        dnssec: DnssecOptions,
        now: u64,
    ) -> Result<Asked, ToWireError>
        ensures told { IfOk result (λ told. told
            ≡ asking_told (list_of group self.old.traffic) (question_of query options dnssec) self.old) }
        ensures ok { OnOk result (self.new ≡ after_asking (list_of group self.old.traffic)
            (question_of query options dnssec) (settings_for self.old.options options) now self.old) }
        ensures refused { Refuses result
            (asking_fault (list_of group self.old.traffic) (question_of query options dnssec) self.old) }
        ensures err { OnErr result (self.new ≡ self.old) }
    {
        let Some(list) = self.list_of(group) else {
            self.traffic.tick(now);
            return Ok(Asked::NoServers);
        };
        let settings = self.settings(&options);
        let asked = (list, PoolQuestion::new(query, options, dnssec));
        self.ask_of(asked, settings, now)
    }

    // The same of the servers of a list.
    fn ask_of(
        &mut self,
        asked: (u64, PoolQuestion),
        settings: Settings,
        now: u64,
    ) -> Result<Asked, ToWireError>
        ensures told { IfOk result (λ told. told ≡ asked_of asked self.old) }
        ensures ok { OnOk result (self.new ≡ ask_of asked settings now self.old) }
        ensures refused { Refuses result (fault_of (joiner_of asked self.old) asked) }
        ensures err { OnErr result (self.new ≡ self.old) }
    {
        match self.join(&asked, now)? {
            Some(asker) => Ok(Asked::Asker(asker)),
            None => self.begin(asked, settings, now),
        }
    }

    // What the options say to a transaction; whether letters are varied is said with the question.
    fn settings(&self, options: &DnsRequestOptions) -> Settings
        ensures { result ≡ settings_for self.now.options options.now }
    {
        let mut settings = Settings::new(&self.options);
        settings.varies_letters = options.case_randomization;
        settings
    }

    // One more asks what is on its way.
    fn join(&mut self, asked: &(u64, PoolQuestion), now: u64) -> Result<Option<Asker>, AllocError>
        ensures told { IfOk result (λ asker. asker ≡ joiner_of asked.now self.old) }
        ensures ok { OnOk result (self.new ≡ after_joining asked.now now self.old) }
        ensures err { OnErr result (self.new ≡ self.old) }
    {
        match number_of(&self.questions, asked) {
            Some(number) => self.traffic.join(number, now),
            None => Ok(None),
        }
    }

    fn begin(
        &mut self,
        asked: (u64, PoolQuestion),
        settings: Settings,
        now: u64,
    ) -> Result<Asked, ToWireError>
        ensures told { IfOk result (λ told. told ≡ asked_by (in_traffic.begun_asker asked.0 self.old.traffic)) }
        ensures ok { OnOk result (self.new ≡ after_beginning asked settings now self.old) }
        ensures refused { Refuses result (name_fault asked.1.query.name) }
        ensures err { OnErr result (self.new ≡ self.old) }
    {
        let message = TryMessage::new(self.alloc, copy_of(&asked.1)?)?;
        let question = copy_of(&asked.1)?;
        self.questions.reserve(1)?;
        match self
            .traffic
            .begin(asked.0, question, message, settings, now)?
        {
            Some(asker) => {
                insert_reserved(&mut self.questions, asked, asker.transaction);
                Ok(Asked::Asker(asker))
            }
            None => Ok(Asked::Overloaded),
        }
    }

    /// Octets came on a channel: a datagram, or a piece of a stream, cut anywhere. On a channel that is not open they
    /// change nothing. A refused call changes nothing.
    pub fn came(&mut self, channel: u64, octets: &[u8], now: u64) -> Result<(), AllocError>
        ensures ok { OnOk result (self.new ≡ after_octets channel octets.now now self.old) }
        ensures err { OnErr result (self.new ≡ self.old) }
    {
        self.traffic.came(channel, octets, now)
    }

    /// A channel failed. A datagram channel is kept open after that until an action closes it, unless it could not be
    /// opened at all, since a message that says so is easily forged. A refused call changes nothing.
    pub fn failed(&mut self, channel: u64, why: Failure, now: u64) -> Result<(), AllocError>
        ensures ok { OnOk result (self.new ≡ after_failure (record { channel = channel; why = why }) now self.old) }
        ensures err { OnErr result (self.new ≡ self.old) }
    {
        self.traffic.fail(ChannelFailure { channel, why }, now)
    }

    /// Time passed. A moment before one that was told counts as that one.
    pub fn tick(&mut self, now: u64)
        ensures { self.new ≡ after_tick now self.old }
    {
        self.traffic.tick(now);
    }

    /// An asker is told nothing any more. With the last one its transaction ends. A refused call changes nothing.
    pub fn forget(&mut self, asker: &Asker) -> Result<Forgotten, AllocError>
        ensures told { IfOk result (λ left. left ≡ left_of asker.now self.old.traffic.askers) }
        ensures ok { OnOk result (self.new ≡ after_forgetting asker.now self.old) }
        ensures err { OnErr result (self.new ≡ self.old) }
    {
        self.traffic.forget(asker)
    }

    /// The earliest moment at which time ends something, where nothing is left to be done.
    pub fn next_deadline(&self) -> Option<u64>
        ensures { result ≡ next_deadline self.now.traffic }
    {
        self.traffic.next_deadline()
    }

    // ---- steps

    /// Does the next step, and answers what the program has to do for it; `None` where nothing is left to be done. Where
    /// memory is refused nothing changes, and it may be called again.
    pub fn next_action(&mut self) -> Result<Option<Action>, AllocError>
        ensures ok { IfOk result (λ action. Steps self.old action self.new) }
        ensures err { OnErr result (self.new ≡ self.old) }
    {
        if self.traffic.is_writing() {
            return self.start();
        }
        let doing = match &self.current {
            Some(current) => self.traffic.doing(current),
            None => return self.start(),
        };
        self.go_on(doing)
    }

    // Does this with the transaction that is worked on.
    fn go_on(&mut self, doing: Doing) -> Result<Option<Action>, AllocError>
        ensures ok { (c : CurrentState) → self.old.current ≡ Some c
            → IfOk result (λ action. StepsWith doing c self.old action self.new) }
        ensures err { OnErr result (self.new ≡ self.old) }
    {
        if is_end(doing) {
            self.end(doing)
        } else if is_put(doing) {
            self.put_back(doing)
        } else {
            self.carry_out(doing)
        }
    }

    fn start(&mut self) -> Result<Option<Action>, AllocError>
        ensures ok { IfOk result (λ action. Starts self.old action self.new) }
        ensures err { OnErr result (self.new ≡ self.old) }
    {
        match self.traffic.start()? {
            Did::Idle => Ok(None),
            Did::More => Ok(Some(Action::Continue)),
            Did::Opened(opening) => Ok(Some(Action::Open(opening))),
            Did::Written(sent) => Ok(Some(Action::Send(sent))),
            Did::Closed(channel) => Ok(Some(Action::Close(channel))),
            Did::TookUp(current) => {
                self.current = Some(current);
                Ok(Some(Action::Continue))
            }
        }
    }

    fn carry_out(&mut self, doing: Doing) -> Result<Option<Action>, AllocError>
        ensures ok { (c : CurrentState) → self.old.current ≡ Some c
            → IfOk result (λ action. Carries doing c self.old action self.new) }
        ensures err { OnErr result (self.new ≡ self.old) }
    {
        let closed = carry_out(&mut self.traffic, &mut self.current, doing)?;
        Ok(Some(close_or_continue(closed)))
    }

    // It waits, or goes on later. Where memory is refused it stays as it is.
    fn put_back(&mut self, doing: Doing) -> Result<Option<Action>, AllocError>
        ensures action { IfOk result (λ action. action ≡ Some Action.Continue) }
        ensures ok { (c : CurrentState) → self.old.current ≡ Some c → OnOk result (self.new ≡ put_by doing c self.old) }
        ensures err { OnErr result (self.new ≡ self.old) }
    {
        let Some(current) = self.current.take() else {
            return Ok(Some(Action::Continue));
        };
        let Current {
            number,
            to_do,
            entry,
        } = current;
        let result = match doing {
            Doing::PutsBack => self.traffic.put_back_ready(number, entry),
            _ => self.traffic.put_back(number, entry),
        };
        match result {
            Ok(()) => Ok(Some(Action::Continue)),
            Err(entry) => {
                self.current = Some(Current {
                    number,
                    to_do,
                    entry,
                });
                Err(AllocError)
            }
        }
    }

    // The numbers of those who ask.
    fn askers_of(&self, number: u64) -> Result<Option<Vec<u64>>, AllocError>
        ensures { IfOk result (λ v. items_or_none v ≡ askers_of number self.now.traffic.askers) }
    {
        match self.traffic.askers().askers(number) {
            Some(askers) => {
                let numbers = Vec::from_slice(self.alloc, askers.as_slice())?;
                Ok(Some(numbers))
            }
            None => Ok(None),
        }
    }

    // It is over. A refused call changes nothing.
    fn end(&mut self, doing: Doing) -> Result<Option<Action>, AllocError>
        ensures action { (c : CurrentState) → self.old.current ≡ Some c
            → IfOk result (λ action. action ≡ Some (let_go_action doing c self.old)) }
        ensures ok { (c : CurrentState) → self.old.current ≡ Some c → OnOk result (self.new ≡ let_go c self.old) }
        ensures err { OnErr result (self.new ≡ self.old) }
    {
        let number = match &self.current {
            Some(current) => current.number,
            None => return Ok(Some(Action::Continue)),
        };
        let askers = self.askers_of(number)?;
        match self.current.take() {
            Some(current) => Ok(Some(self.let_go(doing, current, askers))),
            None => Ok(Some(Action::Continue)),
        }
    }

    fn let_go(&mut self, doing: Doing, current: Current, askers: Option<Vec<u64>>) -> Action
        ensures action { result ≡ over_or_continue doing current (items_or_none askers) }
        ensures after { self.new ≡ record (let_go current self.old) { current = self.old.current } }
    {
        let Current { number, entry, .. } = current;
        self.traffic.end(number, &entry);
        remove_own(&mut self.questions, &entry.parts.asked, number);
        match askers {
            Some(askers) => Action::Over(Over {
                transaction: number,
                askers,
                outcome: outcome_in(doing, &entry),
                entry,
            }),
            None => Action::Continue,
        }
    }
}

// Does this with the transaction that is worked on, and answers the channel that is closed by it. A refused call
// changes nothing.
fn carry_out(
    traffic: &mut Traffic,
    current: &mut Option<Current>,
    doing: Doing,
) -> Result<Option<u64>, AllocError>
    ensures closed { (c : CurrentState) → current.old ≡ Some c
        → IfOk result (λ channel. channel ≡ closed_by doing (record { traffic = traffic.old; current = c })) }
    ensures done { (c : CurrentState) → current.old ≡ Some c
        → OnOk result (IsDoneTo doing (record { traffic = traffic.old; current = c }) traffic.new current.new) }
    ensures err { OnErr result (traffic.new ≡ traffic.old) }
    ensures unchanged { OnErr result (current.new ≡ current.old) }
{
    match current {
        Some(current) => traffic.carry_out(doing, current),
        None => Ok(None),
    }
}

fn close_or_continue(closed: Option<u64>) -> Action
    ensures { result ≡ close_or_continue closed }
{
    match closed {
        Some(channel) => Action::Close(channel),
        None => Action::Continue,
    }
}

fn is_end(doing: Doing) -> bool
    ensures { result ≡ is_end doing }
{
    match doing {
        Doing::Ends | Doing::Refused => true,
        _ => false,
    }
}

fn is_put(doing: Doing) -> bool
    ensures { result ≡ is_put doing }
{
    match doing {
        Doing::Rests | Doing::PutsBack => true,
        _ => false,
    }
}

fn outcome_in(doing: Doing, entry: &Entry) -> PoolOutcome
    ensures { result ≡ outcome_in doing entry.now }
{
    match doing {
        Doing::Refused => PoolOutcome::Overloaded,
        _ => told_outcome(entry.parts.flying.flight.transaction().outcome()),
    }
}

fn told_outcome(outcome: Option<Outcome>) -> PoolOutcome
    ensures { result ≡ told_outcome outcome }
{
    match outcome {
        Some(outcome) => told_as(outcome),
        None => PoolOutcome::Unreachable,
    }
}

// The same question.
fn copy_of(question: &PoolQuestion) -> Result<PoolQuestion, AllocError>
    ensures { IfOk result (λ q. q ≡ question.now) }
{
    Ok(PoolQuestion {
        query: Clone::clone(&question.query)?,
        recursion_desired: question.recursion_desired,
        checking_disabled: question.checking_disabled,
        authentic_data: question.authentic_data,
        opt: question.opt,
    })
}

// ---- the table of questions

fn number_of<S: BuildHasher>(questions: &Questions<S>, asked: &(u64, PoolQuestion)) -> Option<u64>
    ensures { result ≡ number_of asked.now questions.now.entries }
{
    questions.get(asked).copied()
}

// Puts a question in, for which there is room.
fn insert_reserved<S: BuildHasher>(
    questions: &mut Questions<S>,
    asked: (u64, PoolQuestion),
    number: u64,
)
    requires { 0 < spare questions.old }
    ensures { questions.new.entries ≡ index.insert_entry asked_eq questions.old.entries asked number }
{
    drop(questions.insert(asked, number));
}

// Takes a question out, where it is that of this transaction.
fn remove_own<S: BuildHasher>(
    questions: &mut Questions<S>,
    asked: &(u64, PoolQuestion),
    number: u64,
)
    ensures { questions.new.entries ≡ without_question asked.now number questions.old.entries }
{
    if is_its_own(number, number_of(questions, asked)) {
        questions.swap_remove(asked);
    }
}

fn is_its_own(number: u64, held: Option<u64>) -> bool
    ensures { result ≡ is_its_own number held }
{
    match held {
        Some(held) => held == number,
        None => false,
    }
}
