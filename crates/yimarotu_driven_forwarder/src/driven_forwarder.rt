//! A forwarder, with what the program has to do next.
ghost use Rattle.std.specs.Prelude.{◌≡◌, IfErr, IfOk, OnErr, OnOk, length, option_copied};
ghost use Rattle.hickory_resolver_pool.specs.Pool.{after_octets};
ghost use Rattle.second_chance_cache.specs.SecondChance.{all_weight};
ghost use Rattle.yimarotu_forwarder.specs.Flushing.{flushed};
ghost use Rattle.yimarotu_forwarder.specs.Forwarders.{at_moment, channel_failed, cleared, moment_passes, with_pool};
ghost use Rattle.yimarotu_forwarder.specs.Late.{deadline_of};
ghost use Rattle.yimarotu_forwarder.specs.Listing.{first_listed, listed_behind};
ghost use Rattle.yimarotu_driven_forwarder.specs.Driven.{Asks, Fetches, IsKept, IsOpened, StopsAsking, StopsFetching, gone, is_reply_left, is_reply_to, over_forwarder, sent_after, without_action, without_reply_to};
ghost use Rattle.yimarotu_driven_forwarder.specs.Reloading.{ReadsAnew, Reloads, Replaces, ReplacesOr, TakesLocal, turned_to};

use crate::hosts::read_local;
use crate::open_error::ForwarderOpenError;
use crate::opening::open_forwarder;
use crate::seeds::seeds_of;
use crate::servers::set_servers;
use crate::texts::{KeptTexts, Texts};
use forwarder_settings::{ForwarderSettings, read_forwarder_settings};
use hickory_proto_core::Name;
use hickory_resolver_pool::Failure;
use std::alloc::{AllocError, Global};
use std::hash::RandomState;
use std::marker::Model;
use thiserror::Error;
use yimarotu_forwarder::{
    Answered, CachedEntry, Client, Forwarder, ForwarderAction, ForwarderCounts, ForwarderOptions,
    LocalData,
};

/// A forwarder as a program drives it: what the program has to do next stays until it was told whole.
#[derive(Drop)]
pub struct DrivenForwarder {
    forwarder: Forwarder,
    action: Option<ForwarderAction>,
    sent: u64,
    texts: KeptTexts,
    hasher: RandomState,
}

impl Model for DrivenForwarder {
    ghost use Rattle.yimarotu_driven_forwarder.specs.Driven.{DrivenValue};

    ghost Value = { DrivenValue };

    ghost view = { λ d. record { forwarder = d.forwarder; action = d.action; sent = d.sent; texts = d.texts } };
}

/// Why a query is not taken in.
#[derive(Clone, Copy, Debug, PartialEq, Eq, Error)]
pub enum QueryError {
    /// A reply to a client is to be told first: one more would take its place.
    #[error("a reply is to be told first")]
    ReplyWaits,
    /// No memory was left.
    #[error("out of memory")]
    OutOfMemory,
}

impl DrivenForwarder {
    /// A forwarder of what these texts say, read at this moment (milliseconds), which has done nothing yet. The seed
    /// is 32 octets that nobody knows.
    pub fn open(
        alloc: Global,
        texts: &Texts<'_>,
        seed: [u8; 32],
        now: u64,
    ) -> Result<DrivenForwarder, ForwarderOpenError>
        ensures { IsOpened texts.now seed now result }
    {
        // (the source of these seeds refuses none)
        let Ok(seeds) = seeds_of(seed) else {
            return Err(ForwarderOpenError::OutOfMemory);
        };
        match open_forwarder(alloc, texts, &seeds, now) {
            Ok(forwarder) => DrivenForwarder::keep(alloc, forwarder, texts, seeds.hasher),
            Err(error) => Err(error),
        }
    }

    // A forwarder of these texts.
    fn keep(
        alloc: Global,
        forwarder: Forwarder,
        texts: &Texts<'_>,
        hasher: RandomState,
    ) -> Result<DrivenForwarder, ForwarderOpenError>
        ensures { IsKept texts.now forwarder result }
    {
        match KeptTexts::of(alloc, texts) {
            Ok(texts) => Ok(DrivenForwarder {
                forwarder,
                action: None,
                sent: 0,
                texts,
                hasher,
            }),
            Err(AllocError) => {
                drop(forwarder);
                Err(ForwarderOpenError::OutOfMemory)
            }
        }
    }

    // ---- the texts are read anew

    /// What these texts say counts from this moment (milliseconds) on. Where each says what it said, nothing changes.
    /// Where they differ at most in what the settings say of clients, what is kept stays; else it is let go. Look-ups in
    /// flight go on; how servers are asked, and the bounds of what is kept, stay. Where a text has a fault nothing
    /// changes; where memory runs out the servers of the first groups may be others.
    pub fn reload(
        &mut self,
        alloc: Global,
        texts: &Texts<'_>,
        now: u64,
    ) -> Result<(), ForwarderOpenError>
        ensures { Reloads texts.now now self.old result self.new }
    {
        if self.texts.is_same(texts) {
            Ok(())
        } else {
            self.read_anew(alloc, texts, now)
        }
    }

    fn read_anew(
        &mut self,
        alloc: Global,
        texts: &Texts<'_>,
        now: u64,
    ) -> Result<(), ForwarderOpenError>
        ensures { ReadsAnew texts.now now self.old result self.new }
    {
        match read_forwarder_settings(alloc, texts.conf, texts.hostname, texts.settings) {
            Ok(settings) => self.read_over(alloc, settings, texts, now),
            Err(error) => Err(ForwarderOpenError::Settings(error)),
        }
    }

    fn read_over(
        &mut self,
        alloc: Global,
        settings: ForwarderSettings,
        texts: &Texts<'_>,
        now: u64,
    ) -> Result<(), ForwarderOpenError>
        ensures { TakesLocal settings texts.now now self.old result self.new }
    {
        let local = read_local(
            alloc,
            &settings,
            texts.hosts,
            texts.blocked,
            now / 1000,
            self.hasher,
        );
        match local {
            Ok(local) => self.take(alloc, settings, local, texts),
            Err(error) => Err(error),
        }
    }

    fn take(
        &mut self,
        alloc: Global,
        settings: ForwarderSettings,
        local: LocalData<RandomState>,
        texts: &Texts<'_>,
    ) -> Result<(), ForwarderOpenError>
        ensures { ReplacesOr settings (record { hosts = local.hosts; rules = local.rules }) texts.now self.old result
            self.new }
    {
        match KeptTexts::of(alloc, texts) {
            Ok(texts) => self.replace(settings, local, texts),
            Err(AllocError) => Err(ForwarderOpenError::OutOfMemory),
        }
    }

    fn replace(
        &mut self,
        settings: ForwarderSettings,
        local: LocalData<RandomState>,
        texts: KeptTexts,
    ) -> Result<(), ForwarderOpenError>
        ensures { Replaces settings (record { hosts = local.hosts; rules = local.rules }) texts self.old result
            self.new }
    {
        match set_servers(&mut self.forwarder, &settings) {
            Ok(()) => {
                self.turn_to(settings.forwarder, local, texts);
                Ok(())
            }
            Err(error) => Err(error),
        }
    }

    // These options, this local data and these texts count from now on.
    fn turn_to(
        &mut self,
        options: ForwarderOptions,
        local: LocalData<RandomState>,
        texts: KeptTexts,
    )
        ensures { self.new ≡ turned_to options (record { hosts = local.hosts; rules = local.rules }) texts
            self.old.forwarder self.old }
    {
        self.forwarder.set_options(options);
        if !self.texts.says_same_of_replies(&texts) {
            self.forwarder.set_local(local);
        }
        self.texts = texts;
    }

    // ---- events

    /// Octets of a query came from a client, at a moment (milliseconds). Where it is replied to at once, `reply` has
    /// the octets; where it waits, an action says when it is. A refused call changes nothing but that the moment
    /// passed.
    pub fn query(&mut self, client: Client, octets: &[u8], now: u64) -> Result<Answered, QueryError>
        ensures ok { IfOk result (λ answered. Asks client octets.now now self.old answered self.new) }
        ensures err { IfErr result (λ error. StopsAsking now self.old error self.new) }
    {
        if self.is_reply_left() {
            return Err(QueryError::ReplyWaits);
        }
        match self.forwarder.query(client, octets, now) {
            Ok(answered) => Ok(answered),
            Err(AllocError) => Err(QueryError::OutOfMemory),
        }
    }

    // Whether a reply to a client is to be told.
    fn is_reply_left(&self) -> bool
        ensures { result ≡ is_reply_left self.now.action }
    {
        matches!(self.action, Some(ForwarderAction::Reply(_)))
    }

    /// The client of this number is gone: none of its requests is replied to any more, and the places that they had are
    /// free. Look-ups go on, and what they come to is kept. Takes no memory, and time for each request that waits.
    pub fn gone(&mut self, client: u64)
        ensures { self.new ≡ gone client self.old }
    {
        self.forwarder.gone(client);
        if self.is_reply_to(client) {
            self.action = None;
        }
    }

    // Whether the program has to reply to the client of this number.
    fn is_reply_to(&self, client: u64) -> bool
        ensures { result ≡ is_reply_to client self.now.action }
    {
        match &self.action {
            Some(ForwarderAction::Reply(number)) => *number == client,
            _ => false,
        }
    }

    /// Octets came on a channel, at a moment (milliseconds). A refused call changes nothing.
    pub fn came(&mut self, channel: u64, octets: &[u8], now: u64) -> Result<(), AllocError>
        ensures ok { OnOk result (self.new ≡ over_forwarder (λ f. moment_passes now
            (with_pool (after_octets channel octets.now now f.pool) f)) self.old) }
        ensures err { OnErr result (self.new ≡ self.old) }
    {
        self.forwarder.came(channel, octets, now)
    }

    /// A channel failed, at a moment (milliseconds). A refused call changes nothing.
    pub fn failed(&mut self, channel: u64, why: Failure, now: u64) -> Result<(), AllocError>
        ensures ok { OnOk result (self.new
            ≡ over_forwarder (channel_failed (record { channel = channel; why = why }) now) self.old) }
        ensures err { OnErr result (self.new ≡ self.old) }
    {
        self.forwarder.failed(channel, why, now)
    }

    /// Time passed up to a moment (milliseconds).
    pub fn tick(&mut self, now: u64)
        ensures { self.new ≡ over_forwarder (at_moment now) self.old }
    {
        self.forwarder.tick(now);
    }

    // ---- what is kept

    /// Lets go of the replies and the failures that are kept of a name; with `below`, of those of all names at and
    /// below it.
    pub fn flush(&mut self, domain: &Name, below: bool)
        ensures { self.new ≡ over_forwarder (flushed domain.now below) self.old }
    {
        self.forwarder.flush(domain, below);
    }

    /// Lets go of the replies and the failures that are kept.
    pub fn clear(&mut self)
        ensures { self.new ≡ over_forwarder cleared self.old }
    {
        self.forwarder.clear();
    }

    /// The first of the replies that are kept.
    pub fn first_cached(&self) -> Option<CachedEntry<'_>>
        ensures { result ≡ first_listed self.now.forwarder }
    {
        self.forwarder.first_cached()
    }

    /// The reply behind that of a key; none behind the last, and none where nothing is kept under the key.
    pub fn cached_behind(&self, key: &[u8]) -> Option<CachedEntry<'_>>
        ensures { result ≡ listed_behind key.now self.now.forwarder }
    {
        self.forwarder.cached_behind(key)
    }

    // ---- what the program has to do

    /// Where nothing is left of what the program had to do, the forwarder does its next step. Where memory is refused
    /// nothing is to be done, and it may be called again.
    pub fn fetch(&mut self) -> Result<(), AllocError>
        ensures ok { OnOk result (Fetches self.old self.new) }
        ensures err { OnErr result (StopsFetching self.old self.new) }
    {
        if self.action.is_some() {
            return Ok(());
        }
        match self.forwarder.next_action() {
            Ok(action) => {
                self.count(&action);
                self.action = action;
                Ok(())
            }
            Err(error) => Err(error),
        }
    }

    // The program has to do this.
    fn count(&mut self, action: &Option<ForwarderAction>)
        ensures { self.new ≡ record self.old { sent = sent_after action.now self.old.sent } }
    {
        match action {
            Some(ForwarderAction::Send(_)) => self.sent = self.sent.saturating_add(1),
            _ => {}
        }
    }

    /// What the program has to do next.
    pub fn action(&self) -> Option<&ForwarderAction>
        ensures { option_copied result ≡ self.now.action }
    {
        self.action.as_ref()
    }

    /// The program was told what it has to do next.
    pub fn leave_action(&mut self)
        ensures { self.new ≡ without_action self.old }
    {
        self.action = None;
    }

    /// The octets of the reply that was written last.
    pub fn reply(&self) -> &[u8]
        ensures { result.now ≡ self.now.forwarder.reply }
    {
        self.forwarder.reply()
    }

    /// The earliest moment (milliseconds) at which time ends something, where nothing is left to be done.
    pub fn next_deadline(&self) -> Option<u64>
        ensures { result ≡ deadline_of self.now.forwarder }
    {
        self.forwarder.next_deadline()
    }

    // ---- numbers

    /// How many queries came, and what became of them.
    pub fn counts(&self) -> ForwarderCounts
        ensures { result ≡ self.now.forwarder.counted }
    {
        self.forwarder.counts()
    }

    /// How many messages were to be sent to servers. The greatest number stays.
    pub fn sent(&self) -> u64
        ensures { result ≡ self.now.sent }
    {
        self.sent
    }

    /// How many requests wait.
    pub fn waiting(&self) -> u64
        ensures { result ≡ self.now.forwarder.counts.all }
    {
        self.forwarder.waiting()
    }

    /// How many replies are kept, current or not.
    pub fn cache_len(&self) -> u64
        ensures { result ≡ length self.now.forwarder.cache.entries }
    {
        self.forwarder.cache_len()
    }

    /// How many octets of memory the replies take that are kept.
    pub fn cache_octets(&self) -> u64
        ensures { result ≡ all_weight self.now.forwarder.cache.entries }
    {
        self.forwarder.cache_octets()
    }
}
