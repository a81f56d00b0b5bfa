//! A resolver, and look-ups that wait or are done, each under a number.
ghost use Rattle.std.specs.Prelude.{◌≡◌, [], Err, IfErr, IfOk, Ok, Some};
ghost use Rattle.hickory_resolver_model.specs.Options.{request_options_of};
ghost use Rattle.resolv_conf.specs.ResolvConf.{resolv_conf};
ghost use Rattle.yimarotu_session.specs.Calls.{BeginsHost, BeginsName, Cancels, ClearsName, Feeds, cleared, found_at, question_at, waits_of};
ghost use Rattle.yimarotu_session.specs.FileSettings.{IsOpenedWith};
ghost use Rattle.yimarotu_session.specs.Opening.{IsOpened};
ghost use Rattle.yimarotu_session.specs.Sessions.{Puts};

use crate::file_settings::read_resolver_with;
use crate::going_on::{go_on, waits};
use crate::numbered::{forget, put};
use crate::opening::{OpenError, read_resolver};
use crate::session_error::SessionError;
use hickory_proto_core::{DnsRequestOptions, NetError, Outcome, Query, RecordType, ScriptHandle};
use hickory_resolver::{CallProgress, Lookup, Resolver};
use std::alloc::{AllocError, Global};
use std::collections::HashMap;
use std::marker::Model;

/// A resolver, and look-ups that wait for what comes back to a question or are done, each under a number of the
/// caller's. It sends nothing itself.
#[derive(Drop)]
pub struct Session {
    resolver: Resolver<ScriptHandle>,
    lookups: HashMap<u64, CallProgress>,
}

impl Model for Session {
    ghost use Rattle.yimarotu_session.specs.Sessions.{SessionValue};

    ghost Value = { SessionValue };

    ghost view = { λ s. record { resolver = s.resolver; lookups = s.lookups.entries } };
}

impl Session {
    /// A session of these settings, over what a file of hosts says, read at this moment (seconds). They are the lines of
    /// a script that set something, and lines `option cache_octets N`, of which the last counts: how many octets the
    /// cache may take for what it keeps.
    pub fn open(
        alloc: Global,
        settings: &[u8],
        hosts: &[u8],
        now: u64,
    ) -> Result<Session, OpenError>
        ensures { IsOpened settings.now hosts.now now result }
    {
        match read_resolver(alloc, settings, hosts, now) {
            Ok(resolver) => Ok(Session {
                resolver,
                lookups: HashMap::new(alloc),
            }),
            Err(error) => Err(error),
        }
    }

    /// The same, where a file resolv.conf on a host of this name is said behind the settings: what it says counts in
    /// place of them, but its search list comes behind theirs. Of the file count `search` and `domain`, and of its
    /// options `ndots`, `edns0` and `no-aaaa`: the servers, and how they are asked, are the program's.
    pub fn open_with(
        alloc: Global,
        conf: &[u8],
        hostname: &[u8],
        settings: &[u8],
        hosts: &[u8],
        now: u64,
    ) -> Result<Session, OpenError>
        ensures { IsOpenedWith (resolv_conf conf.now hostname.now) settings.now hosts.now now result }
    {
        match read_resolver_with(alloc, conf, hostname, settings, hosts, now) {
            Ok(resolver) => Ok(Session {
                resolver,
                lookups: HashMap::new(alloc),
            }),
            Err(error) => Err(error),
        }
    }

    /// Starts a look-up of records of a type for a name, at a moment (seconds), under a number that no other has, and
    /// tells whether it waits. Where memory runs out there is no such look-up.
    pub fn start(
        &mut self,
        number: u64,
        name: &str,
        record_type: RecordType,
        now: u64,
    ) -> Result<bool, SessionError>
        ensures { BeginsName number name.now record_type now self.old result self.new }
    {
        if self.lookups.contains_key(&number) {
            return Err(SessionError::InUse);
        }
        let progress = self.resolver.start_lookup(name, record_type, now);
        self.keep(number, progress)
    }

    /// The same of the addresses of a host.
    pub fn start_ip(&mut self, number: u64, host: &str, now: u64) -> Result<bool, SessionError>
        ensures { BeginsHost number host.now now self.old result self.new }
    {
        if self.lookups.contains_key(&number) {
            return Err(SessionError::InUse);
        }
        let progress = self.resolver.start_lookup_ip(host, now);
        self.keep(number, progress)
    }

    // Keeps how far a look-up came under its number, and tells whether it waits.
    fn keep(&mut self, number: u64, progress: CallProgress) -> Result<bool, SessionError>
        ensures resolver { self.new.resolver ≡ self.old.resolver }
        ensures ok { IfOk result (λ waits. (waits ≡ waits_of progress)
            × Puts number (Some progress) self.old.lookups self.new.lookups) }
        ensures err { IfErr result (λ error. (error ≡ SessionError.OutOfMemory)
            × (self.new.lookups ≡ self.old.lookups)) }
    {
        let waits = waits(&progress);
        match put(&mut self.lookups, number, progress) {
            Ok(()) => Ok(waits),
            Err(AllocError) => Err(SessionError::OutOfMemory),
        }
    }

    /// The question that the look-up of a number waits for.
    pub fn question(&self, number: u64) -> Result<&Query, SessionError>
        ensures ok { IfOk result (λ question. question_at number self.now ≡ Ok question.now) }
        ensures err { IfErr result (λ error. question_at number self.now ≡ Err error) }
    {
        match self.lookups.get(&number) {
            None => Err(SessionError::NoLookup),
            Some(CallProgress::Done(_)) => Err(SessionError::IsDone),
            Some(CallProgress::Waiting(waiting)) => Ok(waiting.question()),
        }
    }

    /// How each question is sent.
    pub fn request_options(&self) -> DnsRequestOptions
        ensures { result ≡ request_options_of self.now.resolver.options }
    {
        self.resolver.request_options()
    }

    /// Goes on with the look-up of a number by what came back to its question, and tells whether it waits again.
    pub fn feed(&mut self, number: u64, outcome: Outcome) -> Result<bool, SessionError>
        ensures { Feeds outcome number self.old result self.new }
    {
        if let Err(error) = self.question(number) {
            drop(outcome);
            return Err(error);
        }
        match self.lookups.get_mut(&number) {
            Some(held) => {
                go_on(&mut self.resolver, held, outcome);
                Ok(waits(held))
            }
            None => {
                drop(outcome);
                Err(SessionError::NoLookup)
            }
        }
    }

    /// What the look-up of a number came to.
    pub fn found(&self, number: u64) -> Result<&Result<Lookup, NetError>, SessionError>
        ensures ok { IfOk result (λ found. found_at number self.now ≡ Ok found.now) }
        ensures err { IfErr result (λ error. found_at number self.now ≡ Err error) }
    {
        match self.lookups.get(&number) {
            None => Err(SessionError::NoLookup),
            Some(CallProgress::Waiting(_)) => Err(SessionError::Waits),
            Some(CallProgress::Done(found)) => Ok(found),
        }
    }

    /// Forgets the look-up of a number, and tells whether there was one.
    pub fn cancel(&mut self, number: u64) -> bool
        ensures { Cancels number self.old result self.new }
    {
        forget(&mut self.lookups, number)
    }

    /// Drops from the cache what it has for the names that are attempted for this one, of this type. What is no name
    /// clears nothing, and a refused call changes nothing. The look-ups stay.
    pub fn clear_name(&mut self, name: &str, record_type: RecordType) -> Result<(), SessionError>
        ensures { ClearsName name.now record_type self.old result self.new }
    {
        match self.resolver.clear_lookup_cache(name, record_type) {
            Ok(()) => Ok(()),
            Err(_) => Err(SessionError::OutOfMemory),
        }
    }

    /// Empties the cache. The look-ups stay.
    pub fn clear(&mut self)
        ensures { self.new ≡ cleared self.old }
    {
        self.resolver.clear_cache();
    }
}
