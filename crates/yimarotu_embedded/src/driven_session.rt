//! A session with a network, with what the program has to do next, and with counts.
ghost use Rattle.std.specs.Prelude.{◌≡◌, Err, IfErr, IfOk, IsOkUnless, None, Ok, OnErr, OnOk, Some, length};
ghost use Rattle.std.specs.Option.{option_copied};
ghost use Rattle.hickory_resolver_pool.specs.Pool.{after_failure, after_octets, after_servers, after_tick};
ghost use Rattle.hickory_resolver_pool.specs.Servers.{first_fixed};
ghost use Rattle.hickory_resolver_traffic.specs.Tasks.{next_deadline};
ghost use Rattle.yimarotu_embedded.specs.Counts.{with_start};
ghost use Rattle.yimarotu_embedded.specs.Driven.{Fetches, IsDriven, StartsIn, octets_held, over_network, waits_at, without_action};
ghost use Rattle.yimarotu_session.specs.NetworkSessions.{BeginsHost, BeginsName, Cancels, ClearsName, cleared, found_at, with_pool};

use crate::counts::Counts;
use crate::network_opening::{NetworkOpenError, open_network_session};
use hickory_proto_core::{NetError, RecordType};
use hickory_resolver::Lookup;
use hickory_resolver_pool::{Failure, PoolServer, ServersError};
use std::alloc::{AllocError, Global};
use std::marker::Model;
use yimarotu_session::{NetworkAction, NetworkSession, SessionError};

/// A session with a network as a program drives it: what the program has to do next stays until it was told whole.
#[derive(Drop)]
pub struct DrivenSession {
    session: NetworkSession,
    action: Option<NetworkAction>,
    counts: Counts,
}

impl Model for DrivenSession {
    ghost use Rattle.yimarotu_embedded.specs.Driven.{DrivenValue};

    ghost Value = { DrivenValue };

    ghost view = { λ d. record { session = d.session; action = d.action; counts = d.counts } };
}

impl DrivenSession {
    /// A session with a network (`open_network_session`), which has done nothing yet.
    pub fn open(
        alloc: Global,
        conf: &[u8],
        hostname: &[u8],
        settings: &[u8],
        hosts: &[u8],
        seed: [u8; 32],
        now: u64,
    ) -> Result<DrivenSession, NetworkOpenError>
        ensures { IsDriven conf.now hostname.now settings.now hosts.now seed now result }
    {
        match open_network_session(alloc, conf, hostname, settings, hosts, seed, now) {
            Ok(session) => Ok(DrivenSession {
                session,
                action: None,
                counts: Counts::none(),
            }),
            Err(error) => Err(error),
        }
    }

    // ---- events

    /// Starts a look-up of records of a type for a name, at a moment (milliseconds), under a number that no other has,
    /// and tells whether it waits for a question; else it is done.
    pub fn start(
        &mut self,
        number: u64,
        name: &str,
        record_type: RecordType,
        now: u64,
    ) -> Result<bool, SessionError>
        ensures { StartsIn (BeginsName number name.now record_type now) number self.old result self.new }
    {
        self.session.start(number, name, record_type, now)?;
        Ok(self.count_start(number))
    }

    /// The same of the addresses of a host.
    pub fn start_ip(&mut self, number: u64, host: &str, now: u64) -> Result<bool, SessionError>
        ensures { StartsIn (BeginsHost number host.now now) number self.old result self.new }
    {
        self.session.start_ip(number, host, now)?;
        Ok(self.count_start(number))
    }

    // The look-up of a number was started: whether it waits.
    fn count_start(&mut self, number: u64) -> bool
        ensures waits { result ≡ waits_at number self.old.session }
        ensures counted { self.new ≡ record self.old { counts = with_start result self.old.counts } }
    {
        let waits = self.session.found(number).is_err();
        self.counts.count_start(waits);
        waits
    }

    /// Octets came on a channel, at a moment (milliseconds). A refused call changes nothing.
    pub fn came(&mut self, channel: u64, octets: &[u8], now: u64) -> Result<(), AllocError>
        ensures ok { OnOk result (self.new
            ≡ over_network (with_pool (after_octets channel octets.now now self.old.session.pool)) self.old) }
        ensures err { OnErr result (self.new ≡ self.old) }
    {
        self.session.came(channel, octets, now)
    }

    /// A channel failed, at a moment (milliseconds). A refused call changes nothing.
    pub fn failed(&mut self, channel: u64, why: Failure, now: u64) -> Result<(), AllocError>
        ensures ok { OnOk result (self.new ≡ over_network
            (with_pool (after_failure (record { channel = channel; why = why }) now self.old.session.pool)) self.old) }
        ensures err { OnErr result (self.new ≡ self.old) }
    {
        self.session.failed(channel, why, now)
    }

    /// Time passed up to a moment (milliseconds).
    pub fn tick(&mut self, now: u64)
        ensures { self.new ≡ over_network (with_pool (after_tick now self.old.session.pool)) self.old }
    {
        self.session.tick(now);
    }

    /// Forgets the look-up of a number, at a moment (milliseconds), and tells whether there was one.
    pub fn cancel(&mut self, number: u64, now: u64) -> Result<bool, AllocError>
        ensures ok { IfOk result (λ was_there. Cancels number now self.old.session was_there self.new.session) }
        ensures stays { self.new ≡ record self.old { session = self.new.session } }
        ensures err { OnErr result (self.new ≡ self.old) }
    {
        self.session.cancel(number, now)
    }

    /// The servers that are asked from now on.
    pub fn set_servers(&mut self, servers: &[PoolServer]) -> Result<(), ServersError>
        ensures ok { OnOk result (self.new
            ≡ over_network (with_pool (after_servers 0 servers.now self.old.session.pool)) self.old) }
        ensures err { OnErr result (self.new ≡ self.old) }
        ensures fixed { (place : _) → first_fixed servers.now ≡ Some place
            → result ≡ Err (ServersError.FixedPort place) }
        ensures free { first_fixed servers.now ≡ None → IsOkUnless result ServersError.OutOfMemory }
    {
        self.session.set_servers(servers)
    }

    /// Drops from the cache what it has for the names that are attempted for this one, of this type, and what came for
    /// them ahead of a look-up.
    pub fn clear_name(&mut self, name: &str, record_type: RecordType) -> Result<(), SessionError>
        ensures clears { ClearsName name.now record_type self.old.session result self.new.session }
        ensures stays { self.new ≡ record self.old { session = self.new.session } }
    {
        self.session.clear_name(name, record_type)
    }

    /// Empties the cache, and lets go of what came ahead of a look-up.
    pub fn clear(&mut self)
        ensures { self.new ≡ over_network cleared self.old }
    {
        self.session.clear();
    }

    // ---- what the program has to do

    /// Where nothing is left of what the program had to do, the session does its next step. Where memory is refused
    /// nothing changes, and it may be called again.
    pub fn fetch(&mut self) -> Result<(), AllocError>
        ensures ok { OnOk result (Fetches self.old self.new) }
        ensures err { OnErr result (self.new ≡ self.old) }
    {
        if self.action.is_none() {
            let action = self.session.next_action()?;
            self.counts.count_action(&self.session, action.as_ref());
            self.action = action;
        }
        Ok(())
    }

    /// What the program has to do next.
    pub fn action(&self) -> Option<&NetworkAction>
        ensures { option_copied result ≡ self.now.action }
    {
        self.action.as_ref()
    }

    /// The program was told what it has to do next.
    pub fn leave_action(&mut self)
        ensures { self.new ≡ without_action self.old }
    {
        self.action = None;
    }

    /// The earliest moment (milliseconds) at which time ends something, where nothing is left to be done.
    pub fn next_deadline(&self) -> Option<u64>
        ensures { result ≡ next_deadline self.now.session.pool.traffic }
    {
        self.session.next_deadline()
    }

    // ---- what is known

    /// What the look-up of a number came to.
    pub fn found(&self, number: u64) -> Result<&Result<Lookup, NetError>, SessionError>
        ensures ok { IfOk result (λ found. found_at number self.now.session ≡ Ok found.now) }
        ensures err { IfErr result (λ error. found_at number self.now.session ≡ Err error) }
    {
        self.session.found(number)
    }

    /// What it did.
    pub fn counts(&self) -> Counts
        ensures { result ≡ self.now.counts }
    {
        self.counts
    }

    /// How many results the cache has, current or not.
    pub fn cache_len(&self) -> usize
        ensures { result ≡ length self.now.session.resolver.client.cache.entries }
    {
        self.session.cache().len()
    }

    /// How many octets they weigh, where these are bounded.
    pub fn cache_octets(&self) -> Option<u64>
        ensures { result ≡ octets_held self.now.session.resolver.client.cache }
    {
        self.session.cache().octets()
    }
}
