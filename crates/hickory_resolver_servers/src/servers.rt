//! The name servers of a group.
ghost use Rattle.std.specs.Prelude.{◌≡◌, ◌++◌, ◌∷◌, [], length, slice_get, option_copied, IfOk, OnOk, OnErr, Some};
ghost use Rattle.hickory_resolver_servers.specs.Measures.{changed_at, after_answer, after_failure, after_timeout, released};
ghost use Rattle.hickory_resolver_servers.specs.Order.{IsOrder, HasEachOnce, probe_of, probed};

use crate::order::{RoundStart, order_of, probe_of};
use crate::server::Server;
use hickory_resolver_config::ServerOrderingStrategy;
use std::alloc::{AllocError, Global};
use std::marker::Model;

/// The name servers of a group in the order in which they are configured, with what is known of each. A server is named
/// by its place, and what is said of a place without a server changes nothing.
#[derive(Debug, Drop)]
pub struct Servers {
    servers: Vec<Server>,
}

impl Model for Servers {
    ghost use Rattle.std.specs.Prelude.{List};
    ghost use Rattle.hickory_resolver_servers.specs.Server.{ServerState};

    ghost Value = { List ServerState };

    ghost view = { λ s. s.servers.items };
}

impl Servers {
    /// No servers.
    pub fn new(alloc: Global) -> Servers
        ensures { result ≡ [] }
    {
        Servers {
            servers: Vec::new(alloc),
        }
    }

    /// Adds a server behind the others.
    pub fn push(&mut self, server: Server) -> Result<(), AllocError>
        ensures ok { OnOk result (self.new ≡ self.old ++ server ∷ []) }
        ensures err { OnErr result (self.new ≡ self.old) }
    {
        self.servers.push(server)?;
        Ok(())
    }

    /// The servers.
    pub fn as_slice(&self) -> &[Server]
        ensures { result.now ≡ self.now }
    {
        &self.servers
    }

    /// A reply came to what was sent to a server at a moment, with NOERROR or NXDOMAIN.
    pub fn answered(&mut self, place: usize, sent_at: u64, now: u64)
        ensures { self.new ≡ changed_at (after_answer sent_at now) place self.old }
    {
        if place < self.servers.len() {
            self.servers[place].answered(sent_at, now);
        }
    }

    /// What was sent to a server at a moment failed: another code came, or its channel failed.
    pub fn failed(&mut self, place: usize, timeout: u64, sent_at: u64, now: u64)
        ensures { self.new ≡ changed_at (after_failure timeout sent_at now) place self.old }
    {
        if place < self.servers.len() {
            self.servers[place].failed(timeout, sent_at, now);
        }
    }

    /// Nothing came by the moment when what was sent to a server was due. Where this is told later than a timeout after
    /// that, the machine slept, and nothing is measured.
    pub fn timed_out(&mut self, place: usize, timeout: u64, sent_at: u64, due: u64, now: u64)
        ensures { self.new ≡ changed_at (after_timeout timeout sent_at due now) place self.old }
    {
        if place < self.servers.len() {
            self.servers[place].timed_out(timeout, sent_at, due, now);
        }
    }

    /// The order in which a round tries the servers that are left in it. Each is in it as often as it is left. Where an
    /// unknown server is tried beside the fastest, it is noted that this transaction tries it.
    pub fn order(
        &mut self,
        alloc: Global,
        strategy: ServerOrderingStrategy,
        round: &RoundStart,
        left: &[usize],
    ) -> Result<Vec<usize>, AllocError>
        ensures order { IfOk result (λ v. IsOrder strategy round.now self.old left.now v.items) }
        ensures each_once { IfOk result (λ v. HasEachOnce left.now v.items) }
        ensures ok { OnOk result (self.new
            ≡ probed round.now.transaction (probe_of strategy round.now self.old left.now) self.old) }
        ensures err { OnErr result (self.new ≡ self.old) }
    {
        let order = order_of(alloc, strategy, round, &self.servers, left)?;
        let probe = probe_of(strategy, round, &self.servers, left);
        self.hold(probe, round.transaction);
        Ok(order)
    }

    // Notes that a transaction tries an unknown server.
    fn hold(&mut self, probe: Option<usize>, transaction: u64)
        ensures { self.new ≡ probed transaction probe self.old }
    {
        if let Some(place) = probe {
            if place < self.servers.len() {
                self.servers[place].hold(transaction);
            }
        }
    }

    /// A transaction is over: it tries no server as an unknown one.
    pub fn release(&mut self, transaction: u64)
        ensures { self.new ≡ released transaction self.old }
    {
        release_each(&mut self.servers, transaction);
    }
}

fn release_each(servers: &mut [Server], transaction: u64)
    ensures { servers.new ≡ released transaction servers.old }
{
    for server in servers.iter_mut() {
        server.release(transaction);
    }
}
