//! The servers of a group.
ghost use Rattle.std.specs.Prelude.{◌≡◌, map, set, slice_get, None, Some, IfOk, OnOk, OnErr};
ghost use Rattle.std.specs.Option.{option_map_or};
ghost use Rattle.hickory_resolver_servers.specs.Measures.{released};
ghost use Rattle.hickory_resolver_servers.specs.Order.{IsOrder, probe_of, probed};
ghost use Rattle.hickory_resolver_steps.specs.Lists.{list_of, number_of, place_of, stream_of, the_same, with_stream, without, without_stream, answered, failed, timed_out};

use hickory_resolver_config::ServerOrderingStrategy;
use hickory_resolver_servers::{RoundStart, Server, Servers};
use std::alloc::{AllocError, Global};
use std::marker::Model;

/// The servers of a group, with their numbers and the stream to each that new tries go on.
#[derive(Drop)]
pub struct ServerList {
    first: u64,
    servers: Servers,
    streams: Vec<Option<u64>>,
}

impl Model for ServerList {
    ghost use Rattle.hickory_resolver_steps.specs.Lists.{ListState};

    ghost Value = { ListState };

    ghost view = { λ l. record { first = l.first; servers = l.servers; streams = l.streams.items } };
}

impl ServerList {
    /// These servers, of which the first has this number.
    pub fn new(alloc: Global, first: u64, servers: Servers) -> Result<ServerList, AllocError>
        ensures { IfOk result (λ l. l ≡ list_of first servers) }
    {
        let streams = no_streams(alloc, servers.as_slice())?;
        Ok(ServerList {
            first,
            servers,
            streams,
        })
    }

    /// The servers.
    pub fn servers(&self) -> &[Server]
        ensures { result.now ≡ self.now.servers }
    {
        self.servers.as_slice()
    }

    /// The number of the server of a place.
    pub fn number_of(&self, place: usize) -> u64
        ensures { result ≡ number_of place self.now }
    {
        self.first.saturating_add(place as u64)
    }

    /// The place of the server of a number.
    pub fn place_of(&self, number: u64) -> usize
        ensures { result ≡ place_of number self.now }
    {
        number.saturating_sub(self.first) as usize
    }

    /// The stream to the server of a place that new tries go on.
    pub fn stream_of(&self, place: usize) -> Option<u64>
        ensures { result ≡ stream_of place self.now }
    {
        match self.streams.get(place) {
            Some(stream) => *stream,
            None => None,
        }
    }

    /// A stream was opened to it.
    pub fn set_stream(&mut self, place: usize, channel: u64)
        ensures { self.new ≡ with_stream place channel self.old }
    {
        set_stream(&mut self.streams, place, channel);
    }

    /// A try ran out of time on this channel: where it is the stream to the server of a place, nothing more goes on it.
    pub fn leave_stream(&mut self, place: usize, channel: u64)
        ensures { self.new ≡ without_stream place channel self.old }
    {
        leave_stream(&mut self.streams, place, channel);
    }

    /// The order of a round, among the places that are left. A refused call changes nothing.
    pub fn order(
        &mut self,
        alloc: Global,
        strategy: ServerOrderingStrategy,
        round: &RoundStart,
        left: &[usize],
    ) -> Result<Vec<usize>, AllocError>
        ensures order { IfOk result (λ order. IsOrder strategy round.now self.old.servers left.now order.items) }
        ensures ok { OnOk result (self.new ≡ record self.old {
          servers = probed round.now.transaction (probe_of strategy round.now self.old.servers left.now) self.old.servers;
        }) }
        ensures err { OnErr result (self.new ≡ self.old) }
    {
        self.servers.order(alloc, strategy, round, left)
    }

    /// A reply came from the server of a place, with NOERROR or NXDOMAIN.
    pub fn answered(&mut self, place: usize, sent_at: u64, now: u64)
        ensures { self.new ≡ answered place sent_at now self.old }
    {
        self.servers.answered(place, sent_at, now);
    }

    /// What was sent to it failed.
    pub fn failed(&mut self, place: usize, timeout: u64, sent_at: u64, now: u64)
        ensures { self.new ≡ failed place timeout sent_at now self.old }
    {
        self.servers.failed(place, timeout, sent_at, now);
    }

    /// Nothing came in time.
    pub fn timed_out(&mut self, place: usize, timeout: u64, sent_at: u64, due: u64, now: u64)
        ensures { self.new ≡ timed_out place timeout sent_at due now self.old }
    {
        self.servers.timed_out(place, timeout, sent_at, due, now);
    }

    /// A transaction is over.
    pub fn release(&mut self, transaction: u64)
        ensures { self.new ≡ record self.old { servers = released transaction self.old.servers } }
    {
        self.servers.release(transaction);
    }
}

fn no_streams(alloc: Global, servers: &[Server]) -> Result<Vec<Option<u64>>, AllocError>
    ensures { IfOk result (λ v. v.items ≡ map (λ server. None) servers.now) }
{
    servers.iter().map(|_server| None).collect(alloc)
}

fn set_stream(streams: &mut Vec<Option<u64>>, place: usize, channel: u64)
    ensures { streams.new.items ≡ option_map_or (λ old. set streams.old.items place (Some channel))
        (slice_get streams.old.items place) streams.old.items }
{
    if place < streams.len() {
        streams[place] = Some(channel);
    }
}

// All but this one.
fn without(stream: Option<u64>, channel: u64) -> Option<u64>
    ensures { result ≡ without channel stream }
{
    match stream {
        Some(latest) if latest != channel => Some(latest),
        _ => None,
    }
}

fn leave_stream(streams: &mut Vec<Option<u64>>, place: usize, channel: u64)
    ensures { streams.new.items ≡ option_map_or (λ latest. set streams.old.items place (without channel latest))
        (slice_get streams.old.items place) streams.old.items }
{
    if place < streams.len() {
        streams[place] = without(streams[place], channel);
    }
}
