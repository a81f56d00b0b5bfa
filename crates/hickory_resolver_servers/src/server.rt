//! A name server, and what is known of it.
ghost use Rattle.std.specs.Prelude.{◌≡◌, ◌+◌, ◌-◌, ◌≤◌, ◌<◌, find, min, Option, None, Some};
ghost use Rattle.std.specs.Option.{option_map};
ghost use Rattle.hickory_resolver_config.specs.Connections.{protocol_value};
ghost use Rattle.hickory_resolver_servers.specs.Measures.{smoothed, doubled, is_sent_after, after_answer, after_failure, after_timeout, released_by};
ghost use Rattle.hickory_resolver_servers.specs.Server.{is_udp, is_tcp, port_over, server_of, recent, known_at};

use crate::choices::{GREATEST_ROUND_TRIP, KNOWN_FOR, OLD_WEIGHT, WHOLE_WEIGHT};
use hickory_resolver_config::{ConnectionConfig, NameServerConfig, ProtocolConfig};
use std::marker::Model;
use std::net::IpAddr;

/// What was measured of a server, in milliseconds.
#[derive(Clone, Copy, Debug, PartialEq, Eq)]
pub struct Estimate {
    /// The smoothed round trip.
    pub round_trip: u32,
    /// The moment of the last measure.
    pub measured_at: u64,
}

/// A name server: how it is reached, and what is known of it.
#[derive(Debug, Drop)]
pub struct Server {
    /// Its address.
    pub address: IpAddr,
    /// The octets of the scope of a link-local address (RFC 4007, section 6), none where it has none.
    pub scope: Vec<u8>,
    /// Its port for UDP, where it is asked over UDP.
    pub udp_port: Option<u16>,
    /// Its port for TCP, where it is asked over TCP.
    pub tcp_port: Option<u16>,
    /// Whether no other server is asked once this one has said that there is nothing.
    pub trust_negative_responses: bool,
    /// What was measured, if anything was.
    pub estimate: Option<Estimate>,
    /// The transaction that tries it while nothing is known of it.
    pub probe: Option<u64>,
}

impl Model for Server {
    ghost use Rattle.hickory_resolver_servers.specs.Server.{ServerState};

    ghost Value = { ServerState };

    ghost view = { λ s. record {
      address = s.address;
      scope = s.scope.items;
      udp_port = s.udp_port;
      tcp_port = s.tcp_port;
      trust_negative_responses = s.trust_negative_responses;
      estimate = s.estimate;
      probe = s.probe;
    } };
}

impl Server {
    /// A configured server with the octets of its scope, of which nothing is known yet. It is asked over UDP and TCP,
    /// each at the port of its first connection of that protocol.
    pub fn new(config: &NameServerConfig, scope: Vec<u8>) -> Server
        ensures { result ≡ server_of config.now scope.items }
    {
        Server {
            address: config.ip,
            scope,
            udp_port: udp_port(&config.connections),
            tcp_port: tcp_port(&config.connections),
            trust_negative_responses: config.trust_negative_responses,
            estimate: None,
            probe: None,
        }
    }

    /// Its smoothed round trip, where it was measured and not too long ago.
    pub fn known(&self, now: u64) -> Option<u32>
        ensures { result ≡ known_at now self.now }
    {
        match self.estimate {
            Some(estimate) => estimate.recent(now),
            None => None,
        }
    }

    /// A reply came to what was sent at a moment, with NOERROR or NXDOMAIN.
    pub fn answered(&mut self, sent_at: u64, now: u64)
        ensures { self.new ≡ after_answer sent_at now self.old }
    {
        let round_trip = smoothed(self.known(now), took(sent_at, now));
        self.measure(now, round_trip);
    }

    /// What was sent at a moment failed: another code came, or its channel failed. The timeout is of milliseconds too.
    pub fn failed(&mut self, timeout: u64, sent_at: u64, now: u64)
        ensures { self.new ≡ after_failure timeout sent_at now self.old }
    {
        if is_sent_after(sent_at, self.estimate) {
            let round_trip = doubled(self.known(now), timeout);
            self.measure(now, round_trip);
        }
    }

    /// Nothing came by the moment when what was sent was due.
    pub fn timed_out(&mut self, timeout: u64, sent_at: u64, due: u64, now: u64)
        ensures { self.new ≡ after_timeout timeout sent_at due now self.old }
    {
        if now.saturating_sub(due) <= timeout {
            self.failed(timeout, sent_at, now);
        }
    }

    /// A transaction is over, or does not try it as an unknown one any more.
    pub fn release(&mut self, transaction: u64)
        ensures { self.new ≡ record self.old { probe = released_by transaction self.old.probe } }
    {
        if self.probe == Some(transaction) {
            self.probe = None;
        }
    }

    /// A transaction tries it while nothing is known of it.
    pub fn hold(&mut self, transaction: u64)
        ensures { self.new ≡ record self.old { probe = Some transaction } }
    {
        self.probe = Some(transaction);
    }

    // Notes a round trip.
    fn measure(&mut self, now: u64, round_trip: u32)
        ensures { self.new ≡ record self.old {
          estimate = Some (record { round_trip = round_trip; measured_at = now });
          probe = None;
        } }
    {
        self.estimate = Some(Estimate {
            round_trip,
            measured_at: now,
        });
        self.probe = None;
    }
}

impl Estimate {
    // Its round trip, where it is not too old.
    fn recent(&self, now: u64) -> Option<u32>
        ensures { result ≡ recent now (Some self.now) }
    {
        if now.saturating_sub(self.measured_at) <= KNOWN_FOR {
            Some(self.round_trip)
        } else {
            None
        }
    }
}

// ---- ports

fn udp_port(connections: &[ConnectionConfig]) -> Option<u16>
    ensures { result ≡ port_over is_udp connections.now }
{
    let first = connections.iter().find(|one| is_udp(&one.protocol));
    first.map(|one| one.port)
}

fn tcp_port(connections: &[ConnectionConfig]) -> Option<u16>
    ensures { result ≡ port_over is_tcp connections.now }
{
    let first = connections.iter().find(|one| is_tcp(&one.protocol));
    first.map(|one| one.port)
}

fn is_udp(protocol: &ProtocolConfig) -> bool
    ensures { result ≡ is_udp (protocol_value protocol.now) }
{
    match protocol {
        ProtocolConfig::Udp => true,
        _ => false,
    }
}

fn is_tcp(protocol: &ProtocolConfig) -> bool
    ensures { result ≡ is_tcp (protocol_value protocol.now) }
{
    match protocol {
        ProtocolConfig::Tcp => true,
        _ => false,
    }
}

// ---- round trips

// The round trip of what was sent at a moment and came now.
fn took(sent_at: u64, now: u64) -> u32
    ensures { result ≡ min (now - sent_at) GREATEST_ROUND_TRIP }
{
    now.saturating_sub(sent_at).min(GREATEST_ROUND_TRIP) as u32
}

fn smoothed(known: Option<u32>, new: u32) -> u32
    ensures { result ≡ smoothed known new }
{
    match known {
        None => new,
        Some(old) => {
            let sum = OLD_WEIGHT * u64::from(old) + u64::from(new);
            (sum / WHOLE_WEIGHT) as u32
        }
    }
}

// Twice what is known, at least the timeout, and not more than is noted.
fn doubled(known: Option<u32>, timeout: u64) -> u32
    ensures { result ≡ min (doubled known timeout) GREATEST_ROUND_TRIP }
{
    let wanted = match known {
        None => timeout,
        Some(old) => (2 * u64::from(old)).max(timeout),
    };
    wanted.min(GREATEST_ROUND_TRIP) as u32
}

fn is_sent_after(sent_at: u64, estimate: Option<Estimate>) -> bool
    ensures { result ≡ is_sent_after sent_at estimate }
{
    match estimate {
        None => true,
        Some(estimate) => estimate.measured_at <= sent_at,
    }
}
