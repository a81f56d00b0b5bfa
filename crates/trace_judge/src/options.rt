//! What the judge allows.

use hickory_proto_core::{Name, Record};
use std::marker::Model;
use synthesis::Prefix;

/// What the judge allows.
#[derive(Debug, Drop)]
pub struct Options {
    /// How many seconds more than what was received a TTL may reach, for rounding.
    pub slack: u32,
    /// The zones that the resolver answers for by itself: what it tells of them need not have been received.
    pub local: Vec<Name>,
    /// The records that the resolver has of its own, of a file of hosts: it tells them with any TTL.
    pub own: Vec<Record>,
    /// The prefixes in which it makes IPv6 addresses of IPv4 addresses.
    pub dns64: Vec<Prefix>,
}

impl Model for Options {
    ghost use Rattle.trace_judge.specs.Options.{OptionsValue};

    ghost Value = { OptionsValue };

    ghost view = { λ o. record {
      slack = o.slack;
      local = o.local.items;
      own = o.own.items;
      dns64 = o.dns64.items;
    } };
}
