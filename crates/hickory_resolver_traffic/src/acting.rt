//! What a transaction does with its servers and with the channels.
ghost use Rattle.std.specs.Prelude.{◌≡◌, IfOk, OnOk, OnErr};
ghost use Rattle.hickory_resolver_traffic.specs.Acting.{later, telling_of, step_of, acted, nothing_acted, acted_value, acted_on, value_on};

use crate::groups::Lists;
use hickory_resolver_flights::Heard;
use hickory_resolver_steps::{
    Flying, Sending, ServerList, Shared, Step, Telling, expire, fail, hear, send,
};
use std::alloc::{AllocError, Global};
use std::marker::Model;

/// What is done.
#[derive(Clone, Copy, Debug, PartialEq, Eq)]
pub enum ServerAct {
    /// It hears octets that came on a channel, with this number in their header.
    Hear(u64, u16),
    /// A channel failed.
    Fail(u64),
    /// A deadline has come.
    Expire,
    /// It sends what it wants.
    Send,
}

/// A moment, and for how long something is waited for, in milliseconds.
#[derive(Clone, Copy, Debug, PartialEq, Eq)]
pub struct Moment {
    /// The moment.
    pub clock: u64,
    /// For how long.
    pub timeout: u64,
}

/// What came of it.
#[derive(Drop)]
pub struct ActedParts {
    /// What octets were.
    pub heard: Heard,
    /// What is sent.
    pub sending: Option<Sending>,
}

impl Model for ActedParts {
    ghost use Rattle.hickory_resolver_traffic.specs.Acting.{ActedValue};

    ghost Value = { ActedValue };

    ghost view = { λ a. record { heard = a.heard; sending = a.sending } };
}

/// A moment so much later.
pub fn later(moment: u64, by: u64) -> u64
    ensures { result ≡ later moment by }
{
    moment.saturating_add(by)
}

impl Moment {
    fn telling(&self) -> Telling
        ensures { result ≡ telling_of self.now }
    {
        Telling {
            moment: self.clock,
            timeout: self.timeout,
        }
    }

    fn step(&self, transaction: u64) -> Step
        ensures { result ≡ step_of transaction self.now }
    {
        Step {
            transaction,
            moment: self.clock,
            until: later(self.clock, self.timeout),
        }
    }
}

fn nothing() -> ActedParts
    ensures { result ≡ nothing_acted }
{
    ActedParts {
        heard: Heard::Nothing,
        sending: None,
    }
}

// With these servers. A refused call changes nothing.
fn act_with(
    shared: &mut Shared,
    servers: &mut ServerList,
    flying: &mut Flying,
    alloc: Global,
    what: ServerAct,
    number: u64,
    moment: &Moment,
    octets: &[u8],
) -> Result<ActedParts, AllocError>
    ensures value { IfOk result (λ v. v ≡ acted_value what number moment.now octets.now
        (record { shared = shared.old; servers = servers.old; flying = flying.old })) }
    ensures ok { OnOk result (record { shared = shared.new; servers = servers.new; flying = flying.new }
        ≡ acted what number moment.now octets.now
        (record { shared = shared.old; servers = servers.old; flying = flying.old })) }
    ensures shared { OnErr result (shared.new ≡ shared.old) }
    ensures servers { OnErr result (servers.new ≡ servers.old) }
    ensures flying { OnErr result (flying.new ≡ flying.old) }
{
    match what {
        ServerAct::Hear(channel, id) => {
            let heard = hear(
                &shared.channels,
                servers,
                &mut flying.flight,
                alloc,
                &moment.telling(),
                channel,
                id,
                octets,
            )?;
            Ok(ActedParts {
                heard,
                sending: None,
            })
        }
        ServerAct::Fail(channel) => {
            fail(
                &shared.channels,
                servers,
                &mut flying.flight,
                &moment.telling(),
                channel,
            )?;
            Ok(nothing())
        }
        ServerAct::Expire => {
            expire(
                &shared.channels,
                servers,
                &mut flying.flight,
                &moment.telling(),
            )?;
            Ok(nothing())
        }
        ServerAct::Send => {
            let sending = send(shared, servers, flying, alloc, &moment.step(number))?;
            Ok(ActedParts {
                heard: Heard::Nothing,
                sending,
            })
        }
    }
}

/// A transaction does something with the servers of its list, where there is such a list. A refused call changes
/// nothing.
pub fn act(
    shared: &mut Shared,
    lists: &mut Lists,
    flying: &mut Flying,
    alloc: Global,
    what: ServerAct,
    number: u64,
    moment: &Moment,
    octets: &[u8],
    list: u64,
) -> Result<ActedParts, AllocError>
    ensures value { IfOk result (λ v. v ≡ value_on what number moment.now octets.now list
        (record { shared = shared.old; lists = lists.old.entries; flying = flying.old })) }
    ensures ok { OnOk result (record { shared = shared.new; lists = lists.new.entries; flying = flying.new }
        ≡ acted_on what number moment.now octets.now list
        (record { shared = shared.old; lists = lists.old.entries; flying = flying.old })) }
    ensures shared { OnErr result (shared.new ≡ shared.old) }
    ensures lists { OnErr result (lists.new.entries ≡ lists.old.entries) }
    ensures flying { OnErr result (flying.new ≡ flying.old) }
{
    match lists.get_mut(&list) {
        None => Ok(nothing()),
        Some(held) => act_with(
            shared,
            &mut held.servers,
            flying,
            alloc,
            what,
            number,
            moment,
            octets,
        ),
    }
}
