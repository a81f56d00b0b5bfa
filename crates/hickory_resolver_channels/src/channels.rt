//! The channels that are open, and the tries on them.
ghost use Rattle.std.specs.Prelude.{◌≡◌, IfOk, OnOk, OnErr};
ghost use Rattle.std.specs.Option.{is_some};
ghost use Rattle.hickory_resolver_channels.specs.Channels.{no_channels, channel_at, transaction_at, first_try, has_try, first_idle, has_place, number_given, opened, opened_for, joinable, joined_to, joined, if_it_takes_try, left_to_others, left_idle, left_closed, left_last, left_in, channel_of_try, left, closes_last, closes, has_others, if_empty, closable, closed_one, closed};

use crate::channel::{Channel, ChannelKind, ChannelLimits};
use crate::maps::{
    ByNumber, Idle, Tries, channel_in, first_in, first_on, insert, insert_both, insert_idle,
    insert_try, remove, remove_idle, remove_try, replace, transaction_in,
};
use std::alloc::{AllocError, Global};
use std::collections::{BTreeMap, BTreeSet};
use std::marker::Model;

/// The channels that are open, within limits. No number is given twice.
#[derive(Drop)]
pub struct Channels {
    limits: ChannelLimits,
    next: u64,
    channels: ByNumber,
    tries: Tries,
    idle: Idle,
}

impl Model for Channels {
    ghost use Rattle.hickory_resolver_channels.specs.Channels.{ChannelsState};

    ghost Value = { ChannelsState };

    ghost view = { λ c. record {
      limits = c.limits;
      next = c.next;
      channels = c.channels.entries;
      tries = c.tries.entries;
      idle = c.idle.keys;
    } };
}

impl Channels {
    /// No channels, and how many there may be.
    pub fn new(alloc: Global, limits: ChannelLimits) -> Channels
        ensures { result ≡ no_channels limits }
    {
        Channels {
            limits,
            next: 0,
            channels: BTreeMap::new(alloc),
            tries: BTreeMap::new(alloc),
            idle: BTreeSet::new(alloc),
        }
    }

    /// The channel of a number, where it is open.
    pub fn channel(&self, number: u64) -> Option<Channel>
        ensures { result ≡ channel_at number self.now }
    {
        channel_in(&self.channels, number)
    }

    /// The transaction of the try on this channel with this number.
    pub fn transaction(&self, number: u64, id: u16) -> Option<u64>
        ensures { result ≡ transaction_at number id self.now }
    {
        transaction_in(&self.tries, number, id)
    }

    /// The first try on a channel, by the numbers of their messages: its number, and its transaction.
    pub fn first_try(&self, number: u64) -> Option<(u16, u64)>
        ensures { result ≡ first_try number self.now }
    {
        first_on(&self.tries, number)
    }

    /// Of the streams without a try the one that is kept the shortest: up to when, and its number.
    pub fn first_idle(&self) -> Option<(u64, u64)>
        ensures { result ≡ first_idle self.now }
    {
        first_in(&self.idle)
    }

    // Whether there may be one channel more.
    fn has_place(&self) -> bool
        ensures { result ≡ has_place self.now }
    {
        self.channels.len() < self.limits.channels
    }

    /// The number of the channel that is opened next, where there may be one more.
    pub fn number_given(&self) -> Option<u64>
        ensures { result ≡ number_given self.now }
    {
        if self.has_place() {
            Some(self.next)
        } else {
            None
        }
    }

    /// Opens a channel to a server and answers its number, unless there are as many as there may be. Once the numbers
    /// have run out, after 2^64 - 1 of them, memory is refused. A refused call changes nothing.
    pub fn open_channel(
        &mut self,
        server: u64,
        kind: ChannelKind,
    ) -> Result<Option<u64>, AllocError>
        ensures number { IfOk result (λ number. number ≡ number_given self.old) }
        ensures ok { OnOk result (self.new ≡ opened server kind self.old) }
        ensures err { OnErr result (self.new ≡ self.old) }
    {
        if !self.has_place() {
            return Ok(None);
        }
        let number = self.next;
        let Some(next) = number.checked_add(1) else {
            return Err(AllocError);
        };
        insert(&mut self.channels, number, &Channel::new(server, kind))?;
        self.next = next;
        Ok(Some(number))
    }

    /// The same for a try, which is on the channel from the first.
    pub fn open_for(
        &mut self,
        server: u64,
        kind: ChannelKind,
        id: u16,
        transaction: u64,
    ) -> Result<Option<u64>, AllocError>
        ensures number { IfOk result (λ number. number ≡ number_given self.old) }
        ensures ok { OnOk result (self.new ≡ opened_for server kind id transaction self.old) }
        ensures err { OnErr result (self.new ≡ self.old) }
    {
        if !self.has_place() {
            return Ok(None);
        }
        let number = self.next;
        let Some(next) = number.checked_add(1) else {
            return Err(AllocError);
        };
        let channel = Channel::new(server, kind).with_one_more();
        insert_both(
            &mut self.channels,
            &mut self.tries,
            number,
            id,
            &channel,
            transaction,
        )?;
        self.next = next;
        Ok(Some(number))
    }

    // ---- tries

    fn has_try(&self, number: u64, id: u16) -> bool
        ensures { result ≡ has_try number id self.now }
    {
        self.transaction(number, id).is_some()
    }

    // The channel, where it takes one try more and has none of this number.
    fn joinable(&self, number: u64, id: u16) -> Option<Channel>
        ensures { result ≡ joinable number id self.now }
    {
        if self.has_try(number, id) {
            return None;
        }
        match self.channel(number) {
            Some(channel) => if_it_takes_try(&self.limits, &channel),
            None => None,
        }
    }

    /// Whether a channel takes a try of this number.
    pub fn takes(&self, number: u64, id: u16) -> bool
        ensures { result ≡ is_some (joinable number id self.now) }
    {
        self.joinable(number, id).is_some()
    }

    /// Puts a try on a channel, and tells whether it could: where there is such a channel, it takes one try more, and
    /// none on it has this number. A refused call changes nothing.
    pub fn join(&mut self, number: u64, id: u16, transaction: u64) -> Result<bool, AllocError>
        ensures told { IfOk result (λ is_joined. is_joined ≡ is_some (joinable number id self.old)) }
        ensures ok { OnOk result (self.new ≡ joined number id transaction self.old) }
        ensures err { OnErr result (self.new ≡ self.old) }
    {
        match self.joinable(number, id) {
            None => Ok(false),
            Some(channel) => {
                self.join_to(number, id, transaction, &channel)?;
                Ok(true)
            }
        }
    }

    fn join_to(
        &mut self,
        number: u64,
        id: u16,
        transaction: u64,
        channel: &Channel,
    ) -> Result<(), AllocError>
        ensures ok { OnOk result (self.new ≡ joined_to number id transaction self.old channel.now) }
        ensures err { OnErr result (self.new ≡ self.old) }
    {
        insert_try(&mut self.tries, number, id, transaction)?;
        replace(&mut self.channels, number, &channel.with_one_more());
        remove_idle(&mut self.idle, number, channel.idle_until);
        Ok(())
    }

    // The channel of a try.
    fn channel_of_try(&self, number: u64, id: u16) -> Option<Channel>
        ensures { result ≡ channel_of_try number id self.now }
    {
        if self.has_try(number, id) {
            self.channel(number)
        } else {
            None
        }
    }

    /// A try is not on a channel any more, where it was. Where it was the last, a stream is kept up to a moment, and a
    /// datagram channel is closed. Tells whether a channel is closed. A refused call changes nothing.
    pub fn leave(&mut self, number: u64, id: u16, until: u64) -> Result<bool, AllocError>
        ensures told { IfOk result (λ is_closed. is_closed ≡ closes number id self.old) }
        ensures ok { OnOk result (self.new ≡ left number id until self.old) }
        ensures err { OnErr result (self.new ≡ self.old) }
    {
        match self.channel_of_try(number, id) {
            None => Ok(false),
            Some(channel) => {
                self.leave_channel(number, id, until, &channel)?;
                Ok(closes_last(&channel))
            }
        }
    }

    fn leave_channel(
        &mut self,
        number: u64,
        id: u16,
        until: u64,
        channel: &Channel,
    ) -> Result<(), AllocError>
        ensures ok { OnOk result (self.new ≡ left_in number id until self.old channel.now) }
        ensures err { OnErr result (self.new ≡ self.old) }
    {
        if has_others(channel) {
            self.leave_to_others(number, id, channel);
            return Ok(());
        }
        self.leave_last(number, id, until, channel)
    }

    fn leave_to_others(&mut self, number: u64, id: u16, channel: &Channel)
        ensures { self.new ≡ left_to_others number id channel.now self.old }
    {
        remove_try(&mut self.tries, number, id);
        replace(&mut self.channels, number, &channel.with_one_less(None));
    }

    fn leave_last(
        &mut self,
        number: u64,
        id: u16,
        until: u64,
        channel: &Channel,
    ) -> Result<(), AllocError>
        ensures ok { OnOk result (self.new ≡ left_last number id until channel.now channel.now.kind self.old) }
        ensures err { OnErr result (self.new ≡ self.old) }
    {
        match channel.kind {
            ChannelKind::Datagram => {
                self.leave_closed(number, id);
                Ok(())
            }
            ChannelKind::Stream => self.leave_idle(number, id, until, channel),
        }
    }

    fn leave_closed(&mut self, number: u64, id: u16)
        ensures { self.new ≡ left_closed number id self.old }
    {
        remove_try(&mut self.tries, number, id);
        remove(&mut self.channels, number);
    }

    fn leave_idle(
        &mut self,
        number: u64,
        id: u16,
        until: u64,
        channel: &Channel,
    ) -> Result<(), AllocError>
        ensures ok { OnOk result (self.new ≡ left_idle number id until channel.now self.old) }
        ensures err { OnErr result (self.new ≡ self.old) }
    {
        insert_idle(&mut self.idle, until, number)?;
        remove_try(&mut self.tries, number, id);
        replace(
            &mut self.channels,
            number,
            &channel.with_one_less(Some(until)),
        );
        Ok(())
    }

    // ---- closing

    // The channel of a number, where there is no try on it.
    fn closable(&self, number: u64) -> Option<Channel>
        ensures { result ≡ closable number self.now }
    {
        match self.channel(number) {
            Some(channel) => if_empty(&channel),
            None => None,
        }
    }

    /// Closes a channel on which there is no try, and tells whether there was one.
    pub fn close(&mut self, number: u64) -> bool
        ensures told { result ≡ is_some (closable number self.old) }
        ensures after { self.new ≡ closed number self.old }
    {
        match self.closable(number) {
            None => false,
            Some(channel) => {
                remove(&mut self.channels, number);
                remove_idle(&mut self.idle, number, channel.idle_until);
                true
            }
        }
    }
}

// ---- a channel by its tries

fn if_it_takes_try(limits: &ChannelLimits, channel: &Channel) -> Option<Channel>
    ensures { result ≡ if_it_takes_try limits.now channel.now }
{
    if channel.takes_try(limits) {
        Some(*channel)
    } else {
        None
    }
}

fn if_empty(channel: &Channel) -> Option<Channel>
    ensures { result ≡ if_empty channel.now }
{
    if channel.tries == 0 {
        Some(*channel)
    } else {
        None
    }
}

fn has_others(channel: &Channel) -> bool
    ensures { result ≡ has_others channel.now }
{
    channel.tries > 1
}

// Whether the end of its last try closes it.
fn closes_last(channel: &Channel) -> bool
    ensures { result ≡ closes_last channel.now channel.now.kind }
{
    match channel.kind {
        ChannelKind::Datagram => !has_others(channel),
        ChannelKind::Stream => false,
    }
}
