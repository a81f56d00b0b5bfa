//! The maps of the channels.
ghost use Rattle.std.specs.Prelude.{◌≡◌, slice_get, OnOk, OnErr};
ghost use Rattle.std.specs.Ordering.{nat_cmp};
ghost use Rattle.std.specs.Map.{lookup, remove_entry};
ghost use Rattle.std.specs.BTreeMap.{insert_entry, is_at};
ghost use Rattle.std.specs.BTreeSet.{insert_key};
ghost use Rattle.hickory_resolver_channels.specs.Channels.{pair_cmp, channel_in, replaced, not_idle, first_on};

use crate::channel::Channel;
use std::alloc::AllocError;
use std::collections::{BTreeMap, BTreeSet};

/// Channels by number.
pub type ByNumber = BTreeMap<u64, Channel>;

/// The transactions of tries, by the numbers of channel and message.
pub type Tries = BTreeMap<(u64, u16), u64>;

/// Streams by the moment up to which they are kept.
pub type Idle = BTreeSet<(u64, u64)>;

// The channel of a number.
pub(crate) fn channel_in(channels: &ByNumber, number: u64) -> Option<Channel>
    ensures { result ≡ channel_in number channels.now.entries }
{
    channels.get(&number).copied()
}

// Adds a channel.
pub(crate) fn insert(
    channels: &mut ByNumber,
    number: u64,
    channel: &Channel,
) -> Result<(), AllocError>
    ensures ok { OnOk result (channels.new.entries ≡ insert_entry nat_cmp channels.old.entries number channel.now) }
    ensures err { OnErr result (channels.new.entries ≡ channels.old.entries) }
{
    channels.insert(number, *channel)?;
    Ok(())
}

// This one in the place of the channel of a number.
pub(crate) fn replace(channels: &mut ByNumber, number: u64, channel: &Channel)
    ensures { channels.new.entries ≡ replaced number channel.now channels.old.entries }
{
    if let Some(held) = channels.get_mut(&number) {
        *held = *channel;
    }
}

pub(crate) fn remove(channels: &mut ByNumber, number: u64)
    ensures { channels.new.entries ≡ remove_entry (is_at (nat_cmp number)) channels.old.entries }
{
    channels.remove(&number);
}

// ---- tries

pub(crate) fn transaction_in(tries: &Tries, number: u64, id: u16) -> Option<u64>
    ensures { result ≡ lookup (is_at (pair_cmp (number, id))) tries.now.entries }
{
    tries.get(&(number, id)).copied()
}

// The first try on a channel: its number, and its transaction.
pub(crate) fn first_on(tries: &Tries, number: u64) -> Option<(u16, u64)>
    ensures { result ≡ first_on number tries.now.entries }
{
    let mut on_channel = tries.range((number, 0)..=(number, u16::MAX));
    match on_channel.next() {
        Some((key, transaction)) => Some((key.1, *transaction)),
        None => None,
    }
}

pub(crate) fn insert_try(
    tries: &mut Tries,
    number: u64,
    id: u16,
    transaction: u64,
) -> Result<(), AllocError>
    ensures ok { OnOk result (tries.new.entries ≡ insert_entry pair_cmp tries.old.entries (number, id) transaction) }
    ensures err { OnErr result (tries.new.entries ≡ tries.old.entries) }
{
    tries.insert((number, id), transaction)?;
    Ok(())
}

pub(crate) fn remove_try(tries: &mut Tries, number: u64, id: u16)
    ensures { tries.new.entries ≡ remove_entry (is_at (pair_cmp (number, id))) tries.old.entries }
{
    tries.remove(&(number, id));
}

// Adds a channel with a try. Where a try of this number is there already, memory is refused: a new channel has none.
pub(crate) fn insert_both(
    channels: &mut ByNumber,
    tries: &mut Tries,
    number: u64,
    id: u16,
    channel: &Channel,
    transaction: u64,
) -> Result<(), AllocError>
    ensures channel { OnOk result (channels.new.entries
        ≡ insert_entry nat_cmp channels.old.entries number channel.now) }
    ensures tried { OnOk result (tries.new.entries
        ≡ insert_entry pair_cmp tries.old.entries (number, id) transaction) }
    ensures err { OnErr result (channels.new.entries ≡ channels.old.entries) }
    ensures untried { OnErr result (tries.new.entries ≡ tries.old.entries) }
{
    if transaction_in(tries, number, id).is_some() {
        return Err(AllocError);
    }
    insert_try(tries, number, id, transaction)?;
    match insert(channels, number, channel) {
        Ok(()) => Ok(()),
        Err(AllocError) => {
            remove_try(tries, number, id);
            Err(AllocError)
        }
    }
}

// ---- streams without a try

// The one that is kept the shortest, after its moment.
pub(crate) fn first_in(idle: &Idle) -> Option<(u64, u64)>
    ensures { result ≡ slice_get idle.now.keys 0 }
{
    idle.first().copied()
}

pub(crate) fn insert_idle(idle: &mut Idle, until: u64, number: u64) -> Result<(), AllocError>
    ensures ok { OnOk result (idle.new.keys ≡ insert_key pair_cmp idle.old.keys (until, number)) }
    ensures err { OnErr result (idle.new.keys ≡ idle.old.keys) }
{
    idle.insert((until, number))?;
    Ok(())
}

// It is not without a try any more, or is closed.
pub(crate) fn remove_idle(idle: &mut Idle, number: u64, until: Option<u64>)
    ensures { idle.new.keys ≡ not_idle number until idle.old.keys }
{
    if let Some(until) = until {
        idle.remove(&(until, number));
    }
}
