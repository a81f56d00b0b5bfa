//! What happens around a forwarder.
ghost use Rattle.std.specs.Prelude.{◌≡◌, ◌⊎◌, IfOk, Option};
ghost use Rattle.yimarotu_forwarder_c.specs.Calls.{OnOpen};
ghost use Rattle.yimarotu_forwarder_c.specs.Happening.{Comes, FailsAt, IsChannelFailure, Leaves, Passes, taken_in};
ghost use Rattle.yimarotu_forwarder_c.specs.Statuses.{number_of};
ghost use Rattle.yimarotu_forwarder_c.specs.declared.status.Status.TheVariants as status;

use crate::forwarders::{YimarotuForwarder, put, take};
use crate::status::Status;
use hickory_resolver_pool::Failure;
use std::alloc::{AllocError, Global};
use yimarotu_driven_forwarder::DrivenForwarder;

/// No request of this client is replied to any more.
#[unsafe(no_mangle)]
pub extern "C" fn yimarotu_forwarder_gone(
    alloc: Global,
    forwarder: &mut YimarotuForwarder,
    client: u64,
) -> u8
    ensures { OnOpen (Leaves client) (number_of status.Closed) forwarder.old.inside.value result
        forwarder.new.inside.value }
{
    let Some(mut inside) = take(alloc, forwarder) else {
        return Status::Closed.number();
    };
    let ended = leave(&mut inside, client);
    put(forwarder, inside);
    ended
}

fn leave(forwarder: &mut DrivenForwarder, client: u64) -> u8
    ensures { Leaves client forwarder.old result forwarder.new }
{
    forwarder.gone(client);
    Status::Ok.number()
}

/// Octets came on a channel, at a moment (milliseconds): a datagram, or a piece of a stream, cut anywhere.
#[unsafe(no_mangle)]
pub extern "C" fn yimarotu_forwarder_came(
    alloc: Global,
    forwarder: &mut YimarotuForwarder,
    channel: u64,
    octets: &[u8],
    moment: u64,
) -> u8
    ensures { OnOpen (Comes channel octets.now moment) (number_of status.Closed) forwarder.old.inside.value result
        forwarder.new.inside.value }
{
    let Some(mut inside) = take(alloc, forwarder) else {
        return Status::Closed.number();
    };
    let ended = come(&mut inside, channel, octets, moment);
    put(forwarder, inside);
    ended
}

fn come(forwarder: &mut DrivenForwarder, channel: u64, octets: &[u8], moment: u64) -> u8
    ensures { Comes channel octets.now moment forwarder.old result forwarder.new }
{
    taken_in(forwarder.came(channel, octets, moment)).number()
}

/// A channel failed, at a moment (milliseconds), in a way that has this number.
#[unsafe(no_mangle)]
pub extern "C" fn yimarotu_forwarder_failed(
    alloc: Global,
    forwarder: &mut YimarotuForwarder,
    channel: u64,
    failure: u8,
    moment: u64,
) -> u8
    ensures { OnOpen (FailsAt channel failure moment) (number_of status.Closed) forwarder.old.inside.value result
        forwarder.new.inside.value }
{
    let Some(mut inside) = take(alloc, forwarder) else {
        return Status::Closed.number();
    };
    let ended = fail(&mut inside, channel, failure, moment);
    put(forwarder, inside);
    ended
}

fn fail(forwarder: &mut DrivenForwarder, channel: u64, failure: u8, moment: u64) -> u8
    ensures { FailsAt channel failure moment forwarder.old result forwarder.new }
{
    match channel_failure(failure) {
        Some(why) => taken_in(forwarder.failed(channel, why, moment)).number(),
        None => Status::Kind.number(),
    }
}

// The failure of a number.
fn channel_failure(number: u8) -> Option<Failure>
    ensures { IsChannelFailure number result }
{
    match number {
        1 => Some(Failure::Refused),
        2 => Some(Failure::Unreachable),
        3 => Some(Failure::Closed),
        4 => Some(Failure::Local),
        _ => None,
    }
}

/// Time passed, up to a moment (milliseconds).
#[unsafe(no_mangle)]
pub extern "C" fn yimarotu_forwarder_tick(
    alloc: Global,
    forwarder: &mut YimarotuForwarder,
    moment: u64,
) -> u8
    ensures { OnOpen (Passes moment) (number_of status.Closed) forwarder.old.inside.value result
        forwarder.new.inside.value }
{
    let Some(mut inside) = take(alloc, forwarder) else {
        return Status::Closed.number();
    };
    let ended = pass(&mut inside, moment);
    put(forwarder, inside);
    ended
}

fn pass(forwarder: &mut DrivenForwarder, moment: u64) -> u8
    ensures { Passes moment forwarder.old result forwarder.new }
{
    forwarder.tick(moment);
    Status::Ok.number()
}

fn taken_in(ended: Result<(), AllocError>) -> Status
    ensures { result ≡ taken_in ended }
{
    match ended {
        Ok(()) => Status::Ok,
        Err(AllocError) => Status::NoMemory,
    }
}
