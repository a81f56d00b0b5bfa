//! What happens around a session that asks by itself.
ghost use Rattle.std.specs.Prelude.{◌≡◌, ◌⊎◌, IfOk, Option};
ghost use Rattle.yimarotu_c.specs.Happening.{Comes, FailsAt, IsChannelFailure, Passes, TakesServers, cleared_if, servers_status, taken_in};
ghost use Rattle.yimarotu_c.specs.LookingUp.{OnOpen};
ghost use Rattle.yimarotu_c.specs.Statuses.{number_of};
ghost use Rattle.yimarotu_c.specs.declared.status.Status.TheVariants as status;
ghost use Rattle.yimarotu_embedded.specs.Held.{OnDriven};

use crate::sessions::{YimarotuSession, put, take};
use crate::status::Status;
use hickory_resolver_pool::{Failure, ServersError};
use session_settings::read_servers;
use std::alloc::{AllocError, Global};
use yimarotu_embedded::{DrivenSession, Held};

/// Octets came on a channel, at a moment (milliseconds): a datagram, or a piece of a stream, cut anywhere.
#[unsafe(no_mangle)]
pub extern "C" fn yimarotu_came(
    alloc: Global,
    session: &mut YimarotuSession,
    channel: u64,
    octets: &[u8],
    moment: u64,
) -> u8
    ensures { OnOpen (OnDriven (Comes channel octets.now moment) (number_of status.IsFed)) (number_of status.Closed)
        session.old.inside.value result session.new.inside.value }
{
    let Some(mut inside) = take(alloc, session) else {
        return Status::Closed.number();
    };
    let ended = came(&mut inside, channel, octets, moment);
    put(session, inside);
    ended
}

fn came(held: &mut Held, channel: u64, octets: &[u8], moment: u64) -> u8
    ensures { OnDriven (Comes channel octets.now moment) (number_of status.IsFed) held.old result held.new }
{
    match held {
        Held::Fed(_) => Status::IsFed.number(),
        Held::Driven(session) => taken_in(session.came(channel, octets, moment)).number(),
    }
}

/// A channel failed, at a moment (milliseconds), in a way that has this number.
#[unsafe(no_mangle)]
pub extern "C" fn yimarotu_failed(
    alloc: Global,
    session: &mut YimarotuSession,
    channel: u64,
    failure: u8,
    moment: u64,
) -> u8
    ensures { OnOpen (OnDriven (FailsAt channel failure moment) (number_of status.IsFed)) (number_of status.Closed)
        session.old.inside.value result session.new.inside.value }
{
    let Some(mut inside) = take(alloc, session) else {
        return Status::Closed.number();
    };
    let ended = failed(&mut inside, channel, failure, moment);
    put(session, inside);
    ended
}

fn failed(held: &mut Held, channel: u64, failure: u8, moment: u64) -> u8
    ensures { OnDriven (FailsAt channel failure moment) (number_of status.IsFed) held.old result held.new }
{
    match held {
        Held::Fed(_) => Status::IsFed.number(),
        Held::Driven(session) => fail(session, channel, failure, moment),
    }
}

fn fail(session: &mut DrivenSession, channel: u64, failure: u8, moment: u64) -> u8
    ensures { FailsAt channel failure moment session.old result session.new }
{
    match channel_failure(failure) {
        Some(why) => taken_in(session.failed(channel, why, moment)).number(),
        None => Status::Kind.number(),
    }
}

// The failure of a number.
fn channel_failure(number: u8) -> Option<Failure>
    ensures { IsChannelFailure number result }
{
    match number {
        1 => Some(Failure::Refused),
        2 => Some(Failure::Unreachable),
        3 => Some(Failure::Closed),
        4 => Some(Failure::Local),
        _ => None,
    }
}

/// Time passed, up to a moment (milliseconds).
#[unsafe(no_mangle)]
pub extern "C" fn yimarotu_tick(alloc: Global, session: &mut YimarotuSession, moment: u64) -> u8
    ensures { OnOpen (OnDriven (Passes moment) (number_of status.IsFed)) (number_of status.Closed)
        session.old.inside.value result session.new.inside.value }
{
    let Some(mut inside) = take(alloc, session) else {
        return Status::Closed.number();
    };
    let ended = tick(&mut inside, moment);
    put(session, inside);
    ended
}

fn tick(held: &mut Held, moment: u64) -> u8
    ensures { OnDriven (Passes moment) (number_of status.IsFed) held.old result held.new }
{
    match held {
        Held::Fed(_) => Status::IsFed.number(),
        Held::Driven(session) => {
            session.tick(moment);
            Status::Ok.number()
        }
    }
}

/// Asks the servers of a file resolv.conf from now on. The flag says whether the cache is emptied.
#[unsafe(no_mangle)]
pub extern "C" fn yimarotu_servers(
    alloc: Global,
    session: &mut YimarotuSession,
    conf: &[u8],
    clears: bool,
) -> u8
    ensures { OnOpen (OnDriven (TakesServers conf.now clears) (number_of status.IsFed)) (number_of status.Closed)
        session.old.inside.value result session.new.inside.value }
{
    let Some(mut inside) = take(alloc, session) else {
        return Status::Closed.number();
    };
    let ended = servers(alloc, &mut inside, conf, clears);
    put(session, inside);
    ended
}

fn servers(alloc: Global, held: &mut Held, conf: &[u8], clears: bool) -> u8
    ensures { OnDriven (TakesServers conf.now clears) (number_of status.IsFed) held.old result held.new }
{
    match held {
        Held::Fed(_) => Status::IsFed.number(),
        Held::Driven(session) => take_servers(alloc, session, conf, clears).number(),
    }
}

fn take_servers(alloc: Global, session: &mut DrivenSession, conf: &[u8], clears: bool) -> Status
    ensures { TakesServers conf.now clears session.old (number_of result) session.new }
{
    let Ok(servers) = read_servers(alloc, conf) else {
        return Status::NoMemory;
    };
    match session.set_servers(&servers) {
        Ok(()) => {
            clear_if(session, clears);
            Status::Ok
        }
        Err(error) => servers_status(error),
    }
}

fn clear_if(session: &mut DrivenSession, clears: bool)
    ensures { session.new ≡ cleared_if clears session.old }
{
    if clears {
        session.clear();
    }
}

fn servers_status(error: ServersError) -> Status
    ensures { result ≡ servers_status error }
{
    match error {
        ServersError::FixedPort(_) => Status::Script,
        ServersError::OutOfMemory => Status::NoMemory,
    }
}

fn taken_in(ended: Result<(), AllocError>) -> Status
    ensures { result ≡ taken_in ended }
{
    match ended {
        Ok(()) => Status::Ok,
        Err(AllocError) => Status::NoMemory,
    }
}
