//! What a session that asks by itself knows: how long it may wait, and what it did.
ghost use Rattle.std.specs.Prelude.{◌≡◌};
ghost use Rattle.yimarotu_c.specs.Knowing.{AreStatistics, AsksHeld, IsWait, no_statistics, no_wait, statistics_of, wait_of};
ghost use Rattle.yimarotu_c.specs.declared.status.Status.TheVariants as status;

use crate::sessions::{YimarotuSession, put, take};
use crate::status::Status;
use std::alloc::Global;
use yimarotu_embedded::{DrivenSession, Held};

/// How long a program may wait.
#[repr(C)]
#[derive(Drop)]
pub struct YimarotuWaits {
    /// The number of a status.
    pub status: u8,
    /// Whether time ends something.
    pub has_deadline: bool,
    /// For how many milliseconds it ends nothing; 0 where there is no such time.
    pub milliseconds: u64,
}

/// Tells for how many milliseconds from a moment on time ends nothing.
#[unsafe(no_mangle)]
pub extern "C" fn yimarotu_wait(
    alloc: Global,
    session: &mut YimarotuSession,
    moment: u64,
) -> YimarotuWaits
    ensures { AsksHeld (IsWait moment) (no_wait status.Closed) session.old.inside.value result session.new.inside.value }
{
    let Some(inside) = take(alloc, session) else {
        return no_wait(Status::Closed);
    };
    let wait = wait(&inside, moment);
    put(session, inside);
    wait
}

fn wait(held: &Held, moment: u64) -> YimarotuWaits
    ensures { IsWait moment held.now result }
{
    match held {
        Held::Fed(_) => no_wait(Status::IsFed),
        Held::Driven(session) => wait_of(session.next_deadline(), moment),
    }
}

fn wait_of(deadline: Option<u64>, moment: u64) -> YimarotuWaits
    ensures { result ≡ wait_of deadline moment }
{
    match deadline {
        Some(deadline) => YimarotuWaits {
            status: Status::Ok.number(),
            has_deadline: true,
            milliseconds: deadline.saturating_sub(moment),
        },
        None => no_wait(Status::Ok),
    }
}

fn no_wait(status: Status) -> YimarotuWaits
    ensures { result ≡ no_wait status }
{
    YimarotuWaits {
        status: status.number(),
        has_deadline: false,
        milliseconds: 0,
    }
}

/// What a session did and holds.
#[repr(C)]
#[derive(Drop)]
pub struct YimarotuStatisticsTold {
    /// The number of a status.
    pub status: u8,
    /// Whether the octets of the cache are bounded, and so counted.
    pub is_bounded: bool,
    /// How many look-ups were started.
    pub started: u64,
    /// How many of them were done at once.
    pub done_at_once: u64,
    /// How many messages were to be sent.
    pub sent: u64,
    /// How many look-ups came to a timeout.
    pub timed_out: u64,
    /// How many results the cache has, current or not.
    pub entries: u64,
    /// How many octets they weigh; 0 where these are not bounded.
    pub octets: u64,
}

/// Tells what a session did and holds.
#[unsafe(no_mangle)]
pub extern "C" fn yimarotu_statistics(
    alloc: Global,
    session: &mut YimarotuSession,
) -> YimarotuStatisticsTold
    ensures { AsksHeld AreStatistics (no_statistics status.Closed) session.old.inside.value result
        session.new.inside.value }
{
    let Some(inside) = take(alloc, session) else {
        return no_statistics(Status::Closed);
    };
    let statistics = statistics(&inside);
    put(session, inside);
    statistics
}

fn statistics(held: &Held) -> YimarotuStatisticsTold
    ensures { AreStatistics held.now result }
{
    match held {
        Held::Fed(_) => no_statistics(Status::IsFed),
        Held::Driven(session) => statistics_of(session),
    }
}

fn statistics_of(session: &DrivenSession) -> YimarotuStatisticsTold
    ensures { result ≡ statistics_of session.now }
{
    let counts = session.counts();
    let octets = session.cache_octets();
    YimarotuStatisticsTold {
        status: Status::Ok.number(),
        is_bounded: octets.is_some(),
        started: counts.started,
        done_at_once: counts.done_at_once,
        sent: counts.sent,
        timed_out: counts.timed_out,
        entries: session.cache_len() as u64,
        octets: octets.unwrap_or(0),
    }
}

fn no_statistics(status: Status) -> YimarotuStatisticsTold
    ensures { result ≡ no_statistics status }
{
    YimarotuStatisticsTold {
        status: status.number(),
        is_bounded: false,
        started: 0,
        done_at_once: 0,
        sent: 0,
        timed_out: 0,
        entries: 0,
        octets: 0,
    }
}
