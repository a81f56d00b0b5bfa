//! What comes of a try, and what that tells of its server.
ghost use Rattle.std.specs.Prelude.{◌≡◌, IfOk, OnOk, OnErr};
ghost use Rattle.hickory_resolver_flights.specs.Flights.{heard, meaning, changed};
ghost use Rattle.hickory_resolver_transactions.specs.Transaction.{failed, expired};
ghost use Rattle.hickory_resolver_steps.specs.Telling.{measure_of_reply, measure_of, measured, place_on, told_of, servers_heard_to, servers_heard, servers_failed, late_at, servers_late_to, servers_late};

use crate::list::ServerList;
use hickory_resolver_channels::Channels;
use hickory_resolver_flights::{Flight, Heard};
use hickory_resolver_transactions::Try;
use hickory_resolver_tries::ReplyOutcome;
use std::alloc::{AllocError, Global};

/// What is told of a server.
#[derive(Clone, Copy, Debug, PartialEq, Eq)]
pub enum Measure {
    /// It answered.
    Answered,
    /// It failed.
    Failed,
    /// Nothing.
    Nothing,
}

/// When it is told, and after how long nothing is waited for, in milliseconds.
#[derive(Clone, Copy, Debug, PartialEq, Eq)]
pub struct Telling {
    /// The moment.
    pub moment: u64,
    /// The timeout.
    pub timeout: u64,
}

fn measure_of_reply(outcome: ReplyOutcome) -> Measure
    ensures { result ≡ measure_of_reply outcome }
{
    match outcome {
        ReplyOutcome::Truncated | ReplyOutcome::Answer | ReplyOutcome::Negative => {
            Measure::Answered
        }
        ReplyOutcome::WithoutOpt => Measure::Nothing,
        ReplyOutcome::BadRest | ReplyOutcome::Code(_) | ReplyOutcome::Lame => Measure::Failed,
    }
}

fn measure_of(heard: Heard) -> Measure
    ensures { result ≡ measure_of heard }
{
    match heard {
        Heard::Reply(outcome) => measure_of_reply(outcome),
        _ => Measure::Nothing,
    }
}

// The place of the server of a channel.
fn place_on(channel: u64, channels: &Channels, list: &ServerList) -> Option<usize>
    ensures { result ≡ place_on channel channels.now list.now }
{
    match channels.channel(channel) {
        Some(held) => Some(list.place_of(held.server)),
        None => None,
    }
}

fn note_measure(list: &mut ServerList, what: Measure, at: &Telling, tried: &Try, place: usize)
    ensures { list.new ≡ measured what at.now tried.now place list.old }
{
    match what {
        Measure::Answered => list.answered(place, tried.sent_at, at.moment),
        Measure::Failed => list.failed(place, at.timeout, tried.sent_at, at.moment),
        Measure::Nothing => {}
    }
}

fn tell(channels: &Channels, list: &mut ServerList, what: Measure, at: &Telling, tried: &Try)
    ensures { list.new ≡ told_of what at.now channels.now tried.now list.old }
{
    if let Some(place) = place_on(tried.channel, channels, list) {
        note_measure(list, what, at, tried, place);
    }
}

fn tell_late(channels: &Channels, list: &mut ServerList, at: &Telling, tried: &Try)
    ensures { list.new ≡ servers_late_to at.now channels.now list.old tried.now }
{
    if let Some(place) = place_on(tried.channel, channels, list) {
        list.timed_out(place, at.timeout, tried.sent_at, tried.due, at.moment);
        list.leave_stream(place, tried.channel);
    }
}

/// Octets came on a channel, with this number in their header: tells what they were, and the server what they tell of
/// it. A refused call changes nothing.
pub fn hear(
    channels: &Channels,
    list: &mut ServerList,
    flight: &mut Flight,
    alloc: Global,
    at: &Telling,
    channel: u64,
    id: u16,
    octets: &[u8],
) -> Result<Heard, AllocError>
    ensures meaning { IfOk result (λ what. what ≡ meaning channel id octets.now flight.old) }
    ensures flight { OnOk result (flight.new ≡ heard channel id octets.now flight.old) }
    ensures servers { OnOk result (list.new
        ≡ servers_heard at.now channels.now channel id octets.now flight.old list.old) }
    ensures err { OnErr result (flight.new ≡ flight.old) }
    ensures untold { OnErr result (list.new ≡ list.old) }
{
    let tried = flight.transaction().try_at(channel, id);
    let what = flight.came(alloc, channel, id, octets)?;
    if let Some(tried) = tried {
        tell(channels, list, measure_of(what), at, &tried);
    }
    Ok(what)
}

/// A channel failed, or a stream was closed. A refused call changes nothing.
pub fn fail(
    channels: &Channels,
    list: &mut ServerList,
    flight: &mut Flight,
    at: &Telling,
    channel: u64,
) -> Result<(), AllocError>
    ensures flight { OnOk result (flight.new ≡ changed (failed channel) flight.old) }
    ensures servers { OnOk result (list.new ≡ servers_failed at.now channels.now channel flight.old list.old) }
    ensures err { OnErr result (flight.new ≡ flight.old) }
    ensures untold { OnErr result (list.new ≡ list.old) }
{
    let tried = flight.transaction().failed_try(channel);
    flight.failed(channel)?;
    if let Some(tried) = tried {
        tell(channels, list, Measure::Failed, at, &tried);
    }
    Ok(())
}

/// Time passed: the first that was due by now is not waited for any more, and nothing more is sent on its stream. A
/// refused call changes nothing.
pub fn expire(
    channels: &Channels,
    list: &mut ServerList,
    flight: &mut Flight,
    at: &Telling,
) -> Result<(), AllocError>
    ensures flight { OnOk result (flight.new ≡ changed (expired at.now.moment) flight.old) }
    ensures servers { OnOk result (list.new ≡ servers_late at.now channels.now flight.old list.old) }
    ensures err { OnErr result (flight.new ≡ flight.old) }
    ensures untold { OnErr result (list.new ≡ list.old) }
{
    let tried = flight.transaction().due_try(at.moment);
    flight.expired(at.moment)?;
    if let Some(tried) = tried {
        tell_late(channels, list, at, &tried);
    }
    Ok(())
}
