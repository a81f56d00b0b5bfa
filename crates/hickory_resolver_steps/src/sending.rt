//! Sending what a question in flight wants.
ghost use Rattle.std.specs.Prelude.{◌≡◌, ◌++◌, ◌∷◌, ◌<◌, [], None, Some, IfOk, OnOk, OnErr};
ghost use Rattle.std.specs.Option.{option_and_then};
ghost use Rattle.std.specs.Vec.{vec_capacity, vec_len};
ghost use Rattle.hickory_resolver_channels.specs.Channels.{joined, opened_for, number_given};
ghost use Rattle.hickory_resolver_channels.specs.Draws.{try_drawn, after_try};
ghost use Rattle.hickory_resolver_flights.specs.Flights.{octets_to_send};
ghost use Rattle.hickory_resolver_steps.specs.Steps.{Parts, kind_of, if_joinable, stream_for, stream_in, made_on, with_sent, with_latest, sent_on_open, sent_on_new, without_channel, sent_on, sent_to, sent_as, sent, octets_on, sending_of, out_on, out_to, out_as, out};

use crate::flying::{Flying, Sending, SentTry, Shared, Step};
use crate::list::ServerList;
use hickory_resolver_channels::{ChannelKind, Channels, Drawn};
use hickory_resolver_transactions::{Made, Transport, Wanted};
use std::alloc::{AllocError, Global};

// What goes over a channel of this transport.
fn kind_of(transport: Transport) -> ChannelKind
    ensures { result ≡ kind_of transport }
{
    match transport {
        Transport::Udp => ChannelKind::Datagram,
        Transport::Tcp => ChannelKind::Stream,
    }
}

fn made_on(channel: u64, drawn: &Drawn, now: u64) -> Made
    ensures { result ≡ made_on channel drawn.now now }
{
    Made {
        channel,
        id: drawn.id,
        letters: drawn.letters,
        moment: now,
    }
}

// The octets of what is wanted, as it is made now. Where nothing is wanted there are none, and the call is refused.
fn octets_of(flying: &Flying, alloc: Global, made: &Made) -> Result<Vec<u8>, AllocError>
    ensures { IfOk result (λ octets. octets_to_send made.now flying.now.flight ≡ Some octets.items) }
{
    match flying.flight.octets_to_send(alloc, made)? {
        Some(octets) => Ok(octets),
        None => Err(AllocError),
    }
}

// One more, where there is room.
fn push_in_room(tries: &mut Vec<SentTry>, one: SentTry)
    requires { vec_len tries.old < vec_capacity tries.old }
    ensures { tries.new.items ≡ tries.old.items ++ one ∷ [] }
{
    drop(tries.push(one));
}

// Sends on a stream that is open. A refused call changes nothing.
fn send_on_open(
    shared: &mut Shared,
    flying: &mut Flying,
    alloc: Global,
    step: &Step,
    channel: u64,
) -> Result<Vec<u8>, AllocError>
    ensures octets { IfOk result (λ octets. octets_to_send
        (made_on channel (try_drawn shared.old.draws) step.now.moment) flying.old.flight ≡ Some octets.items) }
    ensures channels { OnOk result (shared.new.channels
        ≡ joined channel (try_drawn shared.old.draws).id step.now.transaction shared.old.channels) }
    ensures draws { OnOk result (shared.new.draws ≡ after_try shared.old.draws) }
    ensures flying { OnOk result (flying.new ≡ with_sent channel (try_drawn shared.old.draws) step.now.moment flying.old) }
    ensures err { OnErr result (shared.new ≡ shared.old) }
    ensures unsent { OnErr result (flying.new ≡ flying.old) }
{
    let (drawn, after) = shared.draws.for_try()?;
    let made = made_on(channel, &drawn, step.moment);
    flying.tries.reserve(1)?;
    let octets = octets_of(flying, alloc, &made)?;
    shared.channels.join(channel, drawn.id, step.transaction)?;
    shared.draws = after;
    flying.flight.sent(&made);
    push_in_room(
        &mut flying.tries,
        SentTry {
            channel,
            id: drawn.id,
        },
    );
    Ok(octets)
}

// Sends on a channel that is opened for it, of this number, which is the next. A refused call changes nothing.
fn send_on_new(
    shared: &mut Shared,
    flying: &mut Flying,
    alloc: Global,
    step: &Step,
    server: u64,
    kind: ChannelKind,
    channel: u64,
) -> Result<Vec<u8>, AllocError>
    ensures octets { IfOk result (λ octets. octets_to_send
        (made_on channel (try_drawn shared.old.draws) step.now.moment) flying.old.flight ≡ Some octets.items) }
    ensures channels { OnOk result (shared.new.channels
        ≡ opened_for server kind (try_drawn shared.old.draws).id step.now.transaction shared.old.channels) }
    ensures draws { OnOk result (shared.new.draws ≡ after_try shared.old.draws) }
    ensures flying { OnOk result (flying.new ≡ with_sent channel (try_drawn shared.old.draws) step.now.moment flying.old) }
    ensures err { OnErr result (shared.new ≡ shared.old) }
    ensures unsent { OnErr result (flying.new ≡ flying.old) }
{
    let (drawn, after) = shared.draws.for_try()?;
    let made = made_on(channel, &drawn, step.moment);
    flying.tries.reserve(1)?;
    let octets = octets_of(flying, alloc, &made)?;
    shared
        .channels
        .open_for(server, kind, drawn.id, step.transaction)?;
    shared.draws = after;
    flying.flight.sent(&made);
    push_in_room(
        &mut flying.tries,
        SentTry {
            channel,
            id: drawn.id,
        },
    );
    Ok(octets)
}

// The stream that was opened last to the server of a place, where it takes a try of this number.
fn stream_for(
    channels: &Channels,
    list: &ServerList,
    kind: ChannelKind,
    place: usize,
    id: u16,
) -> Option<u64>
    ensures { result ≡ stream_for kind place id list.now channels.now }
{
    match kind {
        ChannelKind::Datagram => None,
        ChannelKind::Stream => joinable_stream(channels, list.stream_of(place), id),
    }
}

fn joinable_stream(channels: &Channels, stream: Option<u64>, id: u16) -> Option<u64>
    ensures { result ≡ option_and_then (if_joinable id channels.now) stream }
{
    match stream {
        Some(channel) if channels.takes(channel, id) => Some(channel),
        _ => None,
    }
}

// The stream that is open, where there is one for it.
fn stream_in(
    shared: &Shared,
    list: &ServerList,
    kind: ChannelKind,
    place: usize,
) -> Result<Option<u64>, AllocError>
    ensures { IfOk result (λ stream.
        stream ≡ stream_for kind place (try_drawn shared.now.draws).id list.now shared.now.channels) }
{
    let (drawn, _after) = shared.draws.for_try()?;
    Ok(stream_for(&shared.channels, list, kind, place, drawn.id))
}

/// Sends what a question in flight wants: on the stream that was opened last to the server, where it takes one try
/// more, and else on a new channel. Where there may be none more it waits for one. Answers what goes out. A refused
/// call changes nothing.
pub fn send(
    shared: &mut Shared,
    list: &mut ServerList,
    flying: &mut Flying,
    alloc: Global,
    step: &Step,
) -> Result<Option<Sending>, AllocError>
    ensures out { IfOk result (λ sending. sending
        ≡ out step.now (record { shared = shared.old; servers = list.old; flying = flying.old })) }
    ensures ok { OnOk result (record { shared = shared.new; servers = list.new; flying = flying.new }
        ≡ sent step.now (record { shared = shared.old; servers = list.old; flying = flying.old })) }
    ensures shared { OnErr result (shared.new ≡ shared.old) }
    ensures servers { OnErr result (list.new ≡ list.old) }
    ensures flying { OnErr result (flying.new ≡ flying.old) }
{
    match flying.flight.transaction().wanted() {
        None => Ok(None),
        Some(wanted) => send_wanted(shared, list, flying, alloc, step, &wanted),
    }
}

fn send_wanted(
    shared: &mut Shared,
    list: &mut ServerList,
    flying: &mut Flying,
    alloc: Global,
    step: &Step,
    wanted: &Wanted,
) -> Result<Option<Sending>, AllocError>
    ensures out { IfOk result (λ sending. sending
        ≡ out_as step.now (record { shared = shared.old; servers = list.old; flying = flying.old }) wanted.now) }
    ensures ok { OnOk result (record { shared = shared.new; servers = list.new; flying = flying.new }
        ≡ sent_as step.now (record { shared = shared.old; servers = list.old; flying = flying.old }) wanted.now) }
    ensures shared { OnErr result (shared.new ≡ shared.old) }
    ensures servers { OnErr result (list.new ≡ list.old) }
    ensures flying { OnErr result (flying.new ≡ flying.old) }
{
    let kind = kind_of(wanted.way.transport);
    match stream_in(shared, list, kind, wanted.place)? {
        Some(channel) => {
            let octets = send_on_open(shared, flying, alloc, step, channel)?;
            Ok(Some(Sending {
                channel,
                place: wanted.place,
                kind,
                is_new: false,
                octets,
            }))
        }
        None => send_new(shared, list, flying, alloc, step, kind, wanted.place),
    }
}

// On a channel that is opened for it, where there may be one more.
fn send_new(
    shared: &mut Shared,
    list: &mut ServerList,
    flying: &mut Flying,
    alloc: Global,
    step: &Step,
    kind: ChannelKind,
    place: usize,
) -> Result<Option<Sending>, AllocError>
    ensures out { IfOk result (λ sending. sending
        ≡ out_to step.now kind place (record { shared = shared.old; servers = list.old; flying = flying.old }) None) }
    ensures ok { OnOk result (record { shared = shared.new; servers = list.new; flying = flying.new }
        ≡ sent_to step.now kind place (record { shared = shared.old; servers = list.old; flying = flying.old }) None) }
    ensures shared { OnErr result (shared.new ≡ shared.old) }
    ensures servers { OnErr result (list.new ≡ list.old) }
    ensures flying { OnErr result (flying.new ≡ flying.old) }
{
    let Some(channel) = shared.channels.number_given() else {
        flying.flight.unsent(step.until);
        return Ok(None);
    };
    let server = list.number_of(place);
    let octets = send_on_new(shared, flying, alloc, step, server, kind, channel)?;
    set_latest(list, kind, place, channel);
    Ok(Some(Sending {
        channel,
        place,
        kind,
        is_new: true,
        octets,
    }))
}

fn set_latest(list: &mut ServerList, kind: ChannelKind, place: usize, channel: u64)
    ensures { list.new ≡ with_latest kind place channel list.old }
{
    match kind {
        ChannelKind::Datagram => {}
        ChannelKind::Stream => list.set_stream(place, channel),
    }
}
