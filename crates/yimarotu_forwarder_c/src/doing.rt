//! What the program has to do for a forwarder.
ghost use Rattle.std.specs.Prelude.{◌≡◌, ◌≤◌, ◌++◌, IfOk, OnOk, length};
ghost use Rattle.yimarotu_forwarder_c.specs.Doing.{IsActionPut, IsNext, IsOpeningPut, IsPutNext, IsTold, action_end, address_octets, family_of, left_after, nothing_to_do, opening_end, opening_octets, protocol_of, reply_end};

use crate::forwarders::{YimarotuForwarder, put, take};
use crate::room::put as put_octets;
use crate::status::Status;
use hickory_resolver_pool::{ChannelKind, Opening};
use std::alloc::{AllocError, Global};
use std::net::IpAddr;
use yimarotu_driven_forwarder::DrivenForwarder;
use yimarotu_forwarder::ForwarderAction;

/// What a program has to do next.
#[repr(C)]
#[derive(Drop)]
pub struct YimarotuAction {
    /// The number of a status.
    pub status: u8,
    /// What is to be done, as a number.
    pub kind: u8,
    /// Of a channel that is to be opened: 1 for datagrams, 2 for a stream; else 0.
    pub protocol: u8,
    /// Of a channel that is to be opened: 4 or 6, as the address of its server is; else 0.
    pub family: u8,
    /// Of a channel that is to be opened: the port of its server; else 0.
    pub port: u16,
    /// The number of the channel, where there is one; else 0.
    pub channel: u64,
    /// The number of the client that is replied to; else 0.
    pub number: u64,
    /// How many octets were put in the room, or wanted there.
    pub length: usize,
}

/// Tells what the program has to do next, and puts its octets at the front of the room.
#[unsafe(no_mangle)]
pub extern "C" fn yimarotu_forwarder_next(
    alloc: Global,
    forwarder: &mut YimarotuForwarder,
    room: &mut [u8],
) -> YimarotuAction
    ensures { IsNext forwarder.old.inside.value room.old result forwarder.new.inside.value room.new }
{
    let Some(mut inside) = take(alloc, forwarder) else {
        return nothing_to_do(Status::Closed);
    };
    let action = next(alloc, &mut inside, room);
    put(forwarder, inside);
    action
}

fn next(alloc: Global, forwarder: &mut DrivenForwarder, room: &mut [u8]) -> YimarotuAction
    ensures { IsPutNext forwarder.old room.old result forwarder.new room.new }
{
    match forwarder.fetch() {
        Ok(()) => tell(alloc, forwarder, room),
        Err(AllocError) => nothing_to_do(Status::NoMemory),
    }
}

// Tells what is to be done. It stays where the room is too small for its octets.
fn tell(alloc: Global, forwarder: &mut DrivenForwarder, room: &mut [u8]) -> YimarotuAction
    ensures { IsTold forwarder.old room.old result forwarder.new room.new }
{
    let Some(action) = forwarder.action() else {
        return nothing_to_do(Status::Ok);
    };
    let reply = forwarder.reply();
    let status = put_action(alloc, action, reply, room);
    let ended = action_end(status, action, reply);
    leave_if_told(forwarder, status);
    ended
}

fn leave_if_told(forwarder: &mut DrivenForwarder, status: Status)
    ensures { forwarder.new ≡ left_after status forwarder.old }
{
    match status {
        Status::Ok => forwarder.leave_action(),
        _ => {}
    }
}

fn put_action(alloc: Global, action: &ForwarderAction, reply: &[u8], room: &mut [u8]) -> Status
    ensures { IsActionPut action.now reply.now room.old room.new result }
{
    match action {
        ForwarderAction::Reply(_) => put_octets(reply, room),
        ForwarderAction::Open(opening) => put_opening(alloc, opening, room),
        ForwarderAction::Send(sent) => put_octets(&sent.octets, room),
        _ => put_octets(&[], room),
    }
}

// The octets of the address, and behind them those of its scope.
fn put_opening(alloc: Global, opening: &Opening, room: &mut [u8]) -> Status
    ensures { IsOpeningPut opening.now room.old room.new result }
{
    match opening_octets(alloc, opening) {
        Ok(octets) => put_octets(&octets, room),
        Err(AllocError) => Status::NoMemory,
    }
}

fn opening_octets(alloc: Global, opening: &Opening) -> Result<Vec<u8>, AllocError>
    ensures { IfOk result (λ octets. octets.items ≡ opening_octets opening.now) }
{
    let mut octets = Vec::new(alloc);
    push_address(&mut octets, opening.address)?;
    octets.extend_from_slice(&opening.scope)?;
    Ok(octets)
}

// The octets of an address, the most significant first.
fn push_address(octets: &mut Vec<u8>, address: IpAddr) -> Result<(), AllocError>
    ensures { OnOk result (octets.new.items ≡ octets.old.items ++ address_octets address) }
{
    match address {
        IpAddr::V4(address) => octets.extend_from_slice(&address.octets()),
        IpAddr::V6(address) => octets.extend_from_slice(&address.octets()),
    }
}

// The family of an address: 4 or 6.
fn family_of(address: IpAddr) -> u8
    ensures { result ≡ family_of address }
{
    match address {
        IpAddr::V4(_) => 4,
        IpAddr::V6(_) => 6,
    }
}

fn protocol_of(kind: ChannelKind) -> u8
    ensures { result ≡ protocol_of kind }
{
    match kind {
        ChannelKind::Datagram => 1,
        ChannelKind::Stream => 2,
    }
}

// What is told of an action, whose octets were put so.
fn action_end(status: Status, action: &ForwarderAction, reply: &[u8]) -> YimarotuAction
    ensures { result ≡ action_end status action.now reply.now }
{
    let nothing = nothing_to_do(status);
    match action {
        ForwarderAction::Reply(number) => reply_end(nothing, *number, reply),
        ForwarderAction::Open(opening) => opening_end(nothing, opening),
        ForwarderAction::Send(sent) => YimarotuAction {
            kind: 3,
            channel: sent.channel,
            length: sent.octets.len(),
            ..nothing
        },
        ForwarderAction::Close(channel) => YimarotuAction {
            kind: 4,
            channel: *channel,
            ..nothing
        },
        ForwarderAction::Continue => YimarotuAction { kind: 1, ..nothing },
    }
}

fn reply_end(nothing: YimarotuAction, number: u64, reply: &[u8]) -> YimarotuAction
    ensures { result ≡ reply_end nothing number reply.now }
{
    YimarotuAction {
        kind: 6,
        number,
        length: reply.len(),
        ..nothing
    }
}

fn opening_end(nothing: YimarotuAction, opening: &Opening) -> YimarotuAction
    ensures { result ≡ opening_end nothing opening.now }
{
    YimarotuAction {
        kind: 2,
        protocol: protocol_of(opening.kind),
        family: family_of(opening.address),
        port: opening.port,
        channel: opening.channel,
        length: length_of(opening.address) + opening.scope.len(),
        ..nothing
    }
}

// How many octets an address has.
fn length_of(address: IpAddr) -> usize
    ensures octets { result ≡ length (address_octets address) }
    ensures few { result ≤ 16 }
{
    match address {
        IpAddr::V4(address) => address.octets().len(),
        IpAddr::V6(address) => address.octets().len(),
    }
}

fn nothing_to_do(status: Status) -> YimarotuAction
    ensures { result ≡ nothing_to_do status }
{
    YimarotuAction {
        status: status.number(),
        kind: 0,
        protocol: 0,
        family: 0,
        port: 0,
        channel: 0,
        number: 0,
        length: 0,
    }
}
