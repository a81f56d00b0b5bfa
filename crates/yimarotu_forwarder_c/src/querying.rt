//! Queries of clients, and the replies to them.
ghost use Rattle.std.specs.Prelude.{◌≡◌};
ghost use Rattle.yimarotu_forwarder_c.specs.Querying.{IsAddress, IsAnswerTold, IsQueried, IsReplyPut, IsReplyTold, IsWritten, Queries, QueriesAs, query_status, unanswered, written};

use crate::forwarders::{YimarotuForwarder, put, take};
use crate::room::put as put_octets;
use crate::status::Status;
use std::alloc::Global;
use std::net::{IpAddr, Ipv4Addr, Ipv6Addr};
use yimarotu_driven_forwarder::{DrivenForwarder, QueryError};
use yimarotu_forwarder::{Answered, Client};

/// What becomes of a query.
#[repr(C)]
#[derive(Drop)]
pub struct YimarotuQueried {
    /// The number of a status.
    pub status: u8,
    /// What becomes of it, as a number.
    pub answered: u8,
    /// Of a reply: how many octets were put in the room, or wanted there; else 0.
    pub length: usize,
}

/// Octets of a query came from a client, at a moment (milliseconds). The reply, where there is one at once, is put at
/// the front of the room.
#[unsafe(no_mangle)]
pub extern "C" fn yimarotu_forwarder_query(
    alloc: Global,
    forwarder: &mut YimarotuForwarder,
    client: u64,
    address: &[u8],
    is_stream: bool,
    octets: &[u8],
    moment: u64,
    room: &mut [u8],
) -> YimarotuQueried
    ensures { IsQueried client address.now is_stream octets.now moment forwarder.old.inside.value room.old result
        forwarder.new.inside.value room.new }
{
    let Some(mut inside) = take(alloc, forwarder) else {
        return unanswered(Status::Closed);
    };
    let queried = query(
        &mut inside,
        client,
        address,
        is_stream,
        octets,
        moment,
        room,
    );
    put(forwarder, inside);
    queried
}

fn query(
    forwarder: &mut DrivenForwarder,
    number: u64,
    address: &[u8],
    is_stream: bool,
    octets: &[u8],
    moment: u64,
    room: &mut [u8],
) -> YimarotuQueried
    ensures { Queries number address.now is_stream octets.now moment forwarder.old room.old result forwarder.new
        room.new }
{
    match address_of(address) {
        Some(address) => {
            let client = Client {
                number,
                address,
                is_stream,
            };
            query_as(forwarder, client, octets, moment, room)
        }
        None => unanswered(Status::Kind),
    }
}

// The address of these octets.
fn address_of(octets: &[u8]) -> Option<IpAddr>
    ensures { IsAddress octets.now result }
{
    if let Ok(octets) = <[u8; 4]>::try_from(octets) {
        return Some(IpAddr::V4(Ipv4Addr::from_octets(octets)));
    }
    match <[u8; 16]>::try_from(octets) {
        Ok(octets) => Some(IpAddr::V6(Ipv6Addr::from_octets(octets))),
        Err(_) => None,
    }
}

fn query_as(
    forwarder: &mut DrivenForwarder,
    client: Client,
    octets: &[u8],
    moment: u64,
    room: &mut [u8],
) -> YimarotuQueried
    ensures { QueriesAs client octets.now moment forwarder.old room.old result forwarder.new room.new }
{
    match forwarder.query(client, octets, moment) {
        Ok(answered) => tell(forwarder, answered, room),
        Err(error) => unanswered(query_status(error)),
    }
}

fn query_status(error: QueryError) -> Status
    ensures { result ≡ query_status error }
{
    match error {
        QueryError::ReplyWaits => Status::Waits,
        QueryError::OutOfMemory => Status::NoMemory,
    }
}

fn tell(forwarder: &DrivenForwarder, answered: Answered, room: &mut [u8]) -> YimarotuQueried
    ensures { IsAnswerTold answered forwarder.now room.old result room.new }
{
    match answered {
        Answered::Replied => tell_reply(forwarder.reply(), room),
        Answered::Waits => YimarotuQueried {
            status: Status::Ok.number(),
            answered: 2,
            length: 0,
        },
        Answered::Dropped => unanswered(Status::Ok),
    }
}

fn tell_reply(reply: &[u8], room: &mut [u8]) -> YimarotuQueried
    ensures { IsReplyTold reply.now room.old result room.new }
{
    let status = put_octets(reply, room);
    YimarotuQueried {
        status: status.number(),
        answered: 1,
        length: reply.len(),
    }
}

fn unanswered(status: Status) -> YimarotuQueried
    ensures { result ≡ unanswered status }
{
    YimarotuQueried {
        status: status.number(),
        answered: 0,
        length: 0,
    }
}

/// How octets were written.
#[repr(C)]
#[derive(Drop)]
pub struct YimarotuWritten {
    /// The number of a status.
    pub status: u8,
    /// 0.
    pub fault: u8,
    /// How many octets were put in the room, or wanted there; else 0.
    pub length: usize,
}

/// Puts the reply that was written last at the front of the room.
#[unsafe(no_mangle)]
pub extern "C" fn yimarotu_forwarder_reply(
    alloc: Global,
    forwarder: &mut YimarotuForwarder,
    room: &mut [u8],
) -> YimarotuWritten
    ensures { IsReplyPut forwarder.old.inside.value room.old result forwarder.new.inside.value room.new }
{
    let Some(inside) = take(alloc, forwarder) else {
        return written(Status::Closed, 0);
    };
    let ended = write_reply(&inside, room);
    put(forwarder, inside);
    ended
}

fn write_reply(forwarder: &DrivenForwarder, room: &mut [u8]) -> YimarotuWritten
    ensures { IsWritten forwarder.now room.old result room.new }
{
    let reply = forwarder.reply();
    let status = put_octets(reply, room);
    written(status, reply.len())
}

fn written(status: Status, length: usize) -> YimarotuWritten
    ensures { result ≡ written status length }
{
    YimarotuWritten {
        status: status.number(),
        fault: 0,
        length,
    }
}
