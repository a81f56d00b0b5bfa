//! What look-ups of a session came to.
ghost use Rattle.std.specs.Prelude.{◌≡◌};
ghost use Rattle.std.specs.Option.{option_map};
ghost use Rattle.yimarotu_c.specs.Answering.{IsAnswered, IsFoundPut, answer_message, answered_end, answered_of, told_code, told_error, told_lookup, told_negative, told_of};
ghost use Rattle.yimarotu_c.specs.Asking.{Reads};
ghost use Rattle.yimarotu_c.specs.Messages.{IsMessageOrNonePut, IsMessagePut};
ghost use Rattle.yimarotu_c.specs.declared.status.Status.TheVariants as status;
ghost use Rattle.yimarotu_session.specs.Messages.{negative_message, response_message};

use crate::looking_up::status_of;
use crate::rewriting::{YimarotuWritten, nothing_to_write, put_message, unwritten};
use crate::sessions::{YimarotuSession, put, take};
use crate::status::Status;
use hickory_proto_core::{DnsError, NetError, NoRecords};
use hickory_proto_wire::ToWireError;
use hickory_resolver::Lookup;
use std::alloc::Global;
use yimarotu_embedded::Held;
use yimarotu_session::messages::{negative_message, response_message};

/// What a look-up came to.
#[repr(C)]
#[derive(Drop)]
pub struct YimarotuAnswered {
    /// The number of a status.
    pub status: u8,
    /// The number of an error of the look-up; 0 where there are records.
    pub error: u8,
    /// The number of a fault; else 0.
    pub fault: u8,
    /// Of a negative answer: whether it may be kept for a time that is known.
    pub has_ttl: bool,
    /// The response code; 0 where there is none.
    pub code: u16,
    /// Of a negative answer: for how many seconds it may be kept; else 0.
    pub ttl: u32,
    /// Of records: the last moment (seconds) at which they may be used; else 0.
    pub until: u64,
    /// How long the message is, in bytes: where it was written, and where the room is too small for it; else 0.
    pub length: usize,
}

/// What is told of a look-up beside its message.
#[derive(Clone, Copy)]
pub struct Told {
    pub error: u8,
    pub has_ttl: bool,
    pub code: u16,
    pub ttl: u32,
    pub until: u64,
}

/// Writes what the look-up of a number came to at the front of the room, as a message of so many bytes at most.
#[unsafe(no_mangle)]
pub extern "C" fn yimarotu_answer(
    alloc: Global,
    session: &mut YimarotuSession,
    number: u64,
    limit: usize,
    room: &mut [u8],
) -> YimarotuAnswered
    ensures { Reads (IsAnswered number limit) (answered_end status.Closed) session.old.inside.value room.old result
        session.new.inside.value room.new }
{
    let Some(inside) = take(alloc, session) else {
        return ended(Status::Closed);
    };
    let answered = answer(alloc, &inside, number, limit, room);
    put(session, inside);
    answered
}

fn answer(
    alloc: Global,
    held: &Held,
    number: u64,
    limit: usize,
    room: &mut [u8],
) -> YimarotuAnswered
    ensures { IsAnswered number limit held.now room.old room.new result }
{
    match held.found(number) {
        Ok(found) => put_found(alloc, found, limit, room),
        Err(error) => ended(status_of(error)),
    }
}

fn put_found(
    alloc: Global,
    found: &Result<Lookup, NetError>,
    limit: usize,
    room: &mut [u8],
) -> YimarotuAnswered
    ensures { IsFoundPut found.now limit room.old room.new result }
{
    let written = write_found(alloc, found, limit, room);
    answered_of(told_of(found), written)
}

// What is told of a look-up whose message was written, or has none.
fn answered_of(told: Told, written: YimarotuWritten) -> YimarotuAnswered
    ensures { result ≡ answered_of told written }
{
    YimarotuAnswered {
        status: written.status,
        error: told.error,
        fault: written.fault,
        has_ttl: told.has_ttl,
        code: told.code,
        ttl: told.ttl,
        until: told.until,
        length: written.length,
    }
}

fn write_found(
    alloc: Global,
    found: &Result<Lookup, NetError>,
    limit: usize,
    room: &mut [u8],
) -> YimarotuWritten
    ensures { IsMessageOrNonePut (option_map response_message (answer_message found.now)) limit room.old room.new result }
{
    match found {
        Ok(lookup) => write_lookup(alloc, lookup, limit, room),
        Err(NetError::Dns(DnsError::NoRecordsFound(none))) => {
            write_negative(alloc, none, limit, room)
        }
        Err(_) => nothing_to_write(),
    }
}

#[tactic(auto, using(crate::proofs::Memory::no_memory))]
fn write_lookup(alloc: Global, lookup: &Lookup, limit: usize, room: &mut [u8]) -> YimarotuWritten
    ensures { IsMessagePut (response_message lookup.now.message) limit room.old room.new result }
{
    match lookup.message().clone() {
        Ok(message) => put_message(alloc, &response_message(message), limit, room),
        Err(_) => unwritten(ToWireError::OutOfMemory),
    }
}

#[tactic(auto, using(crate::proofs::Memory::no_memory))]
fn write_negative(alloc: Global, none: &NoRecords, limit: usize, room: &mut [u8]) -> YimarotuWritten
    ensures { IsMessagePut (response_message (negative_message none.now)) limit room.old room.new result }
{
    match negative_message(alloc, none) {
        Ok(message) => put_message(alloc, &response_message(message), limit, room),
        Err(_) => unwritten(ToWireError::OutOfMemory),
    }
}

// What is told of a look-up beside its message.
pub(crate) fn told_of(found: &Result<Lookup, NetError>) -> Told
    ensures { result ≡ told_of found.now }
{
    match found {
        Ok(lookup) => told_lookup(lookup),
        Err(error) => told_error(error),
    }
}

fn told_lookup(lookup: &Lookup) -> Told
    ensures { result ≡ told_lookup lookup.now }
{
    Told {
        error: 0,
        has_ttl: false,
        code: lookup.message().metadata.response_code.code(),
        ttl: 0,
        until: lookup.valid_until(),
    }
}

fn told_error(error: &NetError) -> Told
    ensures { result ≡ told_error error.now }
{
    match error {
        NetError::Dns(DnsError::NoRecordsFound(none)) => told_negative(none),
        NetError::Dns(DnsError::ResponseCode(code)) => told_code(2, code.code()),
        NetError::Timeout => told_code(3, 0),
        NetError::Message(_) => told_code(4, 0),
        NetError::Proto(_) => told_code(5, 0),
        NetError::NoOutcome => told_code(6, 0),
        NetError::Bounds(_) => told_code(7, 0),
        NetError::OutOfMemory => told_code(8, 0),
    }
}

fn told_negative(none: &NoRecords) -> Told
    ensures { result ≡ told_negative none.now }
{
    Told {
        error: 1,
        has_ttl: none.negative_ttl.is_some(),
        code: none.response_code.code(),
        ttl: none.negative_ttl.unwrap_or(0),
        until: 0,
    }
}

fn told_code(error: u8, code: u16) -> Told
    ensures { result ≡ told_code error code }
{
    Told {
        error,
        has_ttl: false,
        code,
        ttl: 0,
        until: 0,
    }
}

fn ended(status: Status) -> YimarotuAnswered
    ensures { result ≡ answered_end status }
{
    YimarotuAnswered {
        status: status.number(),
        error: 0,
        fault: 0,
        has_ttl: false,
        code: 0,
        ttl: 0,
        until: 0,
        length: 0,
    }
}
