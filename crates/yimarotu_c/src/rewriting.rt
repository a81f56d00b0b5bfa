//! Messages, read and written again.
ghost use Rattle.std.specs.Prelude.{◌≡◌, length};
ghost use Rattle.yimarotu_c.specs.Messages.{IsMessagePut, IsRewritten, nothing_end, octets_end, unread_end, unwritten_end};
ghost use Rattle.yimarotu_c.specs.Rooms.{IsPut};
ghost use Rattle.yimarotu_c.specs.declared.status.Status.{Status};
ghost use Rattle.yimarotu_c.specs.declared.status.Status.TheVariants as status;

use crate::faults::{reading_number, writing_number};
use crate::room::put;
use crate::status::Status;
use hickory_proto_wire::{ToWireError, WireError, WireMessage};
use std::alloc::Global;

/// How the writing of a message ended.
#[repr(C)]
#[derive(Drop)]
pub struct YimarotuWritten {
    /// The number of a status.
    pub status: u8,
    /// The number of a fault; else 0.
    pub fault: u8,
    /// How long the message is, in bytes: where it was written, and where the room is too small for it; else 0.
    pub length: usize,
}

/// Reads a message, bytes behind it passed over, and writes it at the front of the room, in so many bytes at most.
#[unsafe(no_mangle)]
pub extern "C" fn yimarotu_rewrite(
    alloc: Global,
    message: &[u8],
    limit: usize,
    room: &mut [u8],
) -> YimarotuWritten
    ensures { IsRewritten message.now limit room.old room.new result }
{
    match WireMessage::from_wire(alloc, message) {
        Ok(message) => put_message(alloc, &message, limit, room),
        Err(error) => unread(error),
    }
}

// Puts the octets of a message in a room.
pub(crate) fn put_message(
    alloc: Global,
    message: &WireMessage,
    limit: usize,
    room: &mut [u8],
) -> YimarotuWritten
    ensures { IsMessagePut message.now limit room.old room.new result }
{
    match message.to_wire(alloc, limit) {
        Ok(octets) => put_octets(octets.as_slice(), room),
        Err(error) => unwritten(error),
    }
}

fn put_octets(octets: &[u8], room: &mut [u8]) -> YimarotuWritten
    ensures { (status : Status) × IsPut octets.now room.old room.new status
        × (result ≡ octets_end status (length octets.now)) }
{
    let status = put(octets, room);
    YimarotuWritten {
        status: status.number(),
        fault: 0,
        length: octets.len(),
    }
}

// Bytes were no message, or memory ran out.
fn unread(error: WireError) -> YimarotuWritten
    ensures { result ≡ unread_end error }
{
    match error {
        WireError::OutOfMemory => ended(Status::NoMemory, 0),
        WireError::Fault(fault) => ended(Status::Message, reading_number(fault)),
    }
}

// A message had no bytes, or memory ran out.
pub(crate) fn unwritten(error: ToWireError) -> YimarotuWritten
    ensures { result ≡ unwritten_end error }
{
    match error {
        ToWireError::OutOfMemory => ended(Status::NoMemory, 0),
        _ => ended(Status::Unwritable, writing_number(error)),
    }
}

// There was nothing to write.
pub(crate) fn nothing_to_write() -> YimarotuWritten
    ensures { result ≡ nothing_end status.Ok 0 }
{
    ended(Status::Ok, 0)
}

// Nothing was written.
fn ended(status: Status, fault: u8) -> YimarotuWritten
    ensures { result ≡ nothing_end status fault }
{
    YimarotuWritten {
        status: status.number(),
        fault,
        length: 0,
    }
}
