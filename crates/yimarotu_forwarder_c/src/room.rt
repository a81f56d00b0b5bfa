//! Rooms of a caller, in which bytes are put.
ghost use Rattle.std.specs.Prelude.{◌≡◌};
ghost use Rattle.yimarotu_forwarder_c.specs.Rooms.{IsPut};

use crate::status::Status;

// Puts bytes at the front of a room, where it is large enough.
pub(crate) fn put(bytes: &[u8], room: &mut [u8]) -> Status
    ensures { IsPut bytes.now room.old room.new result }
{
    let length = bytes.len();
    if room.len() < length {
        return Status::Room;
    }
    room[..length].copy_from_slice(bytes);
    Status::Ok
}
