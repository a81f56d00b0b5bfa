//! A replay of a script, from bytes to bytes.
ghost use Rattle.std.specs.Prelude.{◌≡◌};
ghost use Rattle.yimarotu_c.specs.Replays.{IsReplayEnd, line_of, refused_end};
ghost use Rattle.yimarotu_c.specs.Rooms.{IsPutEnd};

use crate::room::put;
use crate::status::Status;
use replay::{ReplayError, replay_text};
use std::alloc::Global;

/// How a replay ended.
#[repr(C)]
#[derive(Drop)]
pub struct YimarotuReplayed {
    /// The number of a status.
    pub status: u8,
    /// How long the text is, in bytes: where it was written, and where the room is too small for it; else 0.
    pub length: usize,
    /// The line of the script's fault, from 1; else 0.
    pub line: usize,
}

/// Writes the text of a replay of the script, over what a file of hosts says, at the front of the room.
#[unsafe(no_mangle)]
pub extern "C" fn yimarotu_replay(
    alloc: Global,
    script: &[u8],
    hosts: &[u8],
    room: &mut [u8],
) -> YimarotuReplayed
    ensures { IsReplayEnd script.now hosts.now room.old room.new result }
{
    match replay_text(alloc, script, hosts) {
        Ok(text) => put_text(text.as_bytes(), room),
        Err(error) => refused(error),
    }
}

fn put_text(text: &[u8], room: &mut [u8]) -> YimarotuReplayed
    ensures { IsPutEnd text.now room.old room.new result }
{
    let status = put(text, room);
    YimarotuReplayed {
        status: status.number(),
        length: text.len(),
        line: 0,
    }
}

fn refused(error: ReplayError) -> YimarotuReplayed
    ensures { result ≡ refused_end error }
{
    YimarotuReplayed {
        status: error.status(),
        length: 0,
        line: line_of(error),
    }
}

// The line of a fault of the script.
pub(crate) fn line_of(error: ReplayError) -> usize
    ensures { result ≡ line_of error }
{
    match error {
        ReplayError::Script(fault) => fault.line,
        _ => 0,
    }
}
