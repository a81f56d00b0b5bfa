//! The servers that a file resolv.conf names.
ghost use Rattle.std.specs.Prelude.{◌≡◌, [], IfOk};
ghost use Rattle.resolv_conf.specs.ResolvConf.{resolv_conf};
ghost use Rattle.resolv_conf.specs.ServerLines.{server_lines};
ghost use Rattle.yimarotu_c.specs.Servers.{AreServersPut, IsServersEnd, servers_end};

use crate::room::put;
use crate::status::Status;
use resolv_conf::{read_resolv_conf, server_lines};
use std::alloc::{AllocError, Global};

/// How the reading of servers ended.
#[repr(C)]
#[derive(Drop)]
pub struct YimarotuServersRead {
    /// The number of a status.
    pub status: u8,
    /// How long the text is, in bytes: where it was written, and where the room is too small for it; else 0.
    pub length: usize,
}

/// Writes the servers that a file resolv.conf names at the front of the room: the address of each on a line of its own,
/// behind which `%` and the scope stand where it has one.
#[unsafe(no_mangle)]
pub extern "C" fn yimarotu_read_servers(
    alloc: Global,
    conf: &[u8],
    room: &mut [u8],
) -> YimarotuServersRead
    ensures { IsServersEnd conf.now room.old room.new result }
{
    match read_servers(alloc, conf) {
        Ok(text) => put_servers(text.as_slice(), room),
        Err(AllocError) => ended(Status::NoMemory, 0),
    }
}

// No server depends on the name of the host.
fn read_servers(alloc: Global, conf: &[u8]) -> Result<Vec<u8>, AllocError>
    ensures { IfOk result (λ text. text.items ≡ server_lines (resolv_conf conf.now [])) }
{
    match read_resolv_conf(alloc, conf, &[]) {
        Ok(conf) => server_lines(alloc, &conf),
        Err(AllocError) => Err(AllocError),
    }
}

fn put_servers(text: &[u8], room: &mut [u8]) -> YimarotuServersRead
    ensures { AreServersPut text.now room.old room.new result }
{
    let status = put(text, room);
    ended(status, text.len())
}

fn ended(status: Status, length: usize) -> YimarotuServersRead
    ensures { result ≡ servers_end status length }
{
    YimarotuServersRead {
        status: status.number(),
        length,
    }
}
