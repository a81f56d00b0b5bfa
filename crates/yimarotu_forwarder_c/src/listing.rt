//! Replies that are kept, one after another.
ghost use Rattle.std.specs.Prelude.{◌≡◌};
ghost use Rattle.yimarotu_forwarder_c.specs.Listing.{IsKeptPut, IsListed, kept_behind, kept_end, none_kept};

use crate::forwarders::{YimarotuForwarder, put, take};
use crate::room::put as put_octets;
use crate::status::Status;
use std::alloc::Global;
use yimarotu_driven_forwarder::DrivenForwarder;
use yimarotu_forwarder::CachedEntry;

/// A reply that is kept.
#[repr(C)]
#[derive(Drop)]
pub struct YimarotuKept {
    /// The number of a status.
    pub status: u8,
    /// Whether there is one.
    pub is_there: bool,
    /// Its response code.
    pub code: u16,
    /// For how many seconds more it is told; 0 where it is past its end.
    pub seconds: u64,
    /// How many octets of memory it weighs.
    pub weight: u64,
    /// How many octets of its key were put in the room, or wanted there; else 0.
    pub length: usize,
}

/// Puts the key of the reply that is kept behind that of another at the front of the room: the first, where that key has
/// no octets.
#[unsafe(no_mangle)]
pub extern "C" fn yimarotu_forwarder_kept(
    alloc: Global,
    forwarder: &mut YimarotuForwarder,
    key: &[u8],
    room: &mut [u8],
) -> YimarotuKept
    ensures { IsKeptPut key.now forwarder.old.inside.value room.old result forwarder.new.inside.value room.new }
{
    let Some(inside) = take(alloc, forwarder) else {
        return none_kept(Status::Closed);
    };
    let ended = list(kept_behind(&inside, key), room);
    put(forwarder, inside);
    ended
}

fn kept_behind<'a>(forwarder: &'a DrivenForwarder, key: &[u8]) -> Option<CachedEntry<'a>>
    ensures { result ≡ kept_behind key.now forwarder.now }
{
    match key {
        [] => forwarder.first_cached(),
        [_, ..] => forwarder.cached_behind(key),
    }
}

fn list(kept: Option<CachedEntry<'_>>, room: &mut [u8]) -> YimarotuKept
    ensures { IsListed kept.entry room.old result room.new }
{
    match kept {
        Some(kept) => {
            let status = put_octets(kept.key, room);
            kept_end(status, &kept)
        }
        None => none_kept(Status::Ok),
    }
}

fn kept_end(status: Status, kept: &CachedEntry<'_>) -> YimarotuKept
    ensures { result ≡ kept_end status kept.now }
{
    YimarotuKept {
        status: status.number(),
        is_there: true,
        code: kept.code,
        seconds: kept.seconds,
        weight: kept.weight,
        length: kept.key.len(),
    }
}

fn none_kept(status: Status) -> YimarotuKept
    ensures { result ≡ none_kept status }
{
    YimarotuKept {
        status: status.number(),
        is_there: false,
        code: 0,
        seconds: 0,
        weight: 0,
        length: 0,
    }
}
