//! Octets in a room of a caller.
ghost use Rattle.std.specs.Prelude.{◌≡◌, ◌≤◌, ◌+◌, ◌-◌, ◌<◌, length};
ghost use Rattle.hickory_proto_wire.specs.Written.{u32_octets};
ghost use Rattle.hickory_resolver_tries.specs.Heads.{number_at};
ghost use Rattle.stored_replies.specs.Walk.{over, u32_at, all_set, lowered_at, lowered, set_at};

// Writes over a part of a room.
pub(crate) fn put_at(room: &mut [u8], at: usize, octets: &[u8])
    requires { at + length octets.now ≤ length room.old }
    ensures { room.new ≡ over room.old at octets.now }
{
    room[at..at + octets.len()].copy_from_slice(octets);
}

fn number_at(octets: &[u8], at: usize) -> u16
    requires { at + 1 < length octets.now }
    ensures { result ≡ number_at octets.now at }
{
    u16::from(octets[at]) * 256 + u16::from(octets[at + 1])
}

fn u32_at(octets: &[u8], at: usize) -> u32
    requires { at + 3 < length octets.now }
    ensures { result ≡ u32_at octets.now at }
{
    u32::from(number_at(octets, at)) * 65536 + u32::from(number_at(octets, at + 2))
}

fn put_u32(room: &mut [u8], at: usize, number: u32)
    requires { at + 4 ≤ length room.old }
    ensures { room.new ≡ over room.old at (u32_octets number) }
{
    let high = (number / 65536) as u16;
    let low = (number % 65536) as u16;
    let octets = [
        (high / 256) as u8,
        (high % 256) as u8,
        (low / 256) as u8,
        (low % 256) as u8,
    ];
    put_at(room, at, &octets);
}

// Lowers the TTL at a place by some seconds, to 0 at the least.
fn lower_at(room: &mut [u8], at: usize, seconds: u64)
    requires { at < 65536 }
    ensures { room.new ≡ lowered_at seconds room.old at }
{
    if room.len() < at + 4 {
        return;
    }
    let ttl = u64::from(u32_at(room, at));
    put_u32(room, at, ttl.saturating_sub(seconds) as u32);
}

// Lowers the TTLs at these places.
pub(crate) fn lower_ttls(room: &mut [u8], places: &[u16], seconds: u64)
    ensures { room.new ≡ lowered seconds room.old places.now }
{
    for place in places {
        lower_at(room, usize::from(*place), seconds);
    }
}

// Sets the TTL at a place.
fn set_at(room: &mut [u8], at: usize, ttl: u32)
    requires { at < 65536 }
    ensures { room.new ≡ set_at ttl room.old at }
{
    if room.len() < at + 4 {
        return;
    }
    put_u32(room, at, ttl);
}

// Sets the TTLs at these places.
pub(crate) fn set_ttls(room: &mut [u8], places: &[u16], ttl: u32)
    ensures { room.new ≡ all_set ttl room.old places.now }
{
    for place in places {
        set_at(room, usize::from(*place), ttl);
    }
}
