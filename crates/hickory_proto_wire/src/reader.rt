//! Octets and numbers at a position of a message.
ghost use Rattle.std.specs.Prelude.{length, ◌≤◌, ◌<◌, ◌^◌};
ghost use Rattle.hickory_proto_wire.specs.Octets.{Gives, octet_at, octets_at, u16_at, u32_at};

use crate::wire_error::{WireError, WireFault};

#[tactic(auto, unfolding(crate::specs::Octets::octet_at))]
pub(crate) fn octet_at(bytes: &[u8], at: usize) -> Result<(u8, usize), WireError>
    ensures { Gives (λ x. x) result (octet_at bytes.now at) }
{
    if bytes.len() <= at {
        return Err(WireError::Fault(WireFault::Short));
    }
    Ok((bytes[at], at + 1))
}

#[tactic(auto, unfolding(crate::specs::Octets::octets_at))]
pub(crate) fn octets_at(count: usize, bytes: &[u8], at: usize) -> Result<(&[u8], usize), WireError>
    ensures { Gives (λ x. (x.0.now, x.1)) result (octets_at count bytes.now at) }
{
    if bytes.len() < at || bytes.len() - at < count {
        return Err(WireError::Fault(WireFault::Short));
    }
    let (_, rest) = bytes.split_at(at);
    let (octets, _) = rest.split_at(count);
    Ok((octets, at + count))
}

#[tactic(auto, unfolding(crate::specs::Octets::u16_at))]
pub(crate) fn u16_at(bytes: &[u8], at: usize) -> Result<(u16, usize), WireError>
    ensures { Gives (λ x. x) result (u16_at bytes.now at) }
{
    let (high, at) = octet_at(bytes, at)?;
    let (low, at) = octet_at(bytes, at)?;
    Ok((u16::from(high) * 256 + u16::from(low), at))
}

#[tactic(auto, unfolding(crate::specs::Octets::u32_at))]
pub(crate) fn u32_at(bytes: &[u8], at: usize) -> Result<(u32, usize), WireError>
    ensures { Gives (λ x. x) result (u32_at bytes.now at) }
{
    let (high, at) = u16_at(bytes, at)?;
    let (low, at) = u16_at(bytes, at)?;
    Ok((u32::from(high) * 65536 + u32::from(low), at))
}
