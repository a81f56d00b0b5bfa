//! The header of a message (RFC 1035, section 4.1.1).
ghost use Rattle.std.specs.Prelude.{◌≡◌, ◌<◌};
ghost use Rattle.hickory_proto_wire.specs.Octets.{Gives};
ghost use Rattle.hickory_proto_wire.specs.Messages.{header_at, bit, metadata_of};

use crate::reader::u16_at;
use crate::wire_error::WireError;
use hickory_proto_core::{Metadata, OpCode, ResponseCode};

#[derive(Clone, Copy, Debug)]
pub(crate) struct Header {
    pub(crate) id: u16,
    pub(crate) flags: u16,
    // How many entries each section has.
    pub(crate) queries: u16,
    pub(crate) answers: u16,
    pub(crate) authorities: u16,
    pub(crate) additionals: u16,
}

#[tactic(auto, unfolding(crate::specs::Messages::header_at))]
pub(crate) fn header_at(bytes: &[u8]) -> Result<Header, WireError>
    ensures { Gives (λ x. x) result (header_at bytes.now) }
{
    let (id, _) = u16_at(bytes, 0)?;
    let (flags, _) = u16_at(bytes, 2)?;
    let (queries, _) = u16_at(bytes, 4)?;
    let (answers, _) = u16_at(bytes, 6)?;
    let (authorities, _) = u16_at(bytes, 8)?;
    let (additionals, _) = u16_at(bytes, 10)?;
    Ok(Header {
        id,
        flags,
        queries,
        answers,
        authorities,
        additionals,
    })
}

// Whether the bit of this weight is set.
pub(crate) fn bit(weight: u16, number: u16) -> bool
    requires { 0 < weight }
    ensures { result ≡ bit weight number }
{
    number / weight % 2 == 1
}

// What the header says of the message, with the upper bits of the response code.
#[tactic(auto, unfolding(crate::specs::Messages::metadata_of))]
pub(crate) fn metadata_of(header: Header, extended: u8) -> Metadata
    ensures { result ≡ metadata_of header extended }
{
    let flags = header.flags;
    Metadata {
        id: header.id,
        op_code: OpCode::from_code((flags / 2048 % 16) as u8),
        authoritative: bit(1024, flags),
        truncation: bit(512, flags),
        recursion_desired: bit(256, flags),
        recursion_available: bit(128, flags),
        response_code: ResponseCode::from_code(u16::from(extended) * 16 + flags % 16),
    }
}
