//! A reply that is read again of the octets that are stored of it.
ghost use Rattle.std.specs.Prelude.{◌≡◌, false, is_ok, if◌then◌else◌, IfOk, MatchOption, None, Ok, Some};
ghost use Rattle.hickory_proto_wire.specs.Messages.{message_of, spelled_message};
ghost use Rattle.stored_replies.specs.Stored.{said_by, stored_in};

use hickory_proto_wire::{WireError, WireMessage};
use std::alloc::{AllocError, Global};
use whole_replies::KeptReply;

// The message that these octets are, where they are read as one.
fn message_in(alloc: Global, octets: &[u8]) -> Result<Option<WireMessage>, AllocError>
    ensures { IfOk result (λ read. MatchOption read (is_ok (message_of octets.now) ≡ false)
        (λ m. message_of octets.now ≡ Ok m)) }
{
    match WireMessage::from_wire(alloc, octets) {
        Ok(message) => Ok(Some(message)),
        Err(WireError::OutOfMemory) => Err(AllocError),
        Err(WireError::Fault(_)) => Ok(None),
    }
}

// What is kept of the reply that a message is, which may be told for so many seconds.
fn kept_of(message: WireMessage, seconds: u32) -> KeptReply
    ensures { result ≡ (said_by message seconds 0).kept }
{
    let WireMessage {
        authentic_data,
        message,
        ..
    } = message;
    KeptReply {
        code: message.metadata.response_code,
        authentic_data,
        answers: message.answers,
        authorities: message.authorities,
        seconds,
    }
}

// The same of octets.
pub(crate) fn kept_in(
    alloc: Global,
    octets: &[u8],
    seconds: u32,
) -> Result<Option<KeptReply>, AllocError>
    ensures { IfOk result (λ kept. kept ≡ (if is_ok (message_of octets.now)
        then Some (stored_in (spelled_message octets.now) seconds 0).kept else None)) }
{
    match message_in(alloc, octets)? {
        Some(message) => Ok(Some(kept_of(message, seconds))),
        None => Ok(None),
    }
}
