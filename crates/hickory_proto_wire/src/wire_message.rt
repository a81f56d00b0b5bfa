//! Messages and their bytes (RFC 1035, section 4.1).
ghost use Rattle.std.specs.Prelude.{◌≡◌, ℕ, List, IfOk};
ghost use Rattle.hickory_proto_wire.specs.Octets.{Gives};
ghost use Rattle.hickory_proto_wire.specs.Messages.{message_of, spelled_message, assembled};
ghost use Rattle.hickory_proto_wire.specs.ReadNames.{IsFront};
ghost use Rattle.hickory_proto_wire.specs.Refused.{Refuses, wire_fault};
ghost use Rattle.hickory_proto_wire.specs.ToWire.{IsWritten};

use crate::edns::Edns;
use crate::header::{Header, bit, header_at, metadata_of};
use crate::label_count::has_too_many_labels;
use crate::message_writer::octets_within;
use crate::read_names::ReadNames;
use crate::to_wire_error::ToWireError;
use crate::wire_error::{WireError, WireFault};
use crate::wire_record::{Additionals, additionals_at, queries_at, records_at};
use hickory_proto_core::{Message, Query, Record};
use std::alloc::Global;

/// A message, and what its bytes say beside it.
#[derive(Debug, Drop)]
pub struct WireMessage {
    /// Whether it is a response.
    pub is_response: bool,
    /// The bit that is to be 0.
    pub reserved: bool,
    /// Whether the server holds all of it for authentic (RFC 4035, section 3.2.3).
    pub authentic_data: bool,
    /// Whether the asker does not want it checked (RFC 4035, section 3.2.2).
    pub checking_disabled: bool,
    /// What its OPT record says, where there is one (RFC 6891).
    pub edns: Option<Edns>,
    /// The message. Its response code has 12 bits where there is an OPT record, and 4 otherwise, and its additional
    /// section is without that record.
    pub message: Message,
}

impl WireMessage {
    /// The message that the bytes spell, or the first fault from left to right. Octets behind the message are passed
    /// over, as BIND and unbound do: some servers pad what they send. Names whose labels stand at one place of the bytes
    /// share them. It is `TooManyLabels` where the names would take more than 16,384 labels, before the first name that
    /// passes this bound, and before memory is taken for more than so many.
    pub fn from_wire(alloc: Global, bytes: &[u8]) -> Result<WireMessage, WireError>
        ensures { Gives (λ m. m) result (message_of bytes.now) }
    {
        message_of(alloc, bytes)
    }

    /// The octets of the message, at most `limit` of them (RFC 1035, section 4.1): 512 or what OPT allows over UDP,
    /// and 65,535 over TCP. A name ends with a pointer where the owner of an earlier record or question has the same
    /// last labels, octet for octet; in data only where RFC 1035 has the type and it is parsed (RFC 3597, section 4).
    /// Where the octets are more than the limit, records are left out from the end, whole, as few as can be, and the
    /// message says that it is truncated. Header, questions and the OPT record stay (RFC 6891, section 7).
    ///
    /// # Errors
    /// The first fault in the order of writing, over all records, also those that would be left out; then
    /// `LimitTooSmall`.
    pub fn to_wire(&self, alloc: Global, limit: usize) -> Result<Vec<u8>, ToWireError>
        ensures refused { Refuses result (wire_fault self.now limit) }
        ensures written { IfOk result (λ v. IsWritten self.now limit v.items) }
        ensures unique { IfOk result (λ v. (other : List ℕ) → IsWritten self.now limit other → other ≡ v.items) }
    {
        octets_within(alloc, self, limit)
    }
}

#[tactic(auto, unfolding(crate::specs::Messages::message_of))]
fn message_of(alloc: Global, bytes: &[u8]) -> Result<WireMessage, WireError>
    ensures { Gives (λ m. m) result (message_of bytes.now) }
{
    let header = header_at(bytes)?;
    let mut names = ReadNames::new(alloc, bytes);
    if has_too_many_labels(&mut names, header, bytes)? {
        return Err(WireError::Fault(WireFault::TooManyLabels));
    }
    spelled_message(&mut names, bytes)
}

#[tactic(auto, unfolding(crate::specs::Messages::spelled_message))]
fn spelled_message(names: &mut ReadNames<'_>, bytes: &[u8]) -> Result<WireMessage, WireError>
    requires { IsFront bytes.now names.old }
    ensures { Gives (λ m. m) result (spelled_message bytes.now) }
{
    let header = header_at(bytes)?;
    let (queries, at) = queries_at(names, header.queries, bytes, 12)?;
    let (answers, at) = records_at(names, header.answers, bytes, at)?;
    let (authorities, at) = records_at(names, header.authorities, bytes, at)?;
    let (additionals, _) = additionals_at(names, header.additionals, bytes, at)?;
    Ok(assembled(header, queries, answers, authorities, additionals))
}

// The message of these parts.
#[tactic(auto, unfolding(crate::specs::Messages::assembled))]
fn assembled(
    header: Header,
    queries: Vec<Query>,
    answers: Vec<Record>,
    authorities: Vec<Record>,
    found: Additionals,
) -> WireMessage
    ensures { result ≡ assembled header queries.items answers.items authorities.items found }
{
    let Additionals { records, opt } = found;
    let (extended, edns) = match opt {
        Some(opt) => (opt.extended, Some(opt.edns)),
        None => (0, None),
    };
    WireMessage {
        is_response: bit(32768, header.flags),
        reserved: bit(64, header.flags),
        authentic_data: bit(32, header.flags),
        checking_disabled: bit(16, header.flags),
        edns,
        message: Message {
            metadata: metadata_of(header, extended),
            queries,
            answers,
            authorities,
            additionals: records,
        },
    }
}
