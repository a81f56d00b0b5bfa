//! A reply as the octets that are stored of it.
ghost use Rattle.std.specs.Prelude.{◌≡◌, ◌≤◌, ◌-◌, ◌++◌, ◌==◌, ◌∷◌, [], None, Ok, not, get_or, length, drop, IfOk, OnOk};
ghost use Rattle.std.specs.Option.{option_map};
ghost use Rattle.hickory_proto_core.specs.Name.{label_fault};
ghost use Rattle.hickory_proto_wire.specs.Messages.{spelled_message};
ghost use Rattle.hickory_proto_wire.specs.Refused.{wire_fault};
ghost use Rattle.hickory_proto_wire.specs.ToWire.{IsWritten};
ghost use Rattle.hickory_proto_wire.specs.Writing.{cut, record_count};
ghost use Rattle.stored_replies.specs.Stored.{response_to, whole_octets, store_fault, Refuses};
ghost use Rattle.stored_replies.specs.Walk.{behind_records, behind_question, places_in, HaveNames, HaveFields};

use crate::choices::LONGEST;
use crate::places::{behind, behind_name, note_places, octet_at};
use crate::store_error::StoreError;
use hickory_proto_core::{Message, OpCode, Query};
use hickory_proto_wire::{ToWireError, WireMessage};
use std::alloc::{AllocError, Global};
use whole_replies::KeptReply;

fn one_query(alloc: Global, query: &Query) -> Result<Vec<Query>, AllocError>
    ensures { IfOk result (λ v. v.items ≡ query.now ∷ []) }
{
    let mut queries = Vec::with_capacity(alloc, 1)?;
    queries.push(Query {
        name: Clone::clone(&query.name)?,
        query_type: query.query_type,
        query_class: query.query_class,
    })?;
    Ok(queries)
}

// The message that is written of a reply.
fn response_to(alloc: Global, query: &Query, kept: KeptReply) -> Result<WireMessage, AllocError>
    ensures { IfOk result (λ m. m ≡ response_to query.now kept) }
{
    let queries = one_query(alloc, query)?;
    let Message {
        mut metadata,
        additionals,
        ..
    } = Message::response(alloc, 0, OpCode::Query);
    metadata.response_code = kept.code;
    Ok(WireMessage {
        is_response: true,
        reserved: false,
        authentic_data: kept.authentic_data,
        checking_disabled: false,
        edns: None,
        message: Message {
            metadata,
            queries,
            answers: kept.answers,
            authorities: kept.authorities,
            additionals,
        },
    })
}

fn to_wire(alloc: Global, message: &WireMessage) -> Result<Vec<u8>, StoreError>
    ensures written { IfOk result (λ v. IsWritten message.now LONGEST v.items) }
    ensures fault { Refuses result (option_map StoreError.Unwritable (wire_fault message.now LONGEST)) }
{
    match message.to_wire(alloc, LONGEST) {
        Ok(octets) => Ok(octets),
        Err(ToWireError::OutOfMemory) => Err(StoreError::OutOfMemory),
        Err(error) => Err(StoreError::Unwritable(error)),
    }
}

// Whether a response of no other flags than AD says that it is truncated: QR stands alone in its third octet, or beside
// TC.
fn is_cut(octets: &[u8]) -> bool
    ensures { result ≡ not (get_or octets.now 2 0 == 128) }
{
    octet_at(octets, 2) != 128
}

// The message of a reply, and its octets.
pub(crate) fn written(
    alloc: Global,
    query: &Query,
    kept: KeptReply,
) -> Result<(WireMessage, Vec<u8>), StoreError>
    ensures message { IfOk result (λ w. w.0 ≡ response_to query.now kept) }
    ensures octets { IfOk result (λ w. w.1.items ≡ whole_octets (response_to query.now kept)) }
    ensures short { IfOk result (λ w. length w.1.items ≤ LONGEST) }
    ensures read { IfOk result (λ w. spelled_message w.1.items
        ≡ Ok (cut (response_to query.now kept) (record_count (response_to query.now kept)))) }
    ensures fault { Refuses result (store_fault query.now kept) }
{
    let message = response_to(alloc, query, kept)?;
    let octets = to_wire(alloc, &message)?;
    if is_cut(&octets) {
        return Err(StoreError::TooLong);
    }
    Ok((message, octets))
}

// What stands behind the question.
pub(crate) fn behind_question<'o>(query: &Query, octets: &'o [u8]) -> &'o [u8]
    ensures behind { result.now ≡ behind_question query.now octets.now }
    ensures valid { label_fault query.now.name.labels ≡ None }
{
    behind(4, behind_name(&query.name, behind(12, octets)))
}

// The places of the TTLs of the records of a message, in its octets.
pub(crate) fn places_of(
    alloc: Global,
    message: &Message,
    octets: &[u8],
    records: &[u8],
) -> Result<Vec<u16>, AllocError>
    requires short { length octets.now ≤ 65535 }
    requires fields { HaveFields (message.now.answers ++ message.now.authorities) records.now }
    ensures places { IfOk result (λ v. v.items ≡ places_in (length octets.now) message.now.answers records.now
        ++ places_in (length octets.now) message.now.authorities (behind_records message.now.answers records.now)) }
    ensures answers { OnOk result (HaveNames message.now.answers) }
    ensures authorities { OnOk result (HaveNames message.now.authorities) }
{
    let total = octets.len();
    let count = message
        .answers
        .len()
        .saturating_add(message.authorities.len());
    let mut places = Vec::with_capacity(alloc, count)?;
    let rest = note_places(&mut places, total, &message.answers, records)?;
    note_places(&mut places, total, &message.authorities, rest)?;
    Ok(places)
}
