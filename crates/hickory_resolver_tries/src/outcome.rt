//! What a believed reply comes to.
ghost use Rattle.std.specs.Prelude.{◌≡◌, ◌||◌, ◌&&◌, not, is_some, option_copied, Some, None, true, IsOk, IfOk};
ghost use Rattle.std.specs.List.{list_any};
ghost use Rattle.hickory_proto_core.specs.ResponseKind.{is_asked, is_of_type, first_soa};
ghost use Rattle.hickory_proto_wire.specs.Messages.{message_of};
ghost use Rattle.hickory_resolver_tries.specs.Heads.{head_of};
ghost use Rattle.hickory_proto_core.specs.Name.{label_fault};
ghost use Rattle.hickory_resolver_tries.specs.Belief.{knows_no_opt, belief_of};
ghost use Rattle.hickory_resolver_tries.specs.Outcome.{has_code, has_soa, at_name, is_answered, leads_on, is_lame, refuses_sent_opt, outcome_of_message, is_truncated, outcome_of, with_letters, message_if, AsksAlone};

use crate::belief::{Belief, knows_no_opt};
use crate::chain::end_of;
use crate::head::{bit, head_at};
use crate::letters_back::give_back;
use crate::try_message::{TryForm, TryMessage};
use hickory_proto_core::{Message, Name, Query, Record, RecordType, ResponseCode};
use hickory_proto_wire::{WireError, WireMessage};
use std::alloc::{AllocError, Global};

/// What a believed reply comes to, by what it says alone.
#[derive(Clone, Copy, Debug, PartialEq, Eq)]
pub enum ReplyOutcome {
    /// TC is set (RFC 1035, section 4.1.1): by UDP it is asked again by TCP. It is never an answer.
    Truncated,
    /// What is behind the question is no message: it counts as FORMERR.
    BadRest,
    /// FORMERR or NOTIMP without OPT, to a try that had OPT and can do without: the same try without OPT (RFC 6891,
    /// section 7).
    WithoutOpt,
    /// Any other code but NOERROR and NXDOMAIN.
    Code(ResponseCode),
    /// NOERROR of a server that refers to others, or that neither recurses nor has authority.
    Lame,
    /// An answer where the aliases from the asked name end, or aliases that lead on.
    Answer,
    /// None, where they end (RFC 2308, section 2).
    Negative,
}

/// A believed reply.
#[derive(Drop)]
pub struct Reply {
    /// What it comes to.
    pub outcome: ReplyOutcome,
    /// The message that it spells, with the letters that were asked, unless it was cut or is none.
    pub message: Option<WireMessage>,
}

/// Reads a believed reply. What it comes to depends on the question, the form of the try and the octets alone.
pub fn read_reply(
    alloc: Global,
    message: &TryMessage,
    form: &TryForm,
    octets: &[u8],
) -> Result<Reply, AllocError>
    ensures outcome { IfOk result (λ r. r.outcome ≡ outcome_of message.now form.now octets.now) }
    ensures message { IfOk result (λ r. r.message
        ≡ message_if (is_truncated (head_of octets.now)) message.now.query.name (message_of octets.now)) }

    // What was believed has the question as it was asked, letter for letter.
    ensures asked { belief_of message.now form.now octets.now ≡ Belief.Believed
        → IfOk result (λ r. AsksAlone message.now.query r.message) }

    // A cut one is not read on, which takes no memory.
    ensures cut { is_truncated (head_of octets.now) ≡ true → IsOk result }
{
    if is_truncated(octets) {
        return Ok(Reply {
            outcome: ReplyOutcome::Truncated,
            message: None,
        });
    }
    match WireMessage::from_wire(alloc, octets) {
        Ok(read) => read_message(message, form, read),
        Err(WireError::Fault(_)) => Ok(Reply {
            outcome: ReplyOutcome::BadRest,
            message: None,
        }),
        Err(WireError::OutOfMemory) => Err(AllocError),
    }
}

// What a message comes to, and the message with the letters that were asked.
fn read_message(
    message: &TryMessage,
    form: &TryForm,
    read: WireMessage,
) -> Result<Reply, AllocError>
    ensures outcome { IfOk result (λ r. r.outcome ≡ outcome_of_message message.now form.now read) }
    ensures message { IfOk result (λ r. r.message ≡ Some (with_letters message.now.query.name read)) }
    ensures absolute { message.now.query.name.fqdn ≡ true }
    ensures valid { label_fault message.now.query.name.labels ≡ None }
{
    let outcome = outcome_of_message(message, form, &read);
    let mut read = read;
    give_back(&message.question().query.name, &mut read.message)?;
    Ok(Reply {
        outcome,
        message: Some(read),
    })
}

// Whether the header says that the message was cut.
fn is_truncated(octets: &[u8]) -> bool
    ensures { result ≡ is_truncated (head_of octets.now) }
{
    match head_at(octets) {
        Some(head) => bit(512, head.flags),
        None => false,
    }
}

fn outcome_of_message(message: &TryMessage, form: &TryForm, read: &WireMessage) -> ReplyOutcome
    ensures { result ≡ outcome_of_message message.now form.now read.now }
{
    if refuses_sent_opt(message, form, read) {
        return ReplyOutcome::WithoutOpt;
    }
    let code = read.message.metadata.response_code;
    if code != ResponseCode::NoError && code != ResponseCode::NXDomain {
        return ReplyOutcome::Code(code);
    }
    if is_lame(&read.message) {
        return ReplyOutcome::Lame;
    }
    if is_answer(&message.question().query, &read.message) {
        ReplyOutcome::Answer
    } else {
        ReplyOutcome::Negative
    }
}

// Whether it is a code of those that do not know OPT, to a try that had OPT and can do without.
fn refuses_sent_opt(message: &TryMessage, form: &TryForm, read: &WireMessage) -> bool
    ensures { result ≡ refuses_sent_opt message.now form.now read.now }
{
    knows_no_opt(read.message.metadata.response_code.code())
        && read.edns.is_none()
        && message.sends_opt(form)
        && !message.question().is_dnssec_ok()
}

/// The first SOA record.
pub fn first_soa(records: &[Record]) -> Option<&Record>
    ensures { option_copied result ≡ first_soa records.now }
{
    records
        .iter()
        .find(|found| found.rdata.soa_minimum().is_some())
}

fn has_soa(records: &[Record]) -> bool
    ensures { result ≡ is_some (first_soa records.now) }
{
    match first_soa(records) {
        Some(_) => true,
        None => false,
    }
}

fn has_name_server(records: &[Record]) -> bool
    ensures { result ≡ list_any (is_of_type RecordType.NS) records.now }
{
    records
        .iter()
        .any(|found| found.record_type() == RecordType::NS)
}

// Whether it says nothing of the name.
fn is_lame(read: &Message) -> bool
    ensures { result ≡ is_lame read.now }
{
    read.metadata.response_code == ResponseCode::NoError
        && read.answers.is_empty()
        && !has_soa(&read.authorities)
        && (has_name_server(&read.authorities)
            || (!read.metadata.recursion_available && !read.metadata.authoritative))
}

/// Whether a record is asked for by the question, at another name: by its type and its owner. Any type at all is asked
/// for by a question for any; and by one for SOA records that of a zone of the name, too.
pub fn is_asked(query: &Query, name: &Name, found: &Record) -> bool
    ensures { result ≡ is_asked (at_name query.now name.now) found.now }
{
    if query.query_type == RecordType::ANY {
        return *name == found.name;
    }
    if query.query_type == RecordType::SOA {
        return found.record_type() == RecordType::SOA && found.name.zone_of(name);
    }
    query.query_type == found.record_type() && *name == found.name
}

fn any_asked(query: &Query, name: &Name, records: &[Record]) -> bool
    ensures { result ≡ list_any (is_asked (at_name query.now name.now)) records.now }
{
    records.iter().any(|found| is_asked(query, name, found))
}

// Whether there is an answer where the aliases end, or aliases that lead on.
fn is_answer(query: &Query, read: &Message) -> bool
    ensures { result ≡ is_answered query.now read.now || leads_on query.now read.now }
{
    let (name, moved) = end_of(query, &read.answers);
    any_asked(query, name, &read.answers)
        || (moved
            && read.metadata.response_code != ResponseCode::NXDomain
            && !has_soa(&read.authorities))
}
