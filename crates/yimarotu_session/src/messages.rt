//! Questions and what look-ups came to, as messages.
ghost use Rattle.std.specs.Prelude.{◌≡◌, ◌∷◌, [], IfOk, map};
ghost use Rattle.hickory_proto_core.specs.Errors.{items_or_none};
ghost use Rattle.yimarotu_session.specs.Messages.{announced, negative_message, question_message, records_or, response_message, whole_query, whole_record};

use hickory_proto_core::{DnsRequestOptions, Message, NetError, NoRecords, Query, Record};
use hickory_proto_wire::{Edns, WireMessage};
use std::alloc::{AllocError, Global};

/// The message by which a question is sent with these options. Its id is 0.
pub fn question_message(
    alloc: Global,
    question: &Query,
    options: DnsRequestOptions,
) -> Result<WireMessage, NetError>
    ensures { IfOk result (λ m. m ≡ question_message question.now options) }
{
    let mut message = Message::query(alloc);
    message.metadata.recursion_desired = options.recursion_desired;
    message.add_query(question.clone()?)?;
    Ok(WireMessage {
        is_response: false,
        reserved: false,
        authentic_data: false,
        checking_disabled: false,
        edns: announced(alloc, options),
        message,
    })
}

// What EDNS announces.
fn announced(alloc: Global, options: DnsRequestOptions) -> Option<Edns>
    ensures { result ≡ announced options }
{
    if !options.use_edns {
        return None;
    }
    Some(Edns {
        size: options.edns_payload_len,
        version: 0,
        flags: 0,
        options: Vec::new(alloc),
    })
}

/// The message as a response, without OPT. The names that are asked and that own answers are made absolute, since no
/// octets spell relative ones: an address that was looked up has such a name.
pub fn response_message(message: Message) -> WireMessage
    ensures { result ≡ response_message message }
{
    let mut whole = message;
    whole_queries(&mut whole.queries);
    whole_records(&mut whole.answers);
    WireMessage {
        is_response: true,
        reserved: false,
        authentic_data: false,
        checking_disabled: false,
        edns: None,
        message: whole,
    }
}

fn whole_queries(queries: &mut Vec<Query>)
    ensures { queries.new.items ≡ map whole_query queries.old.items }
{
    for asked in queries.iter_mut() {
        whole_query(asked);
    }
}

pub(crate) fn whole_query(query: &mut Query)
    ensures { query.new ≡ whole_query query.old }
{
    query.name.set_fqdn(true);
}

fn whole_records(records: &mut Vec<Record>)
    ensures { records.new.items ≡ map whole_record records.old.items }
{
    for owned in records.iter_mut() {
        whole_record(owned);
    }
}

fn whole_record(owned: &mut Record)
    ensures { owned.new ≡ whole_record owned.old }
{
    owned.name.set_fqdn(true);
}

/// A negative answer as a message.
pub fn negative_message(alloc: Global, none: &NoRecords) -> Result<Message, NetError>
    ensures { IfOk result (λ m. m ≡ negative_message none.now) }
{
    let mut message = Message::query(alloc);
    message.metadata.response_code = none.response_code;
    message.add_query(none.query.clone()?)?;
    message.authorities = records_or(alloc, &none.soa, &none.authorities)?;
    Ok(message)
}

// The records of the authority section of a negative answer.
fn records_or(
    alloc: Global,
    soa: &Option<Record>,
    authorities: &Option<Vec<Record>>,
) -> Result<Vec<Record>, AllocError>
    ensures { IfOk result (λ records. records.items ≡ records_or soa.now (items_or_none authorities.now)) }
{
    match (authorities, soa) {
        (Some(records), _) => Clone::clone(records),
        (None, Some(soa)) => Ok(vec![in alloc; Clone::clone(soa)?]?),
        (None, None) => Ok(Vec::new(alloc)),
    }
}
