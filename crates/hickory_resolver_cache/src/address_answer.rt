//! Answers of one address, without lists.
ghost use Rattle.std.specs.Prelude.{◌≡◌, ◌∷◌, [], IfOk, MatchOption};
ghost use Rattle.hickory_resolver_model.specs.Cache.{aged_message};
ghost use Rattle.hickory_resolver_cache.specs.Outcome.{IsAddressAnswer};

use hickory_proto_core::{DNSClass, Message, Metadata, Name, Query, RData, Record};
use std::alloc::{AllocError, Global};
use std::marker::Model;
use std::net::IpAddr;

/// A message of one question, one answer with an address and no other record. It has no lists, so it takes no
/// memory beside that of its names, and what stands in it is short.
#[derive(Drop)]
pub struct AddressAnswer {
    metadata: Metadata,
    query: Query,
    name: Name,
    dns_class: DNSClass,
    ttl: u32,
    address: IpAddr,
}

impl Model for AddressAnswer {
    ghost use Rattle.std.specs.Prelude.{◌∷◌, []};
    ghost use Rattle.hickory_proto_core.specs.Messages.{MessageValue};
    ghost use Rattle.hickory_proto_core.specs.Records.{data_of_address};

    ghost Value = { MessageValue };

    ghost view = { λ a. record {
      metadata = a.metadata;
      queries = a.query ∷ [];
      answers = record { name = a.name; dns_class = a.dns_class; ttl = a.ttl; rdata = data_of_address a.address } ∷ [];
      authorities = [];
      additionals = [];
    } };
}

impl AddressAnswer {
    // The message without its lists.
    pub fn of(message: Message, address: IpAddr) -> AddressAnswer
        requires { IsAddressAnswer address message }
        ensures { result ≡ message }
    {
        let Message {
            metadata,
            mut queries,
            mut answers,
            ..
        } = message;
        let Record {
            name,
            dns_class,
            ttl,
            ..
        } = answers.pop().unwrap();
        AddressAnswer {
            metadata,
            query: queries.pop().unwrap(),
            name,
            dns_class,
            ttl,
            address,
        }
    }

    // The message, its TTL lower by these seconds.
    pub fn aged(&self, alloc: Global, seconds: u32) -> Result<Message, AllocError>
        ensures { IfOk result (λ message. message ≡ aged_message seconds self.now) }
    {
        let answer = Record {
            name: Clone::clone(&self.name)?,
            dns_class: self.dns_class,
            ttl: self.ttl.saturating_sub(seconds),
            rdata: RData::from(self.address),
        };
        Ok(Message {
            metadata: self.metadata,
            queries: list_of(alloc, Clone::clone(&self.query)?)?,
            answers: list_of(alloc, answer)?,
            authorities: Vec::new(alloc),
            additionals: Vec::new(alloc),
        })
    }
}

/// The address of a message of one question, one answer with an address and no other record; none of any other
/// message.
pub fn single_address(message: &Message) -> Option<IpAddr>
    ensures { MatchOption result ((address : IpAddr) → IsAddressAnswer address message.now → ⊥)
        (λ address. IsAddressAnswer address message.now) }
{
    if message.queries.len() != 1
        || !message.authorities.is_empty()
        || !message.additionals.is_empty()
    {
        return None;
    }
    match message.answers.as_slice() {
        [answer] => answer.rdata.ip_addr(),
        _ => None,
    }
}

// A list of one item.
fn list_of<T: Drop>(alloc: Global, item: T) -> Result<Vec<T>, AllocError>
    ensures { IfOk result (λ items. items.items ≡ item ∷ []) }
{
    let Ok(mut items) = Vec::with_capacity(alloc, 1) else {
        drop(item);
        return Err(AllocError);
    };
    items.push(item)?;
    Ok(items)
}
