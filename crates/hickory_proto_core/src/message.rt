//! Messages, without a wire format.
ghost use Rattle.std.specs.Prelude.{◌≡◌, ◌++◌, ◌∷◌, [], IfOk, OnOk, OnErr, IsOkUnless};
ghost use Rattle.hickory_proto_core.specs.Messages.{response_metadata, MessageValue};

use crate::net_error::NetError;
use crate::query::Query;
use crate::resource::Record;
use hickory_proto_codes::{OpCode, ResponseCode};
use std::alloc::{AllocError, Global};
use std::marker::Model;

/// The header of a message (RFC 1035, section 4.1.1).
#[derive(Clone, Copy, Debug, PartialEq, Eq)]
pub struct Metadata {
    /// Tells a message from others.
    pub id: u16,
    /// The kind of message.
    pub op_code: OpCode,
    /// Whether the server has authority over the name that was asked.
    pub authoritative: bool,
    /// Whether the message was cut short.
    pub truncation: bool,
    /// Whether the server is asked to recurse.
    pub recursion_desired: bool,
    /// Whether the server can recurse.
    pub recursion_available: bool,
    /// How the response went.
    pub response_code: ResponseCode,
}

/// A message: a header, the questions, and three sections of records (RFC 1035, section 4.1).
#[derive(Debug, Drop)]
pub struct Message {
    pub metadata: Metadata,
    pub queries: Vec<Query>,
    pub answers: Vec<Record>,
    pub authorities: Vec<Record>,
    pub additionals: Vec<Record>,
}

impl Model for Message {
    ghost use Rattle.hickory_proto_core.specs.Messages.{MessageValue};

    ghost Value = { MessageValue };

    ghost view = { λ m. record {
      metadata = m.metadata;
      queries = m.queries.items;
      answers = m.answers.items;
      authorities = m.authorities.items;
      additionals = m.additionals.items;
    } };
}

impl Message {
    /// A query without questions.
    pub fn query(alloc: Global) -> Message
        ensures { result ≡ record {
          metadata = response_metadata 0 OpCode.Query;
          queries = [];
          answers = [];
          authorities = [];
          additionals = [];
        } }
    {
        Message::response(alloc, 0, OpCode::Query)
    }

    /// A response of this id and kind with the code NOERROR, no flag, no question and no record.
    pub fn response(alloc: Global, id: u16, op_code: OpCode) -> Message
        ensures { result ≡ record {
          metadata = response_metadata id op_code;
          queries = [];
          answers = [];
          authorities = [];
          additionals = [];
        } }
    {
        Message {
            metadata: Metadata {
                id,
                op_code,
                authoritative: false,
                truncation: false,
                recursion_desired: false,
                recursion_available: false,
                response_code: ResponseCode::NoError,
            },
            queries: Vec::new(alloc),
            answers: Vec::new(alloc),
            authorities: Vec::new(alloc),
            additionals: Vec::new(alloc),
        }
    }

    /// Adds a question. A refused one changes nothing.
    pub fn add_query(&mut self, query: Query) -> Result<(), NetError>
        ensures ok { OnOk result (self.new ≡ record self.old { queries = self.old.queries ++ query ∷ [] }) }
        ensures unchanged { OnErr result (self.new ≡ self.old) }
        ensures err { IsOkUnless result NetError.OutOfMemory }
    {
        push_last(&mut self.queries, query)?;
        Ok(())
    }

    /// Adds a record to the answer section. A refused one changes nothing.
    pub fn add_answer(&mut self, added: Record) -> Result<(), NetError>
        ensures ok { OnOk result (self.new ≡ record self.old { answers = self.old.answers ++ added ∷ [] }) }
        ensures unchanged { OnErr result (self.new ≡ self.old) }
        ensures err { IsOkUnless result NetError.OutOfMemory }
    {
        push_last(&mut self.answers, added)?;
        Ok(())
    }

    /// Adds records to the answer section, in order. Where there is no memory for them all, nothing changes.
    pub fn add_answers(&mut self, added: Vec<Record>) -> Result<(), NetError>
        ensures ok { OnOk result (self.new ≡ record self.old { answers = self.old.answers ++ added.items }) }
        ensures unchanged { OnErr result (self.new ≡ self.old) }
        ensures err { IsOkUnless result NetError.OutOfMemory }
    {
        append_last(&mut self.answers, added)?;
        Ok(())
    }

    /// Adds a record to the authority section. A refused one changes nothing.
    pub fn add_authority(&mut self, added: Record) -> Result<(), NetError>
        ensures ok { OnOk result (self.new ≡ record self.old {
          authorities = self.old.authorities ++ added ∷ [];
        }) }
        ensures unchanged { OnErr result (self.new ≡ self.old) }
        ensures err { IsOkUnless result NetError.OutOfMemory }
    {
        push_last(&mut self.authorities, added)?;
        Ok(())
    }

    /// Adds records to the authority section, in order. Where there is no memory for them all, nothing
    /// changes.
    pub fn add_authorities(&mut self, added: Vec<Record>) -> Result<(), NetError>
        ensures ok { OnOk result (self.new ≡ record self.old {
          authorities = self.old.authorities ++ added.items;
        }) }
        ensures unchanged { OnErr result (self.new ≡ self.old) }
        ensures err { IsOkUnless result NetError.OutOfMemory }
    {
        append_last(&mut self.authorities, added)?;
        Ok(())
    }

    /// Adds a record to the additional section. A refused one changes nothing.
    pub fn add_additional(&mut self, added: Record) -> Result<(), NetError>
        ensures ok { OnOk result (self.new ≡ record self.old {
          additionals = self.old.additionals ++ added ∷ [];
        }) }
        ensures unchanged { OnErr result (self.new ≡ self.old) }
        ensures err { IsOkUnless result NetError.OutOfMemory }
    {
        push_last(&mut self.additionals, added)?;
        Ok(())
    }

    /// Adds records to the additional section, in order. Where there is no memory for them all, nothing
    /// changes.
    pub fn add_additionals(&mut self, added: Vec<Record>) -> Result<(), NetError>
        ensures ok { OnOk result (self.new ≡ record self.old {
          additionals = self.old.additionals ++ added.items;
        }) }
        ensures unchanged { OnErr result (self.new ≡ self.old) }
        ensures err { IsOkUnless result NetError.OutOfMemory }
    {
        append_last(&mut self.additionals, added)?;
        Ok(())
    }

    /// A copy of every field.
    pub fn clone(&self) -> Result<Message, NetError>
        ensures ok { IfOk result (λ m. m ≡ self.now) }
        ensures err { IsOkUnless result NetError.OutOfMemory }
    {
        Ok(Clone::clone(self)?)
    }
}

/// A copy equals its source.
impl Clone for Message {
    ghost use Rattle.std.specs.Prelude.{◌≡◌};

    ghost is_clone = { λ message copy. copy ≡ message };

    fn clone(&self) -> Result<Message, AllocError> {
        Ok(Message {
            metadata: self.metadata,
            queries: self.queries.clone()?,
            answers: self.answers.clone()?,
            authorities: self.authorities.clone()?,
            additionals: self.additionals.clone()?,
        })
    }
}

impl PartialEq for Message {
    ghost use Rattle.std.specs.Cmp.{partial_equiv_from_equiv};
    ghost use Rattle.hickory_proto_core.specs.Messages.{message_eq, message_equiv};

    ghost eq = { message_eq };

    ghost laws = { partial_equiv_from_equiv message_equiv };

    fn eq(&self, other: &Message) -> bool {
        self.metadata == other.metadata
            && self.queries == other.queries
            && self.answers == other.answers
            && self.authorities == other.authorities
            && self.additionals == other.additionals
    }
}

impl Eq for Message {
    ghost use Rattle.hickory_proto_core.specs.Messages.{message_equiv};

    ghost laws = { message_equiv };
}

// Puts an item last. The first one gets room for itself alone, since most sections hold no more.
fn push_last<T: Drop>(items: &mut Vec<T>, item: T) -> Result<(), AllocError>
    ensures ok { OnOk result (items.new.items ≡ items.old.items ++ item ∷ []) }
    ensures unchanged { OnErr result (items.new.items ≡ items.old.items) }
{
    if items.is_empty() && items.reserve_exact(1).is_err() {
        drop(item);
        return Err(AllocError);
    }
    items.push(item)?;
    Ok(())
}

// Puts more items last, in order. Where there is none before them, they are kept where they are.
fn append_last<T: Drop>(items: &mut Vec<T>, added: Vec<T>) -> Result<(), AllocError>
    ensures ok { OnOk result (items.new.items ≡ items.old.items ++ added.items) }
    ensures unchanged { OnErr result (items.new.items ≡ items.old.items) }
{
    if items.is_empty() {
        *items = added;
        return Ok(());
    }
    let mut added = added;
    items.append(&mut added)?;
    Ok(())
}
