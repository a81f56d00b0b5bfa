//! What a look-up gives.
ghost use Rattle.std.specs.Prelude.{◌≡◌, [], ◌++◌, IfOk, OnOk, OnErr, IsOkUnless, length, min, vec_len, vec_capacity, IsOk, ◌+◌, ◌<◌, ◌≤◌};
ghost use Rattle.hickory_resolver_model.specs.Bounds.{least_ttl};
ghost use Rattle.hickory_resolver_model.specs.Hosts.{append, append_messages};
ghost use Rattle.hickory_resolver_model.specs.Lookup.{LookupValue, with_question, hit_lookup, found_lookup, hit_seconds, answers_until, answers_for_day, more_authorities, more_additionals};
ghost use Rattle.hickory_resolver_model.specs.SpecialUse.{one_record};
ghost use Rattle.hickory_proto_core.specs.ResponseKind.{first_query};
ghost use Rattle.hickory_proto_core.specs.Records.{data_of};

use crate::ttl_bounds::MAX_TTL;
use crate::ttl_config::TtlConfig;
use hickory_proto_core::{Message, NetError, OpCode, Query, RData, Record};
use std::alloc::{AllocError, Global};
use std::marker::Model;
use std::mem;

/// The message that a look-up came to, which always has a question, and until when it may be used (seconds).
#[derive(Debug, Drop)]
pub struct Lookup {
    message: Message,
    valid_until: u64,
}

impl Model for Lookup {
    ghost use Rattle.std.specs.Prelude.{◌<◌, length};
    ghost use Rattle.hickory_resolver_model.specs.Lookup.{LookupValue};

    ghost Value = { LookupValue };

    ghost view = { λ l. record { message = l.message; valid_until = l.valid_until } };

    ghost invariant = { λ l. 0 < length l.message.queries };
}

impl Lookup {
    /// The message with its own question, or with this one where it has none.
    pub fn of_message(query: Query, message: Message, valid_until: u64) -> Result<Lookup, NetError>
        ensures ok { IfOk result (λ l. l ≡ record {
          message = with_question query message;
          valid_until = valid_until;
        }) }
        ensures err { IsOkUnless result NetError.OutOfMemory }
    {
        let mut message = message;
        if message.queries.is_empty() {
            message.add_query(query)?;
        }
        Ok(Lookup {
            message,
            valid_until,
        })
    }

    /// A message out of the cache: it may be used for its least answer TTL, or a day without answers.
    pub fn of_hit(query: Query, message: Message, now: u64) -> Result<Lookup, NetError>
        ensures ok { IfOk result (λ l. l ≡ hit_lookup query message now) }
        ensures err { IsOkUnless result NetError.OutOfMemory }
    {
        let seconds = hit_seconds(&message);
        Lookup::of_message(query, message, now.saturating_add(seconds))
    }

    /// An accepted response: its TTLs are clamped, and it may be used for its lifetime.
    pub fn of_response(
        config: &TtlConfig,
        query: Query,
        message: Message,
        now: u64,
    ) -> Result<Lookup, NetError>
        ensures ok { IfOk result (λ l. l ≡ found_lookup config.now query message now) }
        ensures err { IsOkUnless result NetError.OutOfMemory }
    {
        let mut message = message;
        config.clamp(&mut message);
        let seconds = config.positive_lifetime(&query, &message);
        Lookup::of_message(query, message, now.saturating_add(seconds))
    }

    /// One record of the question's name with these data, which may be used for a day from this moment
    /// (seconds).
    pub fn from_rdata(
        alloc: Global,
        query: Query,
        rdata: RData,
        now: u64,
    ) -> Result<Lookup, NetError>
        ensures ok { IfOk result (λ l. l ≡ one_record query (data_of rdata) now) }
        ensures err { IsOkUnless result NetError.OutOfMemory }
    {
        let record = Record::from_rdata(query.name.clone()?, MAX_TTL, rdata);
        let records = vec![in alloc; record]?;
        Lookup::new_with_max_ttl(query, records, now)
    }

    /// A fresh response to a question with these answers, which may be used for a day from this moment
    /// (seconds).
    pub fn new_with_max_ttl(
        query: Query,
        records: Vec<Record>,
        now: u64,
    ) -> Result<Lookup, NetError>
        ensures ok { IfOk result (λ l. l ≡ answers_for_day query records.items now) }
        ensures err { IsOkUnless result NetError.OutOfMemory }
    {
        Lookup::new_with_deadline(query, records, now.saturating_add(u64::from(MAX_TTL)))
    }

    /// A fresh response to a question with these answers, which may be used up to this moment (seconds).
    pub fn new_with_deadline(
        query: Query,
        records: Vec<Record>,
        valid_until: u64,
    ) -> Result<Lookup, NetError>
        ensures ok { IfOk result (λ l. l ≡ answers_until query records.items valid_until) }
        ensures err { IsOkUnless result NetError.OutOfMemory }
    {
        let mut message = Message::response(*records.allocator(), 0, OpCode::Query);
        message.answers = records;
        Lookup::of_message(query, message, valid_until)
    }

    /// The first question; there is one.
    pub fn query(&self) -> &Query
        ensures first { result.now ≡ first_query self.now.message.queries }
        ensures some { 0 < length self.now.message.queries }
    {
        &self.message.queries[0]
    }

    /// The message.
    pub fn message(&self) -> &Message
        ensures { result.now ≡ self.now.message }
    {
        &self.message
    }

    /// The records of the answer section.
    pub fn answers(&self) -> &[Record]
        ensures { result.now ≡ self.now.message.answers }
    {
        &self.message.answers
    }

    /// The records of the authority section.
    pub fn authorities(&self) -> &[Record]
        ensures { result.now ≡ self.now.message.authorities }
    {
        &self.message.authorities
    }

    /// The records of the additional section.
    pub fn additionals(&self) -> &[Record]
        ensures { result.now ≡ self.now.message.additionals }
    {
        &self.message.additionals
    }

    /// The last moment (seconds) at which it may be used.
    pub fn valid_until(&self) -> u64
        ensures { result ≡ self.now.valid_until }
    {
        self.valid_until
    }

    /// The message, by value.
    pub fn into_message(self) -> Message
        ensures { result ≡ self.message }
    {
        self.message
    }

    /// The look-up, which may be used up to a moment (seconds) at the most.
    pub fn not_after(self, limit: u64) -> Lookup
        ensures { result ≡ record self { valid_until = min self.valid_until limit } }
    {
        Lookup {
            message: self.message,
            valid_until: self.valid_until.min(limit),
        }
    }

    /// Both look-ups as one: each section of this one and then of the other, the rest of this one's message,
    /// and the sooner of the two deadlines.
    pub fn append(&self, other: Lookup) -> Result<Lookup, NetError>
        ensures ok { IfOk result (λ l. l ≡ append self.now other) }
        ensures err { IsOkUnless result NetError.OutOfMemory }
    {
        let mut joined = self.clone()?;
        joined.append_in_place(other)?;
        Ok(joined)
    }

    /// As `append`, in the place of this look-up. Where there is no memory, nothing changes.
    pub fn append_in_place(&mut self, other: Lookup) -> Result<(), NetError>
        ensures ok { OnOk result (self.new ≡ append self.old other) }
        ensures unchanged { OnErr result (self.new ≡ self.old) }
        ensures err { IsOkUnless result NetError.OutOfMemory }
    {
        append_sections(&mut self.message, other.message)?;
        self.valid_until = self.valid_until.min(other.valid_until);
        Ok(())
    }

    /// This look-up joined to a fresh response to a question, without records, which may be used for a day
    /// from this moment (seconds). Takes no memory: the sections stay where they are.
    pub fn into_answer_to(self, query: Query, now: u64) -> Lookup
        ensures { result ≡ append (answers_for_day query [] now) self }
    {
        let deadline = now.saturating_add(u64::from(MAX_TTL));
        let valid_until = deadline.min(self.valid_until);
        let mut message = self.message;
        message.metadata = Message::query(*message.queries.allocator()).metadata;
        message.queries[0] = query;
        message.queries.truncate(1);
        Lookup {
            message,
            valid_until,
        }
    }

    /// Adds records to the authority section, in order. Where there is no memory for them all, nothing
    /// changes.
    pub fn extend_authorities(&mut self, records: Vec<Record>) -> Result<(), NetError>
        ensures ok { OnOk result (self.new ≡ more_authorities self.old records.items) }
        ensures unchanged { OnErr result (self.new ≡ self.old) }
        ensures err { IsOkUnless result NetError.OutOfMemory }
    {
        self.message.add_authorities(records)
    }

    /// Adds records to the additional section, in order. Where there is no memory for them all, nothing
    /// changes.
    pub fn extend_additionals(&mut self, records: Vec<Record>) -> Result<(), NetError>
        ensures ok { OnOk result (self.new ≡ more_additionals self.old records.items) }
        ensures unchanged { OnErr result (self.new ≡ self.old) }
        ensures err { IsOkUnless result NetError.OutOfMemory }
    {
        self.message.add_additionals(records)
    }

    /// A copy of every field.
    pub fn clone(&self) -> Result<Lookup, NetError>
        ensures ok { IfOk result (λ l. l ≡ self.now) }
        ensures err { IsOkUnless result NetError.OutOfMemory }
    {
        Ok(Lookup {
            message: self.message.clone()?,
            valid_until: self.valid_until,
        })
    }
}

impl PartialEq for Lookup {
    ghost use Rattle.std.specs.Cmp.{partial_equiv_from_equiv};
    ghost use Rattle.hickory_resolver_model.specs.Lookup.{lookup_eq, lookup_equiv};

    ghost eq = { lookup_eq };

    ghost laws = { partial_equiv_from_equiv lookup_equiv };

    fn eq(&self, other: &Lookup) -> bool {
        self.message == other.message && self.valid_until == other.valid_until
    }
}

impl Eq for Lookup {
    ghost use Rattle.hickory_resolver_model.specs.Lookup.{lookup_equiv};

    ghost laws = { lookup_equiv };
}

impl From<Lookup> for Message {
    ghost use Rattle.std.specs.Prelude.{◌≡◌};

    ghost from_gives = { λ lookup message. message ≡ lookup.message };

    fn from(lookup: Lookup) -> Message {
        lookup.into_message()
    }
}

// Adds each section of the one message to that of the other. There is room for all three before any record is
// moved.
fn append_sections(message: &mut Message, added: Message) -> Result<(), NetError>
    ensures ok { OnOk result (message.new ≡ append_messages message.old added) }
    ensures unchanged { OnErr result (message.new ≡ message.old) }
    ensures err { IsOkUnless result NetError.OutOfMemory }
{
    let mut added = added;
    make_room(&mut message.answers, added.answers.len())?;
    make_room(&mut message.authorities, added.authorities.len())?;
    make_room(&mut message.additionals, added.additionals.len())?;
    move_records(&mut message.answers, &mut added.answers);
    move_records(&mut message.authorities, &mut added.authorities);
    move_records(&mut message.additionals, &mut added.additionals);
    Ok(())
}

// Makes room for so many more records, unless there are none yet: others can then take their place whole.
fn make_room(records: &mut Vec<Record>, count: usize) -> Result<(), AllocError>
    ensures items { records.new.items ≡ records.old.items }
    ensures room { OnOk result (0 < vec_len records.new → vec_len records.new + count ≤ vec_capacity records.new) }
{
    if records.is_empty() {
        return Ok(());
    }
    records.reserve(count)
}

// Moves the records to the end of a vector that has room for them. Where it is empty, they stay where they are.
fn move_records(records: &mut Vec<Record>, added: &mut Vec<Record>)
    requires { 0 < vec_len records.old → vec_len records.old + vec_len added.old ≤ vec_capacity records.old }
    ensures { records.new.items ≡ records.old.items ++ added.old.items }
{
    if records.is_empty() {
        mem::swap(records, added);
        return;
    }
    let moved = records.append(added);
    prove!(moved.is_ok());
}

fn hit_seconds(message: &Message) -> u64
    ensures { result ≡ hit_seconds message.now }
{
    match least_ttl(&message.answers) {
        Some(ttl) => u64::from(ttl),
        None => u64::from(MAX_TTL),
    }
}

fn least_ttl(records: &[Record]) -> Option<u32>
    ensures { result ≡ least_ttl records.now }
{
    let (first, others) = records.split_first()?;
    let mut least = first.ttl;
    for other in others {
        least = least.min(other.ttl);
    }
    Some(least)
}
