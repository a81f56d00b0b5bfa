//! Questions and answers to time with.
ghost use Rattle.std.specs.Prelude.{◌<◌};

use hickory_proto_core::{Message, Name, NetError, OpCode, Query, RData, Record, RecordType};
use std::alloc::Global;
use std::net::Ipv4Addr;

/// How many operations a batch has: few, so that what they are given is still in the processor's caches, as it is
/// where it has just come in.
pub const BATCH: usize = 100;

/// How many batches a round has.
pub const BATCHES: u64 = 1_000;

/// How many operations a round has.
pub const OPERATIONS: u64 = 100_000;

/// The seconds of a day.
pub const DAY: u64 = 86_400;

// A prime, so that its multiples reach every place before one comes again.
const STRIDE: u64 = 7_368_787;

/// The place that is visited `i`th, of so many: each once in a turn, far from the one before.
pub fn place(i: u64, count: u64) -> u64
    requires { 0 < count }
    ensures { result < count }
{
    i.wrapping_mul(STRIDE) % count
}

/// What there is one of for each number.
pub trait Numbered: Sized {
    /// That of a number.
    fn of(alloc: Global, number: u64) -> Result<Self, NetError>;
}

/// Those of the first numbers.
pub fn list<T: Numbered + Drop>(alloc: Global, count: u64) -> Result<Vec<T>, NetError> {
    let mut list = Vec::new(alloc);
    for number in 0..count {
        list.push(T::of(alloc, number)?)?;
    }
    Ok(list)
}

/// The text of a host's name.
impl Numbered for String {
    fn of(alloc: Global, number: u64) -> Result<String, NetError> {
        Ok(format!(in alloc; "host{number}.example.com.")?)
    }
}

/// A host's name.
impl Numbered for Name {
    fn of(alloc: Global, number: u64) -> Result<Name, NetError> {
        let text = String::of(alloc, number)?;
        Ok(Name::from_ascii(alloc, text.as_str())?)
    }
}

/// The question for a host's address.
impl Numbered for Query {
    fn of(alloc: Global, number: u64) -> Result<Query, NetError> {
        Ok(Query::query(Name::of(alloc, number)?, RecordType::A))
    }
}

/// A response to a question with so many answers of these data. A caller reads a name once: the names of the
/// response are copies of the asked one.
pub fn response(
    alloc: Global,
    query: &Query,
    ttl: u32,
    rdata: &RData,
    answers: u64,
) -> Result<Message, NetError> {
    let mut message = Message::response(alloc, 0, OpCode::Query);
    fill(&mut message, query, ttl, rdata, answers)?;
    Ok(message)
}

fn fill(
    message: &mut Message,
    query: &Query,
    ttl: u32,
    rdata: &RData,
    answers: u64,
) -> Result<(), NetError> {
    message.add_query(query.clone()?)?;
    for _ in 0..answers {
        let owner = query.name().clone()?;
        message.add_answer(Record::from_rdata(owner, ttl, rdata.clone()?))?;
    }
    Ok(())
}

/// The data of an address.
pub fn address() -> RData {
    RData::A(Ipv4Addr::new(192, 0, 2, 1))
}
