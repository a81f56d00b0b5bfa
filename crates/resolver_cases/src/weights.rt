//! What entries of a cache weigh: it is filled with copies of one reply after another, and tells how many octets it
//! holds, for each of its own. Lines stand before and behind what is filled, so that who counts the octets that the
//! program takes can tell which of them belong to the cache. For one copy the numbers are those of the definition.
use hickory_proto_core::{DNSClass, DnsError, DnsResponse, Message, NetError, Query};
use hickory_proto_wire::{WireError, WireMessage};
use hickory_resolver::{ResponseCache, TtlConfig};
use std::alloc::Global;
use std::hash::BuildHasherDefault;

/// Of each line, a name and the octets of a reply, so many copies.
pub fn show_all(rt: &impl Print, alloc: Global, copies: u16, replies: &str) -> anyhow::Result<()> {
    let _ = rt.println("# weights");
    for line in replies.lines() {
        if let Some((name, digits)) = line.split_once(' ') {
            let _ = rt.println(name);
            let octets = hex::decode(alloc, digits)?;
            show(rt, alloc, copies, &octets)?;
        }
    }
    Ok(())
}

fn show(rt: &impl Print, alloc: Global, copies: u16, octets: &[u8]) -> anyhow::Result<()> {
    let cache = filled(alloc, copies, octets)?;
    let held = cache.octets();
    let _ = println!(rt; "holds {}", held.unwrap_or(0));
    // `drop` costs the prover less than the end of the block.
    drop(cache);
    Ok(())
}

// As much as leaves nothing out.
const OCTETS: u64 = 1 << 40;

// A cache with so many copies of what these octets say, each read by itself, and for a question of its own class.
fn filled(alloc: Global, copies: u16, octets: &[u8]) -> anyhow::Result<ResponseCache> {
    let bounds = TtlConfig::default(alloc);
    let hasher = BuildHasherDefault::new();
    let mut cache = ResponseCache::with_limits(
        alloc,
        u64::from(copies),
        Some(OCTETS),
        bounds,
        hasher,
    );
    let kept = keep_all(alloc, copies, octets, &mut cache);
    if let Err(error) = kept {
        drop(cache);
        return Err(error);
    }
    Ok(cache)
}

fn keep_all(
    alloc: Global,
    copies: u16,
    octets: &[u8],
    cache: &mut ResponseCache,
) -> anyhow::Result<()> {
    for class in 0..copies {
        let question = question_of(alloc, octets, class)?;
        let outcome = outcome_of(read(alloc, octets)?);
        cache.insert(question, outcome, 0)?;
    }
    Ok(())
}

fn read(alloc: Global, octets: &[u8]) -> Result<Message, WireError> {
    let read = WireMessage::from_wire(alloc, octets)?;
    Ok(read.message)
}

// What a client keeps of a response.
fn outcome_of(message: Message) -> Result<Message, NetError> {
    match DnsError::from_response(DnsResponse::from_message(message)) {
        Ok(response) => Ok(response.into_message()),
        Err(error) => Err(error),
    }
}

// The question of the message, read by itself, in this class.
fn question_of(alloc: Global, octets: &[u8], class: u16) -> anyhow::Result<Query> {
    let mut message = read(alloc, octets)?;
    let mut question = message.queries.pop().ok_or(WireError::OutOfMemory)?;
    question.query_class = DNSClass::from_code(class);
    Ok(question)
}
