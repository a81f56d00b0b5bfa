//! Replies that are stored. A line says how many seconds later, how many octets of room, and whether the upstream is
//! trusted; a reply that came from it; and a client's query. Printed is what the client is told of the reply.
use crate::words::{numbers_of, octets_of, show_octets};
use client_queries::{ClientQuery, read_query};
use hickory_proto_core::Query;
use hickory_proto_wire::WireMessage;
use std::alloc::{AllocError, Global};
use stored_replies::StoredReply;
use whole_replies::KeptReply;

// What the numbers of a line say.
#[derive(Clone, Copy, Debug)]
struct Numbers {
    now: u64,
    room: usize,
    trust: bool,
}

/// Each line.
pub fn run(rt: &impl Print, alloc: Global, cases: &str) -> anyhow::Result<()> {
    for line in cases.lines() {
        take(rt, alloc, line)?;
    }
    Ok(())
}

// A comment is printed as it stands.
fn take(rt: &impl Print, alloc: Global, line: &str) -> anyhow::Result<()> {
    if line.starts_with("#") {
        let _ = rt.println(line);
        return Ok(());
    }
    let mut parts = line.split("|");
    let first = parts.next().unwrap_or("");
    let numbers = said_of(first, &numbers_of(alloc, first)?);
    let message = octets_of(alloc, parts.next().unwrap_or(""))?;
    let query = octets_of(alloc, parts.next().unwrap_or(""))?;
    show(rt, alloc, &numbers, &message, &query)
}

fn said_of(text: &str, numbers: &[u64]) -> Numbers {
    Numbers {
        now: numbers.first().copied().unwrap_or(0),
        room: numbers.get(1).copied().unwrap_or(0) as usize,
        trust: text.contains("trust"),
    }
}

fn show(
    rt: &impl Print,
    alloc: Global,
    numbers: &Numbers,
    message: &[u8],
    octets: &[u8],
) -> anyhow::Result<()> {
    let stored = stored(alloc, message)?;
    match (stored, read_query(octets)) {
        (Some(stored), Some(query)) => {
            Ok(show_told(rt, alloc, numbers, &stored, octets, &query)?)
        }
        _ => {
            let _ = rt.println("nothing");
            Ok(())
        }
    }
}

fn stored(alloc: Global, message: &[u8]) -> anyhow::Result<Option<StoredReply>> {
    let reply = WireMessage::from_wire(alloc, message)?;
    let Some(query) = question(&reply)? else {
        return Ok(None);
    };
    match KeptReply::of(alloc, &query, true, reply)? {
        Some(kept) => Ok(Some(StoredReply::of(alloc, &query, kept, 0)?)),
        None => Ok(None),
    }
}

fn question(reply: &WireMessage) -> anyhow::Result<Option<Query>> {
    match reply.message.queries.first() {
        Some(query) => Ok(Some(Query {
            name: Clone::clone(&query.name)?,
            query_type: query.query_type,
            query_class: query.query_class,
        })),
        None => Ok(None),
    }
}

fn show_told(
    rt: &impl Print,
    alloc: Global,
    numbers: &Numbers,
    stored: &StoredReply,
    octets: &[u8],
    query: &ClientQuery,
) -> Result<(), AllocError> {
    let mut room = vec![in alloc; 170; numbers.room]?;
    let word = if stored.is_current(numbers.now) {
        "told"
    } else {
        "late"
    };
    if let Some(length) = stored.write(octets, query, numbers.trust, numbers.now, &mut room) {
        return show_beginning(rt, alloc, word, &room, length);
    }
    match stored.write_cut(octets, query, numbers.trust, &mut room) {
        Some(length) => show_beginning(rt, alloc, "cut", &room, length),
        None => {
            let _ = rt.println("none");
            Ok(())
        }
    }
}

fn show_beginning(
    rt: &impl Print,
    alloc: Global,
    word: &str,
    room: &[u8],
    length: usize,
) -> Result<(), AllocError> {
    show_octets(rt, alloc, word, &room[..length.min(room.len())])
}
