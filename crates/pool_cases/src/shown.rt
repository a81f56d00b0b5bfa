//! What is printed of an action.
use crate::outcomes::words_of;
use crate::setup::ServerName;
use hickory_proto_core::{Query, Record};
use hickory_proto_wire::WireMessage;
use hickory_resolver_pool::{ChannelKind, Opening, Over};
use std::alloc::Global;
use std::io;
use std::net::IpAddr;

/// A channel, the server that it is opened to, and what goes over it.
pub fn show_opening(
    rt: &impl Print,
    names: &[ServerName],
    opening: &Opening,
) -> anyhow::Result<()> {
    let channel = opening.channel;
    let name = name_of(names, opening.address);
    print!(rt; "  open {channel} to {name} by ")?;
    show_kind(rt, opening.kind)?;
    if opening.port != 53 {
        let port = opening.port;
        print!(rt; " at port {port}")?;
    }
    if let Some(bound) = opening.bind_addr {
        print!(rt; " from {bound}")?;
    }
    println!(rt; "")?;
    Ok(())
}

// What cases called the server of this address last.
fn name_of(names: &[ServerName], address: IpAddr) -> &str {
    match names.iter().rev().find(|one| one.address == address) {
        Some(one) => one.name.as_str(),
        None => "nobody",
    }
}

fn show_kind(rt: &impl Print, kind: ChannelKind) -> io::Result<()> {
    match kind {
        ChannelKind::Datagram => print!(rt; "UDP"),
        ChannelKind::Stream => print!(rt; "TCP"),
    }
}

/// A message that is sent: the question in small letters, and what else it says.
pub fn show_message(
    rt: &impl Print,
    alloc: Global,
    channel: u64,
    octets: &[u8],
) -> anyhow::Result<()> {
    let read = WireMessage::from_wire(alloc, octets)?;
    let done = show_read(rt, alloc, channel, &read);
    drop(read);
    done
}

fn show_read(
    rt: &impl Print,
    alloc: Global,
    channel: u64,
    read: &WireMessage,
) -> anyhow::Result<()> {
    for query in &read.message.queries {
        show_question(rt, alloc, channel, query)?;
    }
    show_bits(rt, read)?;
    println!(rt; "")?;
    Ok(())
}

fn show_question(
    rt: &impl Print,
    alloc: Global,
    channel: u64,
    query: &Query,
) -> anyhow::Result<()> {
    let mut name = query.name.to_string(alloc)?;
    name.make_ascii_lowercase();
    let kind = query.query_type;
    print!(rt; "  send {channel} {name} {kind}")?;
    Ok(())
}

fn show_bits(rt: &impl Print, read: &WireMessage) -> io::Result<()> {
    if !read.message.metadata.recursion_desired {
        print!(rt; " norec")?;
    }
    if read.checking_disabled {
        print!(rt; " cd")?;
    }
    if read.authentic_data {
        print!(rt; " ad")?;
    }
    if let Some(edns) = &read.edns {
        let size = edns.size;
        print!(rt; " edns {size}")?;
        if edns.flags == 32768 {
            print!(rt; " do")?;
        }
    }
    Ok(())
}

/// Who is told what.
pub fn show_over(rt: &impl Print, alloc: Global, over: &Over) -> anyhow::Result<()> {
    print!(rt; "  over")?;
    for number in over.askers() {
        print!(rt; " {number}")?;
    }
    let words = words_of(alloc, over)?;
    print!(rt; ": {words}")?;
    if let Some(read) = over.message() {
        show_response(rt, read, words.as_str().starts_with("code"))?;
    } else {
        println!(rt; "")?;
    }
    Ok(())
}

// Question and records, unless it is told as a code.
fn show_response(rt: &impl Print, read: &WireMessage, is_code: bool) -> io::Result<()> {
    if is_code {
        return println!(rt; "");
    }
    for query in &read.message.queries {
        print!(rt; " {query}")?;
    }
    println!(rt; "")?;
    show_records(rt, "answer", &read.message.answers)?;
    show_records(rt, "authority", &read.message.authorities)?;
    show_records(rt, "additional", &read.message.additionals)
}

fn show_records(rt: &impl Print, section: &str, records: &[Record]) -> io::Result<()> {
    for one in records {
        println!(rt; "    {section} {one}")?;
    }
    Ok(())
}

/// The next moment at which a tick is wanted.
pub fn show_next(rt: &impl Print, next: Option<u64>) -> io::Result<()> {
    match next {
        Some(moment) => println!(rt; "  next {moment}"),
        None => println!(rt; "  next none"),
    }
}
