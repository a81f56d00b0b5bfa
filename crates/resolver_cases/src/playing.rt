//! Lists of events, each over a resolver of its own whose cache has room for two entries. A list begins behind `#` with
//! a heading, and has a line for each event:
//!
//! - `start NAME MOMENT`, a look-up of the addresses of a name is started. The moment is in seconds;
//! - `start_ip HOST MOMENT`, a look-up of both families;
//! - `NUMBER gets OWNER SECONDS DATA`, a call is handed a response with this record, whose data are an address or the
//!   target of an alias; `NUMBER gets memory`, out of memory, and `NUMBER gets timeout`, no response in time;
//! - `NUMBER dropped`, a call is let go;
//! - `clear_lookup NAME`, the addresses of a name are cleared, and `clear`, all.
use crate::memory::Upstream;
use crate::sample::{answer_of, table};
use crate::shown::{say, show_made};
use hickory_proto_core::{
    DnsResponse, Name, NetError, Outcome, RData, RecordType, Recorded, read_ip,
};
use hickory_resolver::{Resolver, ResolverConfig, ResolverOpts};
use hickory_resolver_events::{Event, EventReply, play};
use std::alloc::{AllocError, Global};

/// Shows what each event comes to, over resolvers whose own handles are never asked.
pub fn show_played(rt: &impl Print, alloc: Global, lists: &str) -> Result<(), NetError> {
    for list in lists.split('#').skip(1) {
        let (heading, lines) = list.split_once('\n').unwrap_or((list, ""));
        let _ = println!(rt; "#{heading}");
        show_list(rt, alloc, lines)?;
    }
    Ok(())
}

fn show_list(rt: &impl Print, alloc: Global, lines: &str) -> Result<(), NetError> {
    let mut resolver = resolver(alloc)?;
    let replies = played(alloc, &mut resolver, lines);
    drop(resolver);
    for (line, reply) in lines.lines().zip(&replies?) {
        let _ = rt.println(line);
        let _ = rt.print("  ");
        show_reply(rt, reply);
    }
    Ok(())
}

fn resolver(alloc: Global) -> Result<Resolver<Upstream>, NetError> {
    let handle = Recorded::new(alloc, table(alloc, &[])?);
    let mut options = ResolverOpts::default(alloc);
    options.cache_size = 2;
    options.preserve_intermediates = false;
    Resolver::builder_with_config(ResolverConfig::default(alloc), handle)
        .with_options(options)
        .build()
}

fn played(
    alloc: Global,
    resolver: &mut Resolver<Upstream>,
    lines: &str,
) -> Result<Vec<EventReply>, AllocError> {
    let mut events = Vec::new(alloc);
    match push_events(alloc, &mut events, lines) {
        Ok(()) => play(resolver, events),
        Err(error) => {
            drop(events);
            Err(error)
        }
    }
}

fn push_events(alloc: Global, events: &mut Vec<Event>, lines: &str) -> Result<(), AllocError> {
    for line in lines.lines() {
        events.push(event_of(alloc, line)?)?;
    }
    Ok(())
}

fn event_of(alloc: Global, line: &str) -> Result<Event, AllocError> {
    let words: Vec<&str> = line.split_whitespace().collect(alloc)?;
    match words.as_slice() {
        ["start", name, now] => Ok(Event::Start {
            name: String::from_str(alloc, name)?,
            record_type: RecordType::A,
            now: now.parse().unwrap_or(0),
        }),
        ["start_ip", host, now] => Ok(Event::StartIp {
            host: String::from_str(alloc, host)?,
            now: now.parse().unwrap_or(0),
        }),
        ["clear_lookup", name] => Ok(Event::ClearLookup {
            name: String::from_str(alloc, name)?,
            record_type: RecordType::A,
        }),
        [call, "gets", outcome @ ..] => Ok(Event::Resume {
            call: call.parse().unwrap_or(0),
            outcome: outcome_of(alloc, outcome),
        }),
        [call, "dropped"] => Ok(Event::Abandon {
            call: call.parse().unwrap_or(0),
        }),
        _ => Ok(Event::Clear),
    }
}

fn outcome_of(alloc: Global, words: &[&str]) -> Outcome {
    match words {
        [owner, seconds, data] => {
            let data = data_of(alloc, data);
            let ttl = seconds.parse().unwrap_or(0);
            Ok(DnsResponse::from_message(answer_of(alloc, owner, ttl, data)?))
        }
        ["memory"] => Err(NetError::OutOfMemory),
        _ => Err(NetError::Timeout),
    }
}

fn data_of(alloc: Global, text: &str) -> Result<RData, NetError> {
    match read_ip(text) {
        Some(address) => Ok(RData::from(address)),
        None => Ok(RData::CNAME(Name::from_ascii(alloc, text)?)),
    }
}

fn show_reply(rt: &impl Print, reply: &EventReply) {
    match reply {
        EventReply::Waits(Ok(question)) => {
            let _ = println!(rt; "asks {question}");
        }
        EventReply::Waits(Err(error)) => say(rt, error),
        EventReply::Done(looked_up) => show_made(rt, looked_up),
        EventReply::Dropped => say(rt, &"dropped"),
        EventReply::Cleared(_) => say(rt, &"cleared"),
        EventReply::NoCall => say(rt, &"no call of this number waits"),
    }
}
