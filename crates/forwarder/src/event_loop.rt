//! Three look-ups at once over one resolver. What was asked last is answered first, as it may be over a network.
use crate::push_reply;
use hickory_proto_core::{
    DnsResponse, Message, Name, NetError, OpCode, Outcome, Query, RData, Record, RecordType,
    ScriptHandle,
};
use hickory_resolver::{CallProgress, Resolver, ResolverConfig, WaitingCall};
use std::alloc::Global;
use std::net::Ipv4Addr;

type Server = Resolver<ScriptHandle>;

/// Adds the questions that are sent, and what the look-ups come to.
pub fn push_loop(alloc: Global, text: &mut String) -> Result<(), NetError> {
    let mut server = server(alloc)?;
    let mut waiting = Vec::new(alloc);
    let served = serve(alloc, text, &mut server, &mut waiting);
    drop(waiting);
    drop(server);
    served
}

// A resolver that looks short names up below example.com. Its own handle is never asked: the loop sends the questions.
fn server(alloc: Global) -> Result<Server, NetError> {
    let search = Name::from_ascii(alloc, "example.com.")?;
    let mut config = ResolverConfig::default(alloc);
    config.add_search(search)?;
    Resolver::builder_with_config(config, ScriptHandle::new(Vec::new(alloc))).build()
}

// Starts the look-ups, and goes on with the one whose question was sent last, until none waits.
fn serve(
    alloc: Global,
    text: &mut String,
    server: &mut Server,
    waiting: &mut Vec<WaitingCall>,
) -> Result<(), NetError> {
    for host in ["www", "blog", "mail"] {
        let progress = server.start_lookup(host, RecordType::A, 100);
        note(text, waiting, progress)?;
    }
    // Each of them sends eight questions at most.
    for _ in 0..24 {
        let Some(last) = waiting.pop() else { break };
        let outcome = answer(alloc, last.question());
        note(text, waiting, server.resume(last, outcome))?;
    }
    Ok(())
}

// Sends the question of a look-up that waits, or adds what it came to.
fn note(
    text: &mut String,
    waiting: &mut Vec<WaitingCall>,
    progress: CallProgress,
) -> Result<(), NetError> {
    match progress {
        CallProgress::Waiting(call) => {
            let sent = write!(text, "send {}\n", call.question());
            waiting.push(call)?;
            Ok(sent?)
        }
        CallProgress::Done(found) => push_reply(text, found),
    }
}

// What comes back to a question: `blog` is an alias of `www`, and every other name has an address.
fn answer(alloc: Global, question: &Query) -> Outcome {
    let mut message = Message::response(alloc, 0, OpCode::Query);
    fill(alloc, &mut message, question)?;
    Ok(DnsResponse::from_message(message))
}

fn fill(alloc: Global, message: &mut Message, question: &Query) -> Result<(), NetError> {
    message.add_query(question.clone()?)?;
    message.add_answer(record_of(alloc, &question.name)?)
}

fn record_of(alloc: Global, name: &Name) -> Result<Record, NetError> {
    let owner = name.clone()?;
    Ok(Record::from_rdata(owner, 60, rdata_of(alloc, name)?))
}

fn rdata_of(alloc: Global, owner: &Name) -> Result<RData, NetError> {
    if *owner == Name::from_ascii(alloc, "blog.example.com.")? {
        return Ok(RData::CNAME(Name::from_ascii(alloc, "www.example.com.")?));
    }
    Ok(RData::A(Ipv4Addr::new(192, 0, 2, 1)))
}
