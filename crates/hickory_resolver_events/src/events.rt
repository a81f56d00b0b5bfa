//! Events over one resolver: calls are started, go on and are dropped, in any order, and its cache is cleared.
ghost use Rattle.std.specs.Prelude.{◌≡◌, ◌≤◌, ◌<◌, ◌+◌, ◌++◌, ◌∷◌, [], None, IfOk, OnErr, Option, get_or, set, length, vec_capacity, vec_len};
ghost use Rattle.hickory_resolver_theorems.specs.ResumingCalls.{WaitingCallValue};
ghost use Rattle.hickory_resolver.specs.Contexts.{progress_of};
ghost use Rattle.hickory_resolver_events.specs.Events.{IsPlayed, TellsProgress};
ghost use Rattle.hickory_resolver_events.specs.Playing.{Plays, Takes, TakesDrop, TakesOutcome, waiting_in};

use hickory_proto_core::{DnsHandle, NetError, Outcome, Query, RecordType};
use hickory_resolver::{CallProgress, Lookup, Resolver, WaitingCall};
use std::alloc::AllocError;
use std::hash::BuildHasher;
use std::mem;

/// What is done to a resolver. Calls have the numbers of their starts, from 0. Moments are seconds.
#[derive(Drop)]
pub enum Event {
    /// A look-up of records of a type is started, as by `Resolver::start_lookup`.
    Start {
        name: String,
        record_type: RecordType,
        now: u64,
    },
    /// A look-up of addresses is started, as by `Resolver::start_lookup_ip`.
    StartIp {
        host: String,
        now: u64,
    },
    /// A call goes on with what came back to its question, as by `Resolver::resume`.
    Resume {
        call: usize,
        outcome: Outcome,
    },
    /// A call is dropped.
    Abandon {
        call: usize,
    },
    /// What the cache has for the attempts at a name, of a type, is dropped, as by `Resolver::clear_lookup_cache`.
    ClearLookup {
        name: String,
        record_type: RecordType,
    },
    /// The cache is emptied.
    Clear,
}

/// What an event comes to.
#[derive(Drop)]
pub enum EventReply {
    /// The call waits for what comes back to this question. Where there is no memory for a copy of the question, it
    /// waits all the same.
    Waits(Result<Query, NetError>),
    /// The call is done, with this result.
    Done(Result<Lookup, NetError>),
    /// The call was dropped.
    Dropped,
    /// Whether a clear was done.
    Cleared(Result<(), NetError>),
    /// No call of this number waits. Nothing was changed.
    NoCall,
}

/// Takes events over a resolver in order, and gives what each came to. A call that waits goes on when an event feeds
/// it; one that waits after the last event is dropped. Out of memory ends the call that it came to, and the events
/// after it are taken. Room for the replies is taken before the first event: where there is none, nothing was done.
pub fn play<H: DnsHandle, S: BuildHasher>(
    resolver: &mut Resolver<H, S>,
    events: Vec<Event>,
) -> Result<Vec<EventReply>, AllocError>
    ensures played { IfOk result (λ replies. IsPlayed resolver.old events.items replies.items resolver.new) }
    ensures refused { OnErr result (resolver.new ≡ resolver.old) }
{
    let alloc = *events.allocator();
    let mut waiting = Vec::with_capacity(alloc, events.len())?;
    let mut replies = Vec::with_capacity(alloc, events.len())?;
    take_each(resolver, &mut waiting, &mut replies, events);
    Ok(replies)
}

// Takes events in order.
fn take_each<H: DnsHandle, S: BuildHasher>(
    resolver: &mut Resolver<H, S>,
    waiting: &mut Vec<Option<WaitingCall>>,
    replies: &mut Vec<EventReply>,
    events: Vec<Event>,
)
    requires room { vec_len waiting.old + length events.items ≤ vec_capacity waiting.old }
    requires space { vec_len replies.old + length events.items ≤ vec_capacity replies.old }
    requires none { replies.old.items ≡ [] }
    ensures { Plays events.items resolver.old waiting.old.items replies.new.items resolver.new waiting.new.items }
{
    for event in events {
        let reply = take(resolver, waiting, event);
        replies.push_reserved(reply);
    }
}

// Takes an event.
fn take<H: DnsHandle, S: BuildHasher>(
    resolver: &mut Resolver<H, S>,
    waiting: &mut Vec<Option<WaitingCall>>,
    event: Event,
) -> EventReply
    requires { vec_len waiting.old < vec_capacity waiting.old }
    ensures takes { Takes event resolver.old waiting.old.items result resolver.new waiting.new.items }
    ensures len { vec_len waiting.new ≤ vec_len waiting.old + 1 }
    ensures room { vec_capacity waiting.new ≡ vec_capacity waiting.old }
{
    match event {
        Event::Start {
            name,
            record_type,
            now,
        } => begin(waiting, resolver.start_lookup(name, record_type, now)),
        Event::StartIp { host, now } => begin(waiting, resolver.start_lookup_ip(host, now)),
        Event::Resume { call, outcome } => resume_at(resolver, waiting, call, outcome),
        Event::Abandon { call } => abandon_at(waiting, call),
        Event::ClearLookup { name, record_type } => {
            EventReply::Cleared(resolver.clear_lookup_cache(name, record_type))
        }
        Event::Clear => {
            resolver.clear_cache();
            EventReply::Cleared(Ok(()))
        }
    }
}

// Gives a call that was started the next number.
fn begin(waiting: &mut Vec<Option<WaitingCall>>, progress: CallProgress) -> EventReply
    requires { vec_len waiting.old < vec_capacity waiting.old }
    ensures tells { TellsProgress (progress_of progress) result }
    ensures kept { waiting.new.items ≡ waiting.old.items ++ waiting_in (progress_of progress) ∷ [] }
    ensures len { vec_len waiting.new ≡ vec_len waiting.old + 1 }
    ensures room { vec_capacity waiting.new ≡ vec_capacity waiting.old }
{
    let mut place = None;
    let reply = keep(&mut place, progress);
    waiting.push_reserved(place);
    reply
}

// Goes on with the call of this number, if it waits.
fn resume_at<H: DnsHandle, S: BuildHasher>(
    resolver: &mut Resolver<H, S>,
    waiting: &mut Vec<Option<WaitingCall>>,
    call: usize,
    outcome: Outcome,
) -> EventReply
    ensures takes { (place : Option WaitingCallValue)
        × TakesOutcome (get_or waiting.old.items call None) outcome resolver.old result resolver.new place
        × (waiting.new.items ≡ set waiting.old.items call place) }
    ensures len { vec_len waiting.new ≡ vec_len waiting.old }
    ensures room { vec_capacity waiting.new ≡ vec_capacity waiting.old }
{
    match waiting.get_mut(call) {
        Some(place) => resume_in(resolver, place, outcome),
        None => {
            drop(outcome);
            EventReply::NoCall
        }
    }
}

// Goes on with the call in a place, if one waits there.
fn resume_in<H: DnsHandle, S: BuildHasher>(
    resolver: &mut Resolver<H, S>,
    place: &mut Option<WaitingCall>,
    outcome: Outcome,
) -> EventReply
    ensures { TakesOutcome place.old outcome resolver.old result resolver.new place.new }
{
    match place.take() {
        Some(waiting) => keep(place, resolver.resume(waiting, outcome)),
        None => {
            drop(outcome);
            EventReply::NoCall
        }
    }
}

// Drops the call of this number, if it waits.
fn abandon_at(waiting: &mut Vec<Option<WaitingCall>>, call: usize) -> EventReply
    ensures drops { TakesDrop (get_or waiting.old.items call None) result }
    ensures left { waiting.new.items ≡ set waiting.old.items call None }
    ensures len { vec_len waiting.new ≡ vec_len waiting.old }
    ensures room { vec_capacity waiting.new ≡ vec_capacity waiting.old }
{
    match waiting.get_mut(call) {
        Some(place) => abandon_in(place),
        None => EventReply::NoCall,
    }
}

// Drops the call in a place, if one waits there.
fn abandon_in(place: &mut Option<WaitingCall>) -> EventReply
    ensures drops { TakesDrop place.old result }
    ensures left { place.new ≡ None }
{
    match place.take() {
        Some(call) => {
            drop(call);
            EventReply::Dropped
        }
        None => EventReply::NoCall,
    }
}

// Keeps a call in an empty place if it waits, and says how far it came.
fn keep(place: &mut Option<WaitingCall>, progress: CallProgress) -> EventReply
    requires { place.old ≡ None }
    ensures tells { TellsProgress (progress_of progress) result }
    ensures kept { place.new ≡ waiting_in (progress_of progress) }
{
    match progress {
        CallProgress::Waiting(call) => {
            let question = call.question().clone();
            drop(mem::replace(place, Some(call)));
            EventReply::Waits(question)
        }
        CallProgress::Done(result) => EventReply::Done(result),
    }
}
