//! Requests over a resolver: they begin, go on and end.
ghost use Rattle.std.specs.Prelude.{◌≡◌, ◌++◌, ◌∷◌, [], IfOk, OnErr, OnOk, None, Some, string_bytes};
ghost use Rattle.std.specs.Option.{option_map};
ghost use Rattle.hickory_resolver.specs.Contexts.{progress_of};
ghost use Rattle.hickory_resolver.specs.Requests.{request_of};
ghost use Rattle.hickory_resolver.specs.Starting.{KeepsAllButCache};
ghost use Rattle.hickory_resolver_model.specs.Resolver.{settings};
ghost use Rattle.replay_script.specs.Reader.{answered};
ghost use Rattle.replay_script.specs.Words.{texts};
ghost use Rattle.conversation.specs.Answers.{ComesTo, Feeds, Looks, Serves, Tells, asking};
ghost use Rattle.conversation.specs.Hearing.{IsBegunOver, IsFedOut};
ghost use Rattle.conversation.specs.State.{Puts, begun_of, in_flight_of, request_at, requests_of};
ghost use Rattle.conversation.specs.Telling.{IsBlock, IsChanged, IsClearBlock, IsGiven, IsQuestion, IsAnswerTold, came_of, phase_by, with_reply};

use crate::explaining::{explained_start, push_alias, push_stored};
use crate::heard::Heard;
use crate::in_flight::{Begun, InFlight};
use crate::writing::{told_block, told_clear, told_question};
use hickory_proto_core::{DnsRequestOptions, NetError, Outcome, Record, ScriptHandle};
use hickory_resolver::{CallProgress, Lookup, Request, Resolver, ResponseCache, WaitingCall};
use replay_script::{OpenReply, Section};
use std::alloc::{AllocError, Global};
use std::collections::HashMap;

/// How far a request came.
#[derive(Drop)]
pub enum Came {
    /// A look-up waits or is done.
    Looks(CallProgress),
    /// A clear was done.
    Clears,
}

/// Begins a request.
pub fn begin(
    alloc: Global,
    resolver: &mut Resolver<ScriptHandle>,
    requests: &mut HashMap<String, InFlight>,
    mark: &str,
    request: Request,
    explains: bool,
) -> Result<Heard, AllocError>
    ensures { IsGiven mark.now
        (Serves mark.now explains (request_of request) (settings resolver.old) resolver.old.client.cache)
        (IsBegunOver (settings resolver.old) resolver.old.client.cache (request_of request))
        result (phase_by resolver.new) (requests_of requests.old.entries) (requests_of requests.new.entries) }
{
    let mut start = explained_start(alloc, resolver, mark, &request, explains)?;
    let came = ask(resolver, &request)?;
    let begun = Begun::new(alloc, request, explains);
    let mut heard = tell(alloc, resolver, requests, mark, begun, came)?;
    start.push_str(heard.explained.as_str())?;
    heard.explained = start;
    Ok(heard)
}

// Tells how far a request came.
fn tell(
    alloc: Global,
    resolver: &Resolver<ScriptHandle>,
    requests: &mut HashMap<String, InFlight>,
    mark: &str,
    begun: Begun,
    came: Came,
) -> Result<Heard, AllocError>
    ensures { IsAnswerTold mark.now
        (Tells mark.now [] (settings resolver.now) (begun_of begun) (came_of came) resolver.now.client.cache)
        result (requests_of requests.old.entries) (requests_of requests.new.entries) }
{
    match came {
        Came::Looks(progress) => settle(alloc, resolver, requests, mark, begun, progress),
        Came::Clears => finish_clear(alloc, requests, mark, &begun),
    }
}

// Asks a resolver.
fn ask(resolver: &mut Resolver<ScriptHandle>, request: &Request) -> Result<Came, AllocError>
    ensures comes { IfOk result (λ came. ComesTo (settings resolver.old) (request_of request.now)
        resolver.old.client.cache (came_of came) resolver.new.client.cache) }
    ensures others_stay { KeepsAllButCache resolver.old resolver.new }
    ensures unchanged { OnErr result (resolver.new ≡ resolver.old) }
{
    match request {
        Request::Lookup {
            name,
            record_type,
            now,
        } => Ok(Came::Looks(resolver.start_lookup(name.as_str(), *record_type, *now))),
        Request::LookupIp { host, now } => {
            Ok(Came::Looks(resolver.start_lookup_ip(host.as_str(), *now)))
        }
        Request::ClearLookup {
            name,
            record_type,
            now: _,
        } => match resolver.clear_lookup_cache(name.as_str(), *record_type) {
            Ok(()) => Ok(Came::Clears),
            Err(_) => Err(AllocError),
        },
        Request::Clear { now: _ } => {
            resolver.clear_cache();
            Ok(Came::Clears)
        }
    }
}

/// Goes on with a request by what came back to its question.
pub fn go_on(
    alloc: Global,
    resolver: &mut Resolver<ScriptHandle>,
    requests: &mut HashMap<String, InFlight>,
    mark: &str,
    begun: Begun,
    waiting: WaitingCall,
    outcome: Outcome,
) -> Result<Heard, AllocError>
    ensures { IsGiven mark.now
        (Feeds mark.now (phase_by resolver.old) (begun_of begun) waiting outcome)
        (IsFedOut (phase_by resolver.old) waiting outcome)
        result (phase_by resolver.new) (requests_of requests.old.entries) (requests_of requests.new.entries) }
{
    let progress = resolver.resume(waiting, outcome);
    settle(alloc, resolver, requests, mark, begun, progress)
}

// Tells how far a look-up came, and keeps its request where it waits.
fn settle(
    alloc: Global,
    resolver: &Resolver<ScriptHandle>,
    requests: &mut HashMap<String, InFlight>,
    mark: &str,
    begun: Begun,
    progress: CallProgress,
) -> Result<Heard, AllocError>
    ensures { IsAnswerTold mark.now
        (Tells mark.now [] (settings resolver.now) (begun_of begun) (Looks (progress_of progress))
        resolver.now.client.cache)
        result (requests_of requests.old.entries) (requests_of requests.new.entries) }
{
    match progress {
        CallProgress::Waiting(waiting) => {
            let options = resolver.request_options();
            wait(alloc, options, requests, mark, begun, waiting)
        }
        CallProgress::Done(found) => {
            let cache = resolver.client().cache();
            finish(alloc, cache, requests, mark, &begun, &found)
        }
    }
}

// Keeps a request that waits, and tells the question that is to be sent.
fn wait(
    alloc: Global,
    options: DnsRequestOptions,
    requests: &mut HashMap<String, InFlight>,
    mark: &str,
    begun: Begun,
    waiting: WaitingCall,
) -> Result<Heard, AllocError>
    ensures told { IfOk result (IsQuestion mark.now (begun_of begun) waiting options) }
    ensures kept { OnOk result (Puts mark.now (Some (asking (begun_of begun) waiting))
        (requests_of requests.old.entries) (requests_of requests.new.entries)) }
    ensures unchanged { OnErr result (requests.new.entries ≡ requests.old.entries) }
{
    let mut begun = begun;
    match ask_next(alloc, options, mark, &mut begun, &waiting) {
        Ok((key, heard)) => {
            let in_flight = InFlight {
                begun,
                waiting,
                reply: None,
            };
            keep(requests, key, in_flight, heard)
        }
        Err(AllocError) => {
            drop(begun);
            drop(waiting);
            Err(AllocError)
        }
    }
}

// Keeps a request under its mark, and tells this.
fn keep(
    requests: &mut HashMap<String, InFlight>,
    key: String,
    in_flight: InFlight,
    heard: Heard,
) -> Result<Heard, AllocError>
    ensures told { IfOk result (λ told. told ≡ heard) }
    ensures kept { OnOk result (Puts (string_bytes key) (Some (in_flight_of in_flight))
        (requests_of requests.old.entries) (requests_of requests.new.entries)) }
    ensures unchanged { OnErr result (requests.new.entries ≡ requests.old.entries) }
{
    match put(requests, key, in_flight) {
        Ok(()) => Ok(heard),
        Err(AllocError) => {
            drop(heard);
            Err(AllocError)
        }
    }
}

// The line of a question that is to be sent, with the key of its request, which notes it.
fn ask_next(
    alloc: Global,
    options: DnsRequestOptions,
    mark: &str,
    begun: &mut Begun,
    waiting: &WaitingCall,
) -> Result<(String, Heard), AllocError>
    ensures key { IfOk result (λ asked. string_bytes asked.0 ≡ mark.now) }
    ensures told { IfOk result (λ asked. IsQuestion mark.now (begun_of begun.old) waiting.now options asked.1) }
    ensures noted { OnOk result (begun_of begun.new
        ≡ record (begun_of begun.old) { sent = (begun_of begun.old).sent ++ waiting.now.lookup.hop.query ∷ [] }) }
{
    let question = waiting.question();
    let mut heard = told_question(alloc, mark, question, options)?;
    push_alias(&mut heard.explained, mark, begun.explains, waiting)?;
    begun.add_question(question)?;
    let key = String::from_str(alloc, mark)?;
    Ok((key, heard))
}

// Keeps a request under its mark.
fn put(
    requests: &mut HashMap<String, InFlight>,
    key: String,
    in_flight: InFlight,
) -> Result<(), AllocError>
    ensures kept { OnOk result (Puts (string_bytes key) (Some (in_flight_of in_flight))
        (requests_of requests.old.entries) (requests_of requests.new.entries)) }
    ensures unchanged { OnErr result (requests.new.entries ≡ requests.old.entries) }
{
    let replaced = requests.insert(key, in_flight)?;
    drop(replaced);
    Ok(())
}

/// Forgets the request of a mark, where there is one.
pub fn forget(requests: &mut HashMap<String, InFlight>, mark: &str)
    ensures { Puts mark.now None (requests_of requests.old.entries) (requests_of requests.new.entries) }
{
    let forgotten = requests.remove(mark);
    drop(forgotten);
}

/// Takes the request of a mark out, where there is one.
pub fn take(requests: &mut HashMap<String, InFlight>, mark: &str) -> Option<InFlight>
    ensures found { option_map in_flight_of result ≡ request_at mark.now (requests_of requests.old.entries) }
    ensures taken { Puts mark.now None (requests_of requests.old.entries) (requests_of requests.new.entries) }
{
    requests.remove(mark)
}

/// Opens a reply to the request of a mark, where there is one, by a line of these fields.
pub fn open_reply(
    requests: &mut HashMap<String, InFlight>,
    mark: &str,
    reply: OpenReply,
    fields: &[&str],
) -> Result<(), AllocError>
    ensures { IsChanged mark.now (λ r. with_reply (texts fields.now) (Some reply) r) result
        (requests_of requests.old.entries) (requests_of requests.new.entries) }
{
    match requests.get_mut(mark) {
        Some(in_flight) => in_flight.open_reply(reply, fields),
        None => {
            drop(reply);
            Err(AllocError)
        }
    }
}

/// Adds a record to the open reply to the request of a mark, where there is one, by a line of these fields.
pub fn add_record(
    requests: &mut HashMap<String, InFlight>,
    mark: &str,
    section: Section,
    found: Record,
    fields: &[&str],
) -> Result<(), AllocError>
    ensures { IsChanged mark.now (λ r. with_reply (texts fields.now) (option_map (answered section found) r.reply) r)
        result (requests_of requests.old.entries) (requests_of requests.new.entries) }
{
    match requests.get_mut(mark) {
        Some(in_flight) => in_flight.add_record(section, found, fields),
        None => {
            drop(found);
            Err(AllocError)
        }
    }
}

// Tells what a look-up came to.
fn finish(
    alloc: Global,
    cache: &ResponseCache,
    requests: &mut HashMap<String, InFlight>,
    mark: &str,
    begun: &Begun,
    found: &Result<Lookup, NetError>,
) -> Result<Heard, AllocError>
    ensures told { IfOk result (IsBlock mark.now (begun_of begun.now) cache.now found.now) }
    ensures forgotten { Puts mark.now None (requests_of requests.old.entries) (requests_of requests.new.entries) }
{
    forget(requests, mark);
    if matches!(found, Err(NetError::OutOfMemory)) {
        return Err(AllocError);
    }
    let mut heard = told_block(alloc, mark, begun, found)?;
    push_stored(&mut heard.explained, mark, begun, cache)?;
    Ok(heard)
}

// Tells that a clear was done.
fn finish_clear(
    alloc: Global,
    requests: &mut HashMap<String, InFlight>,
    mark: &str,
    begun: &Begun,
) -> Result<Heard, AllocError>
    ensures told { IfOk result (IsClearBlock mark.now (begun_of begun.now)) }
    ensures forgotten { Puts mark.now None (requests_of requests.old.entries) (requests_of requests.new.entries) }
{
    forget(requests, mark);
    told_clear(alloc, mark, begun)
}
