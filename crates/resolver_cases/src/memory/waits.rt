//! Look-ups that wait: what a step gives, what the cache keeps then, and what the same look-up starts with after it.
use crate::memory::caches::cache_of;
use crate::memory::clients::show_kept;
use crate::memory::marks::done;
use crate::sample::{Said, outcome_of, query};
use crate::shown::{say_waits, show_made};
use hickory_proto_core::{NetError, Outcome, Query, RecordType, ScriptHandle};
use hickory_resolver::{CachingClient, ClientState, Progress, ResponseCache, Waiting};
use std::alloc::Global;

// The names of which it is shown whether they have an entry.
const LABELS: [&str; 3] = ["a", "c", "x"];

/// A client whose own handle is not asked, or the part of one that has no handle.
#[derive(Drop)]
enum Client {
    State(ClientState),
    Whole(CachingClient<ScriptHandle>),
}

impl Client {
    // Starts a look-up at the moment 0.
    fn start(&mut self, query: Query) -> Progress<Waiting> {
        match self {
            Client::State(state) => state.start(query, 0),
            Client::Whole(client) => client.start(query, 0),
        }
    }

    fn resume(&mut self, waiting: Waiting, outcome: Outcome) -> Progress<Waiting> {
        match self {
            Client::State(state) => state.resume(waiting, outcome),
            Client::Whole(client) => client.resume(waiting, outcome),
        }
    }

    fn cache(&self) -> &ResponseCache {
        match self {
            Client::State(state) => state.cache(),
            Client::Whole(client) => client.cache(),
        }
    }
}

/// Makes the call of a case, and says whether there is such a case. A start is made over a cache that has an answer for
/// `a.`, and the others over an empty one.
pub fn make(rt: &impl Print, alloc: Global, case: &str) -> Result<bool, NetError> {
    match case {
        "ClientState::start of a hit" | "CachingClient::start of a hit" => {
            done(with_client(rt, alloc, case, &["a"], "a"))
        }
        "ClientState::start of a special name" | "CachingClient::start of a special name" => {
            done(with_client(rt, alloc, case, &["a"], "localhost"))
        }
        "no memory: ClientState::start of a question to ask"
        | "no memory: CachingClient::start of a question to ask" => {
            done(with_client(rt, alloc, case, &["a"], "c"))
        }
        "ClientState::resume with an alias"
        | "CachingClient::resume with an alias"
        | "ClientState::resume behind an alias"
        | "CachingClient::resume behind an alias" => {
            done(with_client(rt, alloc, case, &[], "c"))
        }
        "ClientState::resume with a negative answer"
        | "CachingClient::resume with a negative answer" => {
            done(with_client(rt, alloc, case, &[], "x"))
        }
        _ => Ok(false),
    }
}

fn with_client(
    rt: &impl Print,
    alloc: Global,
    case: &str,
    kept: &[&str],
    label: &str,
) -> Result<(), NetError> {
    let cache = cache_of(alloc, kept)?;
    let mut client = if case.contains("ClientState") {
        Client::State(ClientState::with_cache(cache, false))
    } else {
        let handle = ScriptHandle::new(Vec::new(alloc));
        Client::Whole(CachingClient::with_cache(cache, handle, false))
    };
    let made = with_mut_client(rt, alloc, case, &mut client, label);
    drop(client);
    made
}

// What the step gives, what the cache keeps, and what a look-up of the name starts with then.
fn with_mut_client(
    rt: &impl Print,
    alloc: Global,
    case: &str,
    client: &mut Client,
    label: &str,
) -> Result<(), NetError> {
    let asked = query(alloc, label)?;
    if case.contains("start") {
        show_progress(rt, call!(rt, case, client.start(asked)));
    } else {
        let waiting = waiting_of(client.start(asked))?;
        resume(rt, alloc, case, client, waiting)?;
    }
    show_kept(rt, alloc, client.cache(), &LABELS)?;
    let again = query(alloc, label)?;
    let _ = rt.print("again: ");
    show_progress(rt, client.start(again));
    Ok(())
}

// An alias leads to a question. Behind it the answer is kept under the canonical name, and then under the alias.
fn resume(
    rt: &impl Print,
    alloc: Global,
    case: &str,
    client: &mut Client,
    waiting: Waiting,
) -> Result<(), NetError> {
    if case.contains("negative") {
        let outcome = outcome_of(alloc, "x", RecordType::A, Said::NoName);
        show_progress(rt, call!(rt, case, client.resume(waiting, outcome)));
        return Ok(());
    }
    let alias = outcome_of(alloc, "c", RecordType::A, Said::Alias("a"));
    if case.contains("behind") {
        let next = waiting_of(client.resume(waiting, alias))?;
        let outcome = outcome_of(alloc, "a", RecordType::A, Said::Address);
        show_progress(rt, call!(rt, case, client.resume(next, outcome)));
    } else {
        show_progress(rt, call!(rt, case, client.resume(waiting, alias)));
    }
    Ok(())
}

// What a look-up came to.
fn show_progress(rt: &impl Print, progress: Progress<Waiting>) {
    match &progress {
        Progress::Waiting(waiting) => say_waits(rt, waiting.question()),
        Progress::Done(reply) => show_made(rt, reply),
    }
    drop(progress);
}

/// The look-up or the call that waits, or an error where it is done.
pub fn waiting_of<W: Drop>(progress: Progress<W>) -> Result<W, NetError> {
    match progress {
        Progress::Waiting(waiting) => Ok(waiting),
        done => {
            drop(done);
            Err(NetError::NoOutcome)
        }
    }
}
