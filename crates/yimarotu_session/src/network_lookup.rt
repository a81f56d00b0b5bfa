//! A look-up of a session with a network.
ghost use Rattle.std.specs.Prelude.{◌≡◌, IfOk};
ghost use Rattle.std.specs.Option.{option_copied};
ghost use Rattle.yimarotu_session.specs.LookupTables.{announced, asked_by, asker_of, is_same, is_unannounced, lookup_of, question_ahead, question_to_ask};
ghost use Rattle.yimarotu_session.specs.Messages.{whole_query};
ghost use Rattle.yimarotu_session.specs.NetworkSteps.{GoesOn};

use crate::ahead::{Ahead, SecondQuestion, second_question};
use crate::messages::whole_query;
use crate::network_session::NetworkResolver;
use hickory_proto_core::{NetError, Outcome, Query};
use hickory_resolver::{CallProgress, Lookup, WaitingCall};
use hickory_resolver_pool::Asker;
use std::alloc::AllocError;
use std::mem;

/// A look-up of a session with a network.
#[derive(Drop)]
pub enum NetworkLookup {
    /// It waits to ask its question.
    Asks(WaitingCall),
    /// Its question is asked: it waits for what this asker is told.
    Asked(WaitingCall, Asker),
    /// It is done.
    Done {
        /// What it came to.
        found: Result<Lookup, NetError>,
        /// Whether that was announced.
        announced: bool,
    },
}

// How far a call came: it waits to ask its question, or is done.
pub(crate) fn lookup_of(progress: CallProgress) -> NetworkLookup
    ensures { result ≡ lookup_of progress }
{
    match progress {
        CallProgress::Waiting(call) => NetworkLookup::Asks(call),
        CallProgress::Done(found) => NetworkLookup::Done {
            found,
            announced: false,
        },
    }
}

// Goes on with a look-up that waits by what it is told. One that is done stays.
pub(crate) fn go_on(resolver: &mut NetworkResolver, lookup: &mut NetworkLookup, outcome: Outcome)
    ensures { GoesOn outcome resolver.old lookup.old resolver.new lookup.new }
{
    let gone_on = gone_on(resolver, take(lookup), outcome);
    put(lookup, gone_on);
}

// A look-up leaves its place for as long as it is worked on. One that is done stands there meanwhile.
fn take(lookup: &mut NetworkLookup) -> NetworkLookup
    ensures { result ≡ lookup.old }
{
    let gone = NetworkLookup::Done {
        found: Err(NetError::NoOutcome),
        announced: true,
    };
    mem::replace(lookup, gone)
}

// It comes into its place again.
fn put(place: &mut NetworkLookup, lookup: NetworkLookup)
    ensures { place.new ≡ lookup }
{
    drop(mem::replace(place, lookup));
}

fn gone_on(resolver: &mut NetworkResolver, lookup: NetworkLookup, outcome: Outcome) -> NetworkLookup
    ensures { GoesOn outcome resolver.old lookup resolver.new result }
{
    match lookup {
        NetworkLookup::Asks(call) => lookup_of(resolver.resume(call, outcome)),
        NetworkLookup::Asked(call, _) => lookup_of(resolver.resume(call, outcome)),
        NetworkLookup::Done { found, announced } => {
            drop(outcome);
            NetworkLookup::Done { found, announced }
        }
    }
}

// The question that a look-up waits to ask, under an absolute name.
pub(crate) fn question_to_ask(lookup: Option<&NetworkLookup>) -> Result<Option<Query>, AllocError>
    ensures { IfOk result (λ query. query ≡ question_to_ask (option_copied lookup.entry)) }
{
    match lookup {
        Some(NetworkLookup::Asks(call)) => Ok(Some(whole_copy(call.question())?)),
        _ => Ok(None),
    }
}

fn whole_copy(query: &Query) -> Result<Query, AllocError>
    ensures { IfOk result (λ copy. copy ≡ whole_query query.now) }
{
    let mut copy = Clone::clone(query)?;
    whole_query(&mut copy);
    Ok(copy)
}

// The question of the second family of a look-up whose question is asked, where there is a place for it and nothing was
// asked yet.
pub(crate) fn question_ahead(
    resolver: &NetworkResolver,
    lookup: Option<&NetworkLookup>,
    ahead: Option<&Ahead>,
) -> Result<Option<SecondQuestion>, AllocError>
    ensures { IfOk result (λ query. query
        ≡ question_ahead resolver.now (option_copied lookup.entry) (option_copied ahead.entry)) }
{
    match lookup {
        Some(NetworkLookup::Asked(call, _)) => match ahead {
            Some(Ahead::Nothing) => second_question(resolver, call),
            _ => Ok(None),
        },
        _ => Ok(None),
    }
}

// Who asks for a look-up.
pub(crate) fn asker_of(lookup: Option<&NetworkLookup>) -> Option<Asker>
    ensures { result ≡ asker_of (option_copied lookup.entry) }
{
    match lookup {
        Some(NetworkLookup::Asked(_, asker)) => Some(*asker),
        _ => None,
    }
}

// Whether it is this asker.
pub(crate) fn is_same(asker: &Asker, other: Option<Asker>) -> bool
    ensures { result ≡ is_same asker.now other }
{
    match other {
        Some(other) => other.transaction == asker.transaction && other.number == asker.number,
        None => false,
    }
}

// A look-up that waits to ask waits for what this asker is told.
pub(crate) fn wait_for(lookup: &mut NetworkLookup, asker: Asker)
    ensures { lookup.new ≡ asked_by asker lookup.old }
{
    let asked = asked_by(asker, take(lookup));
    put(lookup, asked);
}

fn asked_by(asker: Asker, lookup: NetworkLookup) -> NetworkLookup
    ensures { result ≡ asked_by asker lookup }
{
    match lookup {
        NetworkLookup::Asks(call) => NetworkLookup::Asked(call, asker),
        NetworkLookup::Asked(call, other) => NetworkLookup::Asked(call, other),
        NetworkLookup::Done { found, announced } => NetworkLookup::Done { found, announced },
    }
}

// Whether a look-up is done and was not announced.
pub(crate) fn is_unannounced(lookup: Option<&NetworkLookup>) -> bool
    ensures { result ≡ is_unannounced (option_copied lookup.entry) }
{
    matches!(
        lookup,
        Some(NetworkLookup::Done {
            announced: false,
            ..
        })
    )
}

// A look-up that is done counts as announced from now on.
pub(crate) fn announce(lookup: &mut NetworkLookup)
    ensures { lookup.new ≡ announced lookup.old }
{
    if let NetworkLookup::Done { announced, .. } = lookup {
        *announced = true;
    }
}
