//! What is asked ahead of a look-up of addresses.
ghost use Rattle.std.specs.Prelude.{◌≡◌, IfOk, OnErr, OnOk, false, true};
ghost use Rattle.std.specs.List.{list_any};
ghost use Rattle.std.specs.Option.{option_copied, option_map_or};
ghost use Rattle.hickory_proto_core.specs.Query.{query_eq};
ghost use Rattle.hickory_resolver.specs.Contexts.{progress_of};
ghost use Rattle.hickory_resolver_model.specs.Calls.{Both};
ghost use Rattle.hickory_resolver_model.specs.Run.{family_order};
ghost use Rattle.yimarotu_session.specs.Ahead.{AsksAlone, Hears, HearsAhead, ResumesFor, ResumesIf, StartsAlone, asker_ahead, is_ahead, is_told_of, is_waited_for, of_type, second_of, second_question, second_type, told_ahead, untold, waits_for_it};

use crate::messages::whole_query;
use crate::network_session::NetworkResolver;
use hickory_proto_core::{Outcome, Query, RecordType, clone_outcome};
use hickory_resolver::{Attempted, CallProgress, WaitingCall};
use hickory_resolver_config::LookupIpStrategy;
use hickory_resolver_pool::Asker;
use std::alloc::AllocError;
use std::mem;

/// The question of the second family of a look-up of addresses, under an absolute name.
#[derive(Drop)]
pub struct SecondQuestion {
    /// The question.
    pub query: Query,
    /// The moment of the look-up (seconds).
    pub started: u64,
}

/// What is asked ahead of a look-up of addresses: the question of its second family, which the look-up does not wait
/// for yet.
#[derive(Drop)]
pub enum Ahead {
    /// Nothing.
    Nothing,
    /// This question, for this asker, who was told nothing yet.
    Waits(SecondQuestion, Asker),
    /// This question, whose asker was told this.
    Told(Query, Outcome),
}

// ---- the question of the second family

// The type of the second family, where both are looked up and this is the first.
fn second_type(strategy: LookupIpStrategy, asked: RecordType) -> Option<RecordType>
    ensures { result ≡ second_type (family_order strategy) asked }
{
    match strategy {
        LookupIpStrategy::Ipv4AndIpv6 => behind(RecordType::A, RecordType::AAAA, asked),
        LookupIpStrategy::Ipv6AndIpv4 => behind(RecordType::AAAA, RecordType::A, asked),
        _ => None,
    }
}

// The second of two types, where this is the first.
fn behind(first: RecordType, second: RecordType, asked: RecordType) -> Option<RecordType>
    ensures { result ≡ second_type (Both first second) asked }
{
    if asked == first { Some(second) } else { None }
}

// The question of the second family that belongs to the one that a call waits for, under an absolute name. Where
// aliases led to that, there is none.
pub(crate) fn second_question(
    resolver: &NetworkResolver,
    call: &WaitingCall,
) -> Result<Option<SecondQuestion>, AllocError>
    ensures { IfOk result (λ question. question ≡ second_question resolver.now call.now) }
{
    if call.aliased().is_some() {
        return Ok(None);
    }
    second_of(
        call,
        second_type(resolver.options().ip_strategy, call.question().query_type()),
    )
}

fn second_of(
    call: &WaitingCall,
    other: Option<RecordType>,
) -> Result<Option<SecondQuestion>, AllocError>
    ensures { IfOk result (λ question. question ≡ second_of call.now other) }
{
    match other {
        Some(other) => {
            let mut query = of_type(call.question(), other)?;
            whole_query(&mut query);
            Ok(Some(SecondQuestion {
                query,
                started: call.now(),
            }))
        }
        None => Ok(None),
    }
}

// The same question for records of this type.
fn of_type(query: &Query, record_type: RecordType) -> Result<Query, AllocError>
    ensures { IfOk result (λ question. question ≡ of_type record_type query.now) }
{
    let mut question = Clone::clone(query)?;
    question.query_type = record_type;
    Ok(question)
}

// ---- a look-up of that question alone

// A look-up of a question alone is started, which changes nothing.
fn start_alone(
    resolver: &mut NetworkResolver,
    second: &SecondQuestion,
) -> Result<CallProgress, AllocError>
    ensures starts { IfOk result (λ progress. StartsAlone second.now resolver.old (progress_of progress)) }
    ensures same { resolver.new ≡ resolver.old }
{
    let name = Clone::clone(&second.query.name)?;
    Ok(resolver.start_lookup(name, second.query.query_type, second.started))
}

// Whether a look-up of a question alone asks it: neither the hosts nor the special names nor the cache answer it.
pub(crate) fn asks_alone(
    resolver: &mut NetworkResolver,
    second: &SecondQuestion,
) -> Result<bool, AllocError>
    ensures asks { IfOk result (λ asks. AsksAlone second.now resolver.old asks) }
    ensures same { resolver.new ≡ resolver.old }
{
    match start_alone(resolver, second) {
        Ok(progress) => {
            let asks = waits_for_it(&second.query, &progress);
            drop(progress);
            Ok(asks)
        }
        Err(AllocError) => Err(AllocError),
    }
}

fn waits_for_it(query: &Query, progress: &CallProgress) -> bool
    ensures { result ≡ waits_for_it query.now (progress_of progress.now) }
{
    match progress {
        CallProgress::Waiting(call) => is_waited_for(query, call),
        CallProgress::Done(_) => false,
    }
}

// Whether a call waits for what comes back to this question.
fn is_waited_for(query: &Query, call: &WaitingCall) -> bool
    ensures { result ≡ is_waited_for query.now call.now }
{
    call.question().name.is_fqdn() && call.question() == query
}

// A look-up of a question alone goes on with what came back to it, and is let go. What may be kept is in the cache then.
fn hear(
    resolver: &mut NetworkResolver,
    second: &SecondQuestion,
    outcome: &Outcome,
) -> Result<(), AllocError>
    ensures ok { OnOk result (Hears second.now outcome.now resolver.old resolver.new) }
    ensures err { OnErr result (resolver.new ≡ resolver.old) }
{
    match clone_outcome(outcome) {
        Ok(copy) => hear_copy(resolver, second, copy),
        Err(_) => Err(AllocError),
    }
}

fn hear_copy(
    resolver: &mut NetworkResolver,
    second: &SecondQuestion,
    outcome: Outcome,
) -> Result<(), AllocError>
    ensures ok { OnOk result (Hears second.now outcome resolver.old resolver.new) }
    ensures err { OnErr result (resolver.new ≡ resolver.old) }
{
    match start_alone(resolver, second) {
        Ok(progress) => {
            resume_for(resolver, &second.query, progress, outcome);
            Ok(())
        }
        Err(AllocError) => {
            drop(outcome);
            Err(AllocError)
        }
    }
}

fn resume_for(
    resolver: &mut NetworkResolver,
    query: &Query,
    progress: CallProgress,
    outcome: Outcome,
)
    ensures { ResumesFor query.now (progress_of progress) outcome resolver.old resolver.new }
{
    match progress {
        CallProgress::Waiting(call) => resume_waited_for(resolver, query, call, outcome),
        CallProgress::Done(found) => {
            drop(found);
            drop(outcome);
        }
    }
}

fn resume_waited_for(
    resolver: &mut NetworkResolver,
    query: &Query,
    call: WaitingCall,
    outcome: Outcome,
)
    ensures { ResumesIf (is_waited_for query.now call) call outcome resolver.old resolver.new }
{
    if is_waited_for(query, &call) {
        drop(resolver.resume(call, outcome));
    } else {
        drop(call);
        drop(outcome);
    }
}

// ---- what was asked ahead

// Whether it is this question that was asked ahead.
pub(crate) fn is_ahead(query: &Query, ahead: Option<&Ahead>) -> bool
    ensures { result ≡ option_map_or (is_ahead query.now) (option_copied ahead.entry) false }
{
    match ahead {
        Some(Ahead::Waits(asked, _)) => query == &asked.query,
        Some(Ahead::Told(asked, _)) => query == asked,
        _ => false,
    }
}

// Who asks ahead of a look-up.
pub(crate) fn asker_ahead(ahead: Option<&Ahead>) -> Option<Asker>
    ensures { result ≡ asker_ahead (option_copied ahead.entry) }
{
    match ahead {
        Some(Ahead::Waits(_, asker)) => Some(*asker),
        _ => None,
    }
}

// What came back to what was asked ahead is heard.
pub(crate) fn hear_ahead(
    resolver: &mut NetworkResolver,
    ahead: Option<&Ahead>,
    outcome: &Outcome,
) -> Result<(), AllocError>
    ensures ok { OnOk result (HearsAhead outcome.now (option_copied ahead.entry) resolver.old resolver.new) }
    ensures err { OnErr result (resolver.new ≡ resolver.old) }
{
    match ahead {
        Some(Ahead::Waits(second, _)) => hear(resolver, second, outcome),
        _ => Ok(()),
    }
}

// What was asked ahead leaves its place.
pub(crate) fn take(ahead: &mut Ahead) -> Ahead
    ensures taken { result ≡ ahead.old }
    ensures left { ahead.new ≡ Ahead.Nothing }
{
    mem::replace(ahead, Ahead::Nothing)
}

// This is asked ahead from now on.
pub(crate) fn put(place: &mut Ahead, ahead: Ahead)
    ensures { place.new ≡ ahead }
{
    drop(mem::replace(place, ahead));
}

// The asker of what is asked ahead is told this.
pub(crate) fn tell(ahead: &mut Ahead, outcome: Outcome)
    ensures { ahead.new ≡ told_ahead outcome ahead.old }
{
    let told = told(take(ahead), outcome);
    put(ahead, told);
}

fn told(ahead: Ahead, outcome: Outcome) -> Ahead
    ensures { result ≡ told_ahead outcome ahead }
{
    match ahead {
        Ahead::Nothing => {
            drop(outcome);
            Ahead::Nothing
        }
        Ahead::Waits(question, _) => Ahead::Told(question.query, outcome),
        Ahead::Told(question, first) => {
            drop(outcome);
            Ahead::Told(question, first)
        }
    }
}

// What was told is let go.
pub(crate) fn let_go(ahead: &mut Ahead)
    ensures { ahead.new ≡ untold (λ q. true) ahead.old }
{
    if matches!(ahead, Ahead::Told(_, _)) {
        drop(take(ahead));
    }
}

// What was told is let go, where its question is one of these.
pub(crate) fn let_go_of(ahead: &mut Ahead, attempted: &[Attempted])
    ensures { ahead.new ≡ untold (λ q. list_any (λ a. query_eq a.question q) attempted.now) ahead.old }
{
    if is_told_of(ahead, attempted) {
        drop(take(ahead));
    }
}

fn is_told_of(ahead: &Ahead, attempted: &[Attempted]) -> bool
    ensures { result ≡ is_told_of (λ q. list_any (λ a. query_eq a.question q) attempted.now) ahead.now }
{
    match ahead {
        Ahead::Told(asked, _) => is_among(asked, attempted),
        _ => false,
    }
}

// Whether it is one of these questions.
fn is_among(query: &Query, attempted: &[Attempted]) -> bool
    ensures { result ≡ list_any (λ a. query_eq a.question query.now) attempted.now }
{
    attempted.iter().any(|one| one.question == *query)
}
