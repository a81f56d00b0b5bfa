//! A call that does no I/O: it says which question is to be sent, and goes on with what came back to it.
ghost use Rattle.std.specs.Prelude.{◌≡◌, ◌≤◌, length, reverse};
ghost use Rattle.hickory_proto_core.specs.Name.{NameValue};
ghost use Rattle.hickory_resolver_client.specs.Contexts.{progress_of};
ghost use Rattle.hickory_resolver_model.specs.Client.{KeepsHandle};
ghost use Rattle.hickory_resolver_model.specs.Resolver.{call_context_of};
ghost use Rattle.hickory_resolver_theorems.specs.ResumingCalls.{ContinuesAfter, ResumesCall, StartsNames};
ghost use Rattle.hickory_resolver.specs.CallSteps.{IsReady, attempt_value, plan_value};
ghost use Rattle.hickory_resolver.specs.Driving.{AdvancesCall};

use crate::attempting::{Attempt, CallStep, last_reply};
use crate::waiting_call::{CallProgress, WaitingCall};
use hickory_proto_core::{DnsHandle, DnsRequestOptions, Name, Outcome, RData};
use hickory_resolver_attempts::Sought;
use hickory_resolver_client::{CachingClient, Progress, Waiting};
use hickory_resolver_hosts::Hosts;
use std::hash::BuildHasher;

/// Starts a call for names, from the last of the list to the first, at a moment (seconds). The flag says whether
/// the table of hosts is asked for the first name that is attempted.
pub fn start_names<H: DnsHandle, S: BuildHasher, T: BuildHasher>(
    mut names: Vec<Name>,
    sought: Sought,
    literal: Option<RData>,
    with_hosts: bool,
    client: &mut CachingClient<H, S>,
    hosts: &Hosts<T>,
    now: u64,
) -> CallProgress
    ensures starts { StartsNames (call_context_of client.old hosts.now now) (plan_value sought literal now) with_hosts
        (reverse names.items) client.old.cache (progress_of result) client.new.cache }
    ensures stays { KeepsHandle client.old client.new }
{
    let Some(name) = names.pop() else {
        let alloc = *names.allocator();
        return Progress::Done(last_reply(alloc, literal, Err(sought.no_names()), now));
    };
    let mut attempt = Attempt {
        sought,
        literal,
        with_hosts,
        kept_name: None,
        first: None,
        left: names,
    };
    match attempt.begin(name, client, hosts, now) {
        CallStep::Goes(progress) => go_on(attempt, progress, client, hosts, now),
        CallStep::Over(result) => {
            drop(attempt);
            Progress::Done(result)
        }
    }
}

/// Goes on with a call by what came back to its question.
pub fn resume_call<H: DnsHandle, S: BuildHasher, T: BuildHasher>(
    waiting: WaitingCall,
    outcome: Outcome,
    client: &mut CachingClient<H, S>,
    hosts: &Hosts<T>,
) -> CallProgress
    ensures resumes { ResumesCall (call_context_of client.old hosts.now waiting.lookup.now) waiting outcome
        client.old.cache (progress_of result) client.new.cache }
    ensures stays { KeepsHandle client.old client.new }
{
    let WaitingCall { attempt, lookup } = waiting;
    let now = lookup.now();
    let progress = client.resume(lookup, outcome);
    go_on(attempt, progress, client, hosts, now)
}

/// Sends the question of a call with these options, and goes on with what comes back.
pub fn advance_call<H: DnsHandle, S: BuildHasher, T: BuildHasher>(
    waiting: WaitingCall,
    options: DnsRequestOptions,
    client: &mut CachingClient<H, S>,
    hosts: &Hosts<T>,
) -> CallProgress
    ensures advances { AdvancesCall H.step options hosts.now waiting client.old (progress_of result) client.new }
    ensures few { (length waiting.lookup.passed ≤ 7) × (length waiting.attempt.results ≤ 1) }
{
    let WaitingCall { attempt, lookup } = waiting;
    let now = lookup.now();
    let progress = client.advance(lookup, options);
    go_on(attempt, progress, client, hosts, now)
}

// Goes on with a call whose look-up of a type came so far, until one waits or the call is over.
fn go_on<H: DnsHandle, S: BuildHasher, T: BuildHasher>(
    attempt: Attempt,
    progress: Progress<Waiting>,
    client: &mut CachingClient<H, S>,
    hosts: &Hosts<T>,
    now: u64,
) -> CallProgress
    requires { (name : NameValue) × IsReady attempt name now (progress_of progress) }
    ensures goes { (name : NameValue) → IsReady attempt name now (progress_of progress)
        → ContinuesAfter (call_context_of client.old hosts.now now) (attempt_value attempt name now)
        (progress_of progress) client.old.cache (progress_of result) client.new.cache }
    ensures stays { KeepsHandle client.old client.new }
{
    let mut attempt = attempt;
    let mut progress = progress;
    loop {
        match progress {
            Progress::Waiting(lookup) => return Progress::Waiting(WaitingCall { attempt, lookup }),
            Progress::Done(result) => match attempt.take_result(result, client, hosts, now) {
                CallStep::Goes(next) => progress = next,
                CallStep::Over(result) => {
                    drop(attempt);
                    return Progress::Done(result);
                }
            },
        }
    }
}
