//! Attempts at several names, one after another, without I/O: what a call does until it waits or is done.
ghost use Rattle.std.specs.Prelude.{◌≡◌, ◌*◌, ℕ, length, [], ◌∷◌, ◌++◌, None, Some, false};
ghost use Rattle.std.specs.Prelude.{true, IfSome, IsTrue};
ghost use Rattle.std.specs.Option.{option_map};
ghost use Rattle.hickory_proto_core.specs.Name.{NameValue};
ghost use Rattle.hickory_proto_core.specs.Records.{data_of};
ghost use Rattle.hickory_resolver_model.specs.Calls.{IsLastReply, last_resort, next_type};
ghost use Rattle.hickory_resolver_model.specs.Client.{KeepsHandle};
ghost use Rattle.hickory_resolver_model.specs.Hosts.{NotInHosts};
ghost use Rattle.hickory_resolver_model.specs.Resolver.{call_context_of};
ghost use Rattle.hickory_resolver_theorems.specs.ResumingCalls.{with_result};
ghost use Rattle.hickory_resolver_attempts.specs.Sought.{kept_name_for, order_of, results_so_far};
ghost use Rattle.hickory_resolver.specs.CallSteps.{LooksUpOnce, ContinuesFrom, IsFewer};
ghost use Rattle.hickory_resolver.specs.CallSteps.{attempt_value, first_value, second_of, step_of, turns_left};

use crate::literals::last_resort;
use hickory_proto_core::{DnsHandle, Name, NetError, Query, RData, RecordType};
use hickory_resolver_attempts::{Sought, attempt_result, stops};
use hickory_resolver_client::{CachingClient, Progress, Waiting};
use hickory_resolver_hosts::Hosts;
use hickory_resolver_lookup::Lookup;
use std::alloc::Global;
use std::hash::BuildHasher;

/// A call at one of its names.
#[derive(Drop)]
pub struct Attempt {
    /// What is looked up.
    pub sought: Sought,
    /// What stands in where no name has answers.
    pub literal: Option<RData>,
    /// Whether the table of hosts is asked for this name.
    pub with_hosts: bool,
    /// The name once more, where a second type may follow.
    pub kept_name: Option<Name>,
    /// The result of the first type, where the second is looked up.
    pub first: Option<Result<Lookup, NetError>>,
    /// The names that are left, from the last to the next.
    pub left: Vec<Name>,
}

/// What a step of a call comes to.
#[derive(Drop)]
pub enum CallStep {
    /// A type of the name is looked up, and came so far.
    Goes(Progress<Waiting>),
    /// The call is over.
    Over(Result<Lookup, NetError>),
}

impl Attempt {
    /// Begins with a name.
    pub fn begin<H: DnsHandle, S: BuildHasher, T: BuildHasher>(
        &mut self,
        name: Name,
        client: &mut CachingClient<H, S>,
        hosts: &Hosts<T>,
        now: u64,
    ) -> CallStep
        ensures goes { ContinuesFrom (call_context_of client.old hosts.now now) (first_value self.old name now)
            client.old.cache self.new now (step_of result) client.new.cache }
        ensures left { self.new.left ≡ self.old.left }
        ensures stays { KeepsHandle client.old client.new }
    {
        let types = self.sought.types();
        match types.kept_name(&name) {
            Ok(kept_name) => {
                self.first = None;
                self.kept_name = kept_name;
                look_up(name, types.first(), self.with_hosts, client, hosts, now)
            }
            Err(error) => {
                drop(name);
                CallStep::Over(Err(error))
            }
        }
    }

    /// Goes on with the result of a type: the second type, the next name, or the end of the call.
    pub fn take_result<H: DnsHandle, S: BuildHasher, T: BuildHasher>(
        &mut self,
        latest: Result<Lookup, NetError>,
        client: &mut CachingClient<H, S>,
        hosts: &Hosts<T>,
        now: u64,
    ) -> CallStep
        ensures goes { (name : NameValue)
            → self.old.kept_name ≡ kept_name_for (order_of self.old.sought) self.old.first name
            → ContinuesFrom (call_context_of client.old hosts.now now)
            (with_result (attempt_value self.old name now) latest) client.old.cache self.new now
            (step_of result) client.new.cache }
        ensures fewer { IsFewer (step_of result) (turns_left self.new) (turns_left self.old) }
        ensures stays { KeepsHandle client.old client.new }
    {
        match self.second(&latest) {
            Some((name, second)) => {
                self.first = Some(latest);
                look_up(name, second, self.with_hosts, client, hosts, now)
            }
            None => self.end(latest, client, hosts, now),
        }
    }

    // The name and the type that are looked up after this result, if any are.
    fn second(&mut self, latest: &Result<Lookup, NetError>) -> Option<(Name, RecordType)>
        ensures second { (name : NameValue) → self.old.kept_name ≡ kept_name_for (order_of self.old.sought) self.old.first name
            → result ≡ second_of name (next_type (order_of self.old.sought)
            (results_so_far self.old.first ++ latest.now ∷ [])) }
        ensures kept_name { IfSome result (λ both. self.old.kept_name ≡ Some both.0) }
        ensures stays { self.new ≡ record self.old { kept_name = None } }
    {
        match self.kept_name.take() {
            Some(name) => match self.sought.types().second(latest) {
                Some(second) => Some((name, second)),
                None => None,
            },
            None => None,
        }
    }

    // Ends with a name, whose last type has this result: the next name follows, or the call is over.
    fn end<H: DnsHandle, S: BuildHasher, T: BuildHasher>(
        &mut self,
        latest: Result<Lookup, NetError>,
        client: &mut CachingClient<H, S>,
        hosts: &Hosts<T>,
        now: u64,
    ) -> CallStep
        ensures goes { (name : NameValue)
            → next_type (order_of self.old.sought) (results_so_far self.old.first ++ latest ∷ []) ≡ None
            → ContinuesFrom (call_context_of client.old hosts.now now)
            (with_result (attempt_value self.old name now) latest) client.old.cache self.new now
            (step_of result) client.new.cache }
        ensures fewer { IsFewer (step_of result) (turns_left self.new) (2 * length self.old.left.items) }
        ensures stays { KeepsHandle client.old client.new }
    {
        let reply = attempt_result(self.sought.types(), self.first.take(), latest);
        if stops(&reply) {
            return CallStep::Over(reply);
        }
        match self.left.pop() {
            Some(name) => {
                drop(reply);
                self.with_hosts = self.sought.asks_hosts_for_all();
                self.begin(name, client, hosts, now)
            }
            None => {
                let alloc = *self.left.allocator();
                CallStep::Over(last_reply(alloc, self.literal.take(), reply, now))
            }
        }
    }
}

/// What a call replies where no name has answers: the last resort if there is one, or else this.
pub fn last_reply(
    alloc: Global,
    literal: Option<RData>,
    last: Result<Lookup, NetError>,
    now: u64,
) -> Result<Lookup, NetError>
    ensures { IsLastReply (option_map (λ rdata. last_resort (data_of rdata) now) literal) (λ x. x ≡ last) result }
{
    match literal {
        Some(rdata) => {
            drop(last);
            last_resort(alloc, rdata, now)
        }
        None => last,
    }
}

// Looks up a type for a name: what the table of hosts has, if it is asked, or else by the client.
fn look_up<H: DnsHandle, S: BuildHasher, T: BuildHasher>(
    name: Name,
    record_type: RecordType,
    with_hosts: bool,
    client: &mut CachingClient<H, S>,
    hosts: &Hosts<T>,
    now: u64,
) -> CallStep
    ensures looks_up { LooksUpOnce (call_context_of client.old hosts.now now) with_hosts name record_type
        client.old.cache (step_of result) client.new.cache }
    ensures stays { KeepsHandle client.old client.new }
{
    let question = Query::query(name, record_type);
    if skips_hosts(with_hosts, hosts, &question) {
        return CallStep::Goes(client.start(question, now));
    }
    match hosts.lookup_static_host(&question, now) {
        Ok(Some(found)) => CallStep::Goes(Progress::Done(Ok(found))),
        Ok(None) => CallStep::Goes(client.start(question, now)),
        Err(error) => CallStep::Over(Err(error)),
    }
}

/// Whether the table of hosts is not looked at, or it is known at once that it has nothing for a question: it has no
/// names. Of a question for PTR records that is never known, since the table first reads which address its name
/// stands for.
pub fn skips_hosts<T: BuildHasher>(with_hosts: bool, hosts: &Hosts<T>, question: &Query) -> bool
    ensures none { IsTrue result → (now : ℕ) → NotInHosts with_hosts question.now now hosts.now }
    ensures asked { result ≡ false → with_hosts ≡ true }
{
    if !with_hosts {
        return true;
    }
    hosts.is_empty() && question.query_type != RecordType::PTR
}
