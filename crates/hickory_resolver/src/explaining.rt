//! What a request attempts, and who answers it as things stand.
ghost use Rattle.std.specs.Prelude.{◌≡◌, ◌∷◌, ◌++◌, [], IfOk, OnOk};
ghost use Rattle.hickory_resolver_model.specs.Lookup.{question_of};
ghost use Rattle.hickory_resolver_attempts.specs.Sought.{asks_for_all, order_of};
ghost use Rattle.hickory_resolver.specs.Explaining.{AreAnswered, IsAnsweredBy, answered_by_client, name_questions, names_questions, planned_value, planned_values};

use crate::attempting::skips_hosts;
use hickory_proto_core::{Name, Query, RecordType};
use hickory_resolver_attempts::{Sought, Types};
use hickory_resolver_cache::ResponseCache;
use hickory_resolver_client::is_special_use;
use hickory_resolver_hosts::Hosts;
use std::alloc::{AllocError, Global};
use std::hash::BuildHasher;

/// Who answers a question.
#[derive(Clone, Copy, Debug, PartialEq, Eq)]
pub enum Answerer {
    /// The table of hosts.
    Hosts,
    /// The resolver itself, since the name is special (RFC 6761; RFC 7686).
    SpecialUse,
    /// The cache: how old the entry is, and the last moment at which it is current (seconds).
    Cache { age: u64, until: u64 },
    /// The upstream: the question is sent.
    Upstream,
}

/// A question that a request attempts, and who answers it.
#[derive(Drop)]
pub struct Attempted {
    pub question: Query,
    pub answerer: Answerer,
}

// A question that a call attempts, and whether the table of hosts is asked.
#[derive(Drop)]
pub struct Planned {
    pub question: Query,
    pub asks_hosts: bool,
}

/// The questions that a call may attempt for these names, in order.
pub fn plan_questions(
    alloc: Global,
    names: &[Name],
    sought: Sought,
) -> Result<Vec<Planned>, AllocError>
    ensures { IfOk result (λ list. planned_values list.items
        ≡ names_questions (order_of sought) (asks_for_all sought) names.now) }
{
    let mut list = Vec::new(alloc);
    let [first, rest @ ..] = names else {
        return Ok(list);
    };
    push_name(&mut list, first, sought, true)?;
    for name in rest {
        push_name(&mut list, name, sought, sought.asks_hosts_for_all())?;
    }
    Ok(list)
}

// Adds the questions for a name.
fn push_name(
    list: &mut Vec<Planned>,
    name: &Name,
    sought: Sought,
    asks_hosts: bool,
) -> Result<(), AllocError>
    ensures { OnOk result (planned_values list.new.items
        ≡ planned_values list.old.items ++ name_questions (order_of sought) asks_hosts name.now) }
{
    let types = sought.types();
    push(list, name, types.first(), asks_hosts)?;
    match types {
        Types::One(_) => Ok(()),
        Types::Both(_, second) | Types::Fallback(_, second) => {
            push(list, name, second, asks_hosts)
        }
    }
}

// Adds a question.
fn push(
    list: &mut Vec<Planned>,
    name: &Name,
    record_type: RecordType,
    asks_hosts: bool,
) -> Result<(), AllocError>
    ensures { OnOk result (planned_values list.new.items
        ≡ planned_values list.old.items ++ (question_of name.now record_type, asks_hosts) ∷ []) }
{
    let question = Query::query(Clone::clone(name)?, record_type);
    list.push(Planned {
        question,
        asks_hosts,
    })?;
    Ok(())
}

/// Who answers these questions at a moment (seconds), as things stand.
pub fn find_answerers<S: BuildHasher, T: BuildHasher>(
    alloc: Global,
    planned: Vec<Planned>,
    cache: &ResponseCache<S>,
    hosts: &Hosts<T>,
    now: u64,
) -> Result<Vec<Attempted>, AllocError>
    ensures { IfOk result (λ list. AreAnswered now hosts.now cache.now (planned_values planned.items) list.items) }
{
    let mut list = Vec::with_capacity(alloc, planned.len())?;
    for it in planned {
        let answerer = find_answerer(&it, cache, hosts, now)?;
        list.push(Attempted {
            question: it.question,
            answerer,
        })?;
    }
    Ok(list)
}

// Who answers a question.
fn find_answerer<S: BuildHasher, T: BuildHasher>(
    planned: &Planned,
    cache: &ResponseCache<S>,
    hosts: &Hosts<T>,
    now: u64,
) -> Result<Answerer, AllocError>
    ensures { IfOk result (λ who. IsAnsweredBy now hosts.now cache.now (planned_value planned.now) who) }
{
    let question = &planned.question;
    if skips_hosts(planned.asks_hosts, hosts, question) {
        return Ok(by_client(question, cache, now));
    }
    match hosts.lookup_static_host(question, now) {
        Ok(Some(_)) => Ok(Answerer::Hosts),
        Ok(None) => Ok(by_client(question, cache, now)),
        Err(_) => Err(AllocError),
    }
}

// Who answers a question that the table of hosts does not have.
fn by_client<S: BuildHasher>(question: &Query, cache: &ResponseCache<S>, now: u64) -> Answerer
    ensures { result ≡ answered_by_client now cache.now question.now }
{
    if is_special_use(&question.name) {
        return Answerer::SpecialUse;
    }
    match cache.current_times(question, now) {
        Some((stored, until)) => Answerer::Cache {
            age: now.saturating_sub(stored),
            until,
        },
        None => Answerer::Upstream,
    }
}
