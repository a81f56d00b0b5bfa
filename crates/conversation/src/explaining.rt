//! How a request comes about.
ghost use Rattle.std.specs.Prelude.{◌≡◌, ◌++◌, Some, string_bytes, IfOk, OnOk};
ghost use Rattle.hickory_resolver.specs.Requests.{request_of};
ghost use Rattle.hickory_resolver_model.specs.Resolver.{settings};
ghost use Rattle.conversation.specs.Explaining.{IsStartExplained, alias_line, alias_text, answerer_text, attempted_text, attempts_text, deadline, stored_line, stored_lines, stored_text};
ghost use Rattle.conversation.specs.State.{begun_of};

use crate::in_flight::Begun;
use hickory_proto_core::{Query, ScriptHandle};
use hickory_resolver::{Answerer, Attempted, Request, Resolver, ResponseCache, WaitingCall};
use std::alloc::{AllocError, Global};

/// What a request attempts, and who answers it as things stand, where it asks for that.
pub fn explained_start(
    alloc: Global,
    resolver: &Resolver<ScriptHandle>,
    mark: &str,
    request: &Request,
    explains: bool,
) -> Result<String, AllocError>
    ensures { IfOk result (λ text. IsStartExplained mark.now explains (settings resolver.now)
        resolver.now.client.cache (request_of request.now) (string_bytes text)) }
{
    let mut text = String::new(alloc);
    if !explains {
        return Ok(text);
    }
    let attempted = resolver.explain(request)?;
    push_attempts(&mut text, mark, &attempted)?;
    Ok(text)
}

fn push_attempts(text: &mut String, mark: &str, attempted: &[Attempted]) -> Result<(), AllocError>
    ensures { OnOk result (string_bytes text.new ≡ string_bytes text.old ++ attempts_text mark.now attempted.now) }
{
    for it in attempted {
        push_attempted(text, mark, it)?;
    }
    Ok(())
}

fn push_attempted(text: &mut String, mark: &str, attempted: &Attempted) -> Result<(), AllocError>
    ensures { OnOk result (string_bytes text.new ≡ string_bytes text.old ++ attempted_text mark.now attempted.now) }
{
    let question = &attempted.question;
    write!(text, "{mark} explain attempt {question} ")?;
    push_answerer(text, attempted.answerer)?;
    text.push_str("\n")
}

fn push_answerer(text: &mut String, answerer: Answerer) -> Result<(), AllocError>
    ensures { OnOk result (string_bytes text.new ≡ string_bytes text.old ++ answerer_text answerer) }
{
    match answerer {
        Answerer::Hosts => text.push_str("hosts"),
        Answerer::SpecialUse => text.push_str("special"),
        Answerer::Cache { age, until } => write!(text, "cache {age} until {until}"),
        Answerer::Upstream => text.push_str("upstream"),
    }
}

/// Adds that aliases led to the question that is to be sent, where the request asks for that.
pub fn push_alias(
    text: &mut String,
    mark: &str,
    explains: bool,
    waiting: &WaitingCall,
) -> Result<(), AllocError>
    ensures { OnOk result (string_bytes text.new ≡ string_bytes text.old ++ alias_text mark.now explains waiting.now) }
{
    if !explains {
        return Ok(());
    }
    match waiting.aliased() {
        Some(first) => push_alias_line(text, mark, first, waiting.question()),
        None => Ok(()),
    }
}

fn push_alias_line(
    text: &mut String,
    mark: &str,
    first: &Query,
    question: &Query,
) -> Result<(), AllocError>
    ensures { OnOk result (string_bytes text.new
        ≡ string_bytes text.old ++ alias_line mark.now question.now (Some first.now)) }
{
    write!(text, "{mark} explain alias {first} to {question}\n")
}

/// Adds until when the cache has what was sent for, of a request that is over, where it asks for that.
pub fn push_stored(
    text: &mut String,
    mark: &str,
    begun: &Begun,
    cache: &ResponseCache,
) -> Result<(), AllocError>
    ensures { OnOk result (string_bytes text.new
        ≡ string_bytes text.old ++ stored_text mark.now (begun_of begun.now) cache.now) }
{
    if !begun.explains {
        return Ok(());
    }
    push_stored_lines(text, mark, &begun.sent, cache, begun.request.moment())
}

fn push_stored_lines(
    text: &mut String,
    mark: &str,
    sent: &[Query],
    cache: &ResponseCache,
    now: u64,
) -> Result<(), AllocError>
    ensures { OnOk result (string_bytes text.new
        ≡ string_bytes text.old ++ stored_lines mark.now cache.now now sent.now) }
{
    for question in sent {
        push_stored_line(text, mark, question, deadline(cache, question, now))?;
    }
    Ok(())
}

fn push_stored_line(
    text: &mut String,
    mark: &str,
    question: &Query,
    deadline: Option<u64>,
) -> Result<(), AllocError>
    ensures { OnOk result (string_bytes text.new
        ≡ string_bytes text.old ++ stored_line mark.now question.now deadline) }
{
    match deadline {
        Some(until) => push_until(text, mark, question, until),
        None => Ok(()),
    }
}

fn push_until(text: &mut String, mark: &str, question: &Query, until: u64) -> Result<(), AllocError>
    ensures { OnOk result (string_bytes text.new
        ≡ string_bytes text.old ++ stored_line mark.now question.now (Some until)) }
{
    write!(text, "{mark} explain stored {question} until {until}\n")
}

// The last moment (seconds) at which what the cache has for a question is current.
fn deadline(cache: &ResponseCache, question: &Query, now: u64) -> Option<u64>
    ensures { result ≡ deadline cache.now now question.now }
{
    let (_, until) = cache.current_times(question, now)?;
    Some(until)
}
