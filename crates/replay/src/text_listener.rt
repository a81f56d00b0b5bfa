//! A listener that makes the text of a run.
ghost use Rattle.std.specs.Prelude.{◌≡◌, ◌++◌, OnOk, map, string_bytes};
ghost use Rattle.hickory_resolver.specs.Replies.{reply_of};
ghost use Rattle.hickory_resolver.specs.Requests.{request_of};
ghost use Rattle.replay.specs.Hearing.{AddsBlock};
ghost use Rattle.replay_script.specs.Output.{reply_text, result_text, step_text};

use hickory_proto_core::{Exchange, NetError};
use hickory_resolver::{Listener, LookupIp, Reply, Request, Step};
use replay_script::output::{
    push_cleared, push_error, push_lookup, push_request, push_result, push_sent,
};
use std::alloc::AllocError;

/// Makes the text of a run out of its steps, each when it hears of it.
#[derive(Drop)]
pub struct TextListener {
    pub text: String,
}

impl Listener for TextListener {
    ghost use Rattle.replay.specs.Hearing.{AddsBlock};

    ghost hears = { λ before request sent step after. AddsBlock (string_bytes before.text) request sent step
        (string_bytes after.text) };

    fn hear(&mut self, request: &Request, sent: &[Exchange], step: Step) -> Result<(), AllocError> {
        let told = push_told(&mut self.text, request, sent, &step);
        drop(step);
        told
    }
}

// Adds the block of a request. There is no text of a run in which memory ran out.
fn push_told(
    text: &mut String,
    request: &Request,
    sent: &[Exchange],
    step: &Step,
) -> Result<(), AllocError>
    ensures { OnOk result (AddsBlock (string_bytes text.old) (request_of request.now) sent.now step.entry.now
        (string_bytes text.new)) }
{
    if step.reply.ends_run() {
        return Err(AllocError);
    }
    push_step(text, request, sent, &step.reply)
}

fn push_step(
    text: &mut String,
    request: &Request,
    sent: &[Exchange],
    reply: &Reply,
) -> Result<(), AllocError>
    ensures { OnOk result (string_bytes text.new
        ≡ string_bytes text.old
        ++ step_text (request_of request.now) (map (λ x. x.query) sent.now) (reply_of reply.now)) }
{
    push_request(text, request)?;
    push_sent(text, sent)?;
    push_reply(text, request, reply)
}

fn push_reply(text: &mut String, request: &Request, reply: &Reply) -> Result<(), AllocError>
    ensures { OnOk result (string_bytes text.new
        ≡ string_bytes text.old ++ reply_text (request_of request.now) (reply_of reply.now)) }
{
    match reply {
        Reply::Lookup(result) => push_result(text, request, result),
        Reply::LookupIp(result) => push_addresses(text, request, result),
        Reply::Cleared(Ok(())) => push_cleared(text),
        Reply::Cleared(Err(error)) => push_error(text, error),
    }
}

fn push_addresses(
    text: &mut String,
    request: &Request,
    found: &Result<LookupIp, NetError>,
) -> Result<(), AllocError>
    ensures { OnOk result (string_bytes text.new
        ≡ string_bytes text.old ++ result_text (request_of request.now) found.now) }
{
    match found {
        Ok(lookup) => push_lookup(text, request, lookup.as_lookup()),
        Err(error) => push_error(text, error),
    }
}
