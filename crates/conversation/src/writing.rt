//! What goes out.
ghost use Rattle.std.specs.Prelude.{◌≡◌, ◌++◌, [], codes, true, false, if◌then◌else◌, string_bytes, IfOk, OnOk};
ghost use Rattle.std.specs.Option.{option_map};
ghost use Rattle.hickory_resolver.specs.Requests.{request_of};
ghost use Rattle.replay_script.specs.Output.{request_text, sent_text};
ghost use Rattle.replay_script.specs.Words.{texts};
ghost use Rattle.conversation.specs.State.{begun_of};
ghost use Rattle.conversation.specs.Texts.{cancelled_text, clear_text, edns_text, fault_text, field_text, fields_behind, fields_text, looked_up_text, options_text, send_text};

use crate::fault::Refusal;
use crate::heard::Heard;
use crate::in_flight::Begun;
use hickory_proto_core::{DnsRequestOptions, NetError, Query};
use hickory_resolver::{Lookup, Request};
use replay_script::output::{push_cleared, push_question, push_request, push_result};
use std::alloc::{AllocError, Global};

/// Nothing goes out.
pub fn told_nothing(alloc: Global) -> Heard
    ensures explained { string_bytes result.explained ≡ [] }
    ensures text { string_bytes result.text ≡ [] }
    ensures journal { string_bytes result.journal ≡ [] }
    ensures last { result.is_last ≡ false }
{
    Heard {
        explained: String::new(alloc),
        text: String::new(alloc),
        journal: String::new(alloc),
        is_last: false,
    }
}

/// Nothing goes out, and the conversation is over.
pub fn told_last(alloc: Global) -> Heard
    ensures explained { string_bytes result.explained ≡ [] }
    ensures text { string_bytes result.text ≡ [] }
    ensures journal { string_bytes result.journal ≡ [] }
    ensures last { result.is_last ≡ true }
{
    Heard {
        explained: String::new(alloc),
        text: String::new(alloc),
        journal: String::new(alloc),
        is_last: true,
    }
}

// A text goes out, and nothing is told to the journal.
fn told_text(alloc: Global, text: String) -> Heard
    ensures explained { string_bytes result.explained ≡ [] }
    ensures text { string_bytes result.text ≡ string_bytes text }
    ensures journal { string_bytes result.journal ≡ [] }
    ensures last { result.is_last ≡ false }
{
    Heard {
        explained: String::new(alloc),
        text,
        journal: String::new(alloc),
        is_last: false,
    }
}

/// The line of a fault.
pub fn told_fault(
    alloc: Global,
    mark: &str,
    line: u64,
    refusal: &Refusal<'_>,
) -> Result<Heard, AllocError>
    ensures explained { IfOk result (λ h. string_bytes h.explained ≡ []) }
    ensures text { IfOk result (λ h. string_bytes h.text ≡ fault_text mark.now line refusal.now) }
    ensures journal { IfOk result (λ h. string_bytes h.journal ≡ []) }
    ensures last { IfOk result (λ h. h.is_last ≡ false) }
{
    let words = refusal.fault.words();
    let mut text = format!(in alloc; "{mark} fault {line} {words}")?;
    push_field(&mut text, refusal.field)?;
    text.push_str("\n")?;
    Ok(told_text(alloc, text))
}

// The field that a fault is about, where it is about one.
fn push_field(text: &mut String, field: Option<&str>) -> Result<(), AllocError>
    ensures { OnOk result (string_bytes text.new ≡ string_bytes text.old ++ field_text (option_map (λ t. t.now) field.entry)) }
{
    match field {
        Some(field) => write!(text, ": {field}"),
        None => Ok(()),
    }
}

/// The line of a request that is cancelled.
pub fn told_cancel(alloc: Global, mark: &str) -> Result<Heard, AllocError>
    ensures explained { IfOk result (λ h. string_bytes h.explained ≡ []) }
    ensures text { IfOk result (λ h. string_bytes h.text ≡ cancelled_text mark.now) }
    ensures journal { IfOk result (λ h. string_bytes h.journal ≡ []) }
    ensures last { IfOk result (λ h. h.is_last ≡ false) }
{
    let text = format!(in alloc; "{mark} cancelled\n")?;
    Ok(told_text(alloc, text))
}

/// The line of a question that is to be sent.
pub fn told_question(
    alloc: Global,
    mark: &str,
    question: &Query,
    options: DnsRequestOptions,
) -> Result<Heard, AllocError>
    ensures explained { IfOk result (λ h. string_bytes h.explained ≡ []) }
    ensures text { IfOk result (λ h. string_bytes h.text ≡ send_text mark.now question.now options) }
    ensures journal { IfOk result (λ h. string_bytes h.journal ≡ []) }
    ensures last { IfOk result (λ h. h.is_last ≡ false) }
{
    let mut text = format!(in alloc; "{mark} send {question}")?;
    push_options(&mut text, options)?;
    text.push_str("\n")?;
    Ok(told_text(alloc, text))
}

/// The block of a look-up that is done, and an empty line.
pub fn told_block(
    alloc: Global,
    mark: &str,
    begun: &Begun,
    found: &Result<Lookup, NetError>,
) -> Result<Heard, AllocError>
    ensures explained { IfOk result (λ h. string_bytes h.explained ≡ []) }
    ensures text { IfOk result (λ h. string_bytes h.text ≡ looked_up_text mark.now (begun_of begun.now) found.now) }
    ensures journal { IfOk result (λ h. string_bytes h.journal
        ≡ (begun_of begun.now).told ++ request_text (begun_of begun.now).request) }
    ensures last { IfOk result (λ h. h.is_last ≡ false) }
{
    let mut heard = told_nothing(alloc);
    push_block(&mut heard.text, mark, begun, found)?;
    push_journal(&mut heard.journal, begun)?;
    Ok(heard)
}

/// The block of a clear, and an empty line.
pub fn told_clear(alloc: Global, mark: &str, begun: &Begun) -> Result<Heard, AllocError>
    ensures explained { IfOk result (λ h. string_bytes h.explained ≡ []) }
    ensures text { IfOk result (λ h. string_bytes h.text ≡ clear_text mark.now (begun_of begun.now).request) }
    ensures journal { IfOk result (λ h. string_bytes h.journal
        ≡ (begun_of begun.now).told ++ request_text (begun_of begun.now).request) }
    ensures last { IfOk result (λ h. h.is_last ≡ false) }
{
    let mut heard = told_nothing(alloc);
    push_clear(&mut heard.text, mark, &begun.request)?;
    push_journal(&mut heard.journal, begun)?;
    Ok(heard)
}

/// A setting is told to the journal.
pub fn told_setting(alloc: Global, fields: &[&str]) -> Result<Heard, AllocError>
    ensures explained { IfOk result (λ h. string_bytes h.explained ≡ []) }
    ensures text { IfOk result (λ h. string_bytes h.text ≡ []) }
    ensures journal { IfOk result (λ h. string_bytes h.journal ≡ fields_text (texts fields.now)) }
    ensures last { IfOk result (λ h. h.is_last ≡ false) }
{
    let mut heard = told_nothing(alloc);
    push_fields(&mut heard.journal, fields)?;
    Ok(heard)
}

fn push_options(text: &mut String, options: DnsRequestOptions) -> Result<(), AllocError>
    ensures { OnOk result (string_bytes text.new ≡ string_bytes text.old ++ options_text options) }
{
    push_where(text, options.recursion_desired, " rd")?;
    push_edns(text, options)?;
    push_where(text, options.case_randomization, " mixed")
}

fn push_where(text: &mut String, is_set: bool, word: &str) -> Result<(), AllocError>
    ensures { OnOk result (string_bytes text.new ≡ string_bytes text.old ++ (if is_set then word.now else [])) }
{
    if is_set { text.push_str(word) } else { Ok(()) }
}

fn push_edns(text: &mut String, options: DnsRequestOptions) -> Result<(), AllocError>
    ensures { OnOk result (string_bytes text.new ≡ string_bytes text.old ++ edns_text options) }
{
    if !options.use_edns {
        return Ok(());
    }
    let size = options.edns_payload_len;
    write!(text, " edns {size}")
}

fn push_block(
    text: &mut String,
    mark: &str,
    begun: &Begun,
    found: &Result<Lookup, NetError>,
) -> Result<(), AllocError>
    ensures { OnOk result (string_bytes text.new
        ≡ string_bytes text.old ++ looked_up_text mark.now (begun_of begun.now) found.now) }
{
    write!(text, "{mark} ")?;
    push_request(text, &begun.request)?;
    push_questions(text, &begun.sent)?;
    push_result(text, &begun.request, found)?;
    text.push_str("\n")
}

fn push_clear(text: &mut String, mark: &str, request: &Request) -> Result<(), AllocError>
    ensures { OnOk result (string_bytes text.new
        ≡ string_bytes text.old ++ clear_text mark.now (request_of request.now)) }
{
    write!(text, "{mark} ")?;
    push_request(text, request)?;
    push_cleared(text)?;
    text.push_str("\n")
}

fn push_questions(text: &mut String, questions: &[Query]) -> Result<(), AllocError>
    ensures { OnOk result (string_bytes text.new ≡ string_bytes text.old ++ sent_text questions.now) }
{
    for question in questions {
        push_question(text, question)?;
    }
    Ok(())
}

// What the journal has of a request that is over.
fn push_journal(text: &mut String, begun: &Begun) -> Result<(), AllocError>
    ensures { OnOk result (string_bytes text.new
        ≡ string_bytes text.old ++ (begun_of begun.now).told ++ request_text (begun_of begun.now).request) }
{
    text.push_str(begun.told.as_str())?;
    push_request(text, &begun.request)
}

/// Adds fields as a line of a script.
pub fn push_fields(text: &mut String, fields: &[&str]) -> Result<(), AllocError>
    ensures { OnOk result (string_bytes text.new ≡ string_bytes text.old ++ fields_text (texts fields.now)) }
{
    if let [first, behind @ ..] = fields {
        text.push_str(first)?;
        push_behind(text, behind)?;
    }
    text.push_str("\n")
}

// Adds fields, with a blank before each.
fn push_behind(text: &mut String, fields: &[&str]) -> Result<(), AllocError>
    ensures { OnOk result (string_bytes text.new ≡ string_bytes text.old ++ fields_behind (texts fields.now)) }
{
    for field in fields {
        text.push_str(" ")?;
        text.push_str(field)?;
    }
    Ok(())
}
