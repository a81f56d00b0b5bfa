//! What a line of a conversation is about.
ghost use Rattle.std.specs.Prelude.{◌≡◌, ◌⊎◌, ◌&&◌, Err, Ok, Some, codes, string_bytes, IfOk};
ghost use Rattle.hickory_proto_core.specs.Codes.{is_text};
ghost use Rattle.hickory_proto_core.specs.NameText.{name_text};
ghost use Rattle.hickory_resolver.specs.Requests.{request_of};
ghost use Rattle.replay_script.specs.Fields.{fields};
ghost use Rattle.replay_script.specs.Words.{texts};
ghost use Rattle.conversation.specs.Faults.{of_line, out_of_memory};
ghost use Rattle.conversation.specs.Lines.{IsAsked, IsPointer, IsReverse, IsScriptLine, IsScriptRequest, mark_in, mark_of, mark_or_none, pointer_at, request_in};
ghost use Rattle.conversation.specs.Telling.{IsAskedOr};

use crate::fault::{ConversationFault, Refusal};
use crate::words::Word;
use hickory_proto_core::{IntoName, Name, RecordType};
use hickory_resolver::Request;
use replay_script::words::number64;
use replay_script::{Fields, Line, ScriptFault, is_skipped, read_fields, read_text};
use std::alloc::{AllocError, Global};
use std::net::IpAddr;

/// The mark that a line begins with: that of a request, or `-` where it has none. Takes no memory.
pub fn mark_of(line: &[u8]) -> &str
    ensures { result.now ≡ mark_of line.now }
{
    if is_skipped(line) {
        return "-";
    }
    match read_text(line) {
        Ok(text) => first_mark(text),
        Err(_) => "-",
    }
}

fn first_mark(text: &str) -> &str
    ensures { result.now ≡ mark_in (fields text.now) }
{
    match Fields::new(text).next() {
        Some(word) => mark_or_none(word),
        None => "-",
    }
}

/// The mark that the first of these fields is, or `-`.
pub fn mark_in<'a>(fields: &[&'a str]) -> &'a str
    ensures { result.now ≡ mark_in (texts fields.now) }
{
    match fields {
        [word, ..] => mark_or_none(word),
        [] => "-",
    }
}

fn mark_or_none(word: &str) -> &str
    ensures { result.now ≡ mark_or_none word.now }
{
    match Word::of(word) {
        Word::Mark => word,
        _ => "-",
    }
}

/// What the fields of a line of a script say.
pub fn read_script_line<'a>(
    alloc: Global,
    has_reply: bool,
    fields: &[&'a str],
) -> Result<Line, Refusal<'a>>
    ensures { IsScriptLine has_reply (texts fields.now) result ⊎ (result ≡ Err (of_line out_of_memory)) }
{
    match read_fields(alloc, has_reply, fields) {
        Ok(line) => Ok(line),
        Err(error) => Err(Refusal::from(error)),
    }
}

/// A request: `at` MOMENT, a verb and what it is about, as in a script, or `reverse` ADDRESS.
pub fn read_request<'a>(alloc: Global, fields: &[&'a str]) -> Result<Request, Refusal<'a>>
    ensures { IsAskedOr (IsAsked (texts fields.now)) result }
{
    let [at, moment, asked, behind @ ..] = fields else {
        return read_script_request(alloc, fields);
    };
    if is_reverse(at, asked) {
        read_reverse(alloc, moment, behind)
    } else {
        read_script_request(alloc, fields)
    }
}

fn is_reverse(at: &str, asked: &str) -> bool
    ensures { result ≡ (is_text (codes "at") at.now && is_text (codes "reverse") asked.now) }
{
    at == "at" && asked == "reverse"
}

fn read_script_request<'a>(alloc: Global, fields: &[&'a str]) -> Result<Request, Refusal<'a>>
    ensures { IsAskedOr (IsScriptRequest (texts fields.now)) result }
{
    match read_script_line(alloc, false, fields) {
        Ok(line) => request_in(line, fields),
        Err(refusal) => Err(refusal),
    }
}

// The request that a line of a script is; another line has no directive that could stand here.
fn request_in<'a>(line: Line, fields: &[&'a str]) -> Result<Request, Refusal<'a>>
    ensures { IsAskedOr (λ asked. asked ≡ request_in (texts fields.now) (Ok line)) result }
{
    match line {
        Line::Request(request) => Ok(request),
        _ => Err(Refusal::unknown(fields)),
    }
}

// A look-up of the names of an address.
fn read_reverse<'a>(
    alloc: Global,
    moment: &'a str,
    fields: &[&'a str],
) -> Result<Request, Refusal<'a>>
    ensures { IsAskedOr (IsReverse moment.now (texts fields.now)) result }
{
    match number64(moment) {
        Ok(now) => read_pointer(alloc, now, fields),
        Err(error) => Err(Refusal::from(error)),
    }
}

fn read_pointer<'a>(alloc: Global, now: u64, fields: &[&'a str]) -> Result<Request, Refusal<'a>>
    ensures { IsAskedOr (IsPointer now (texts fields.now)) result }
{
    let [text] = fields else {
        return Err(Refusal::of_line(ConversationFault::Script(ScriptFault::FieldCount)));
    };
    match text.to_ip() {
        Some(address) => match pointer_request(alloc, address, now) {
            Ok(request) => Ok(request),
            Err(AllocError) => Err(Refusal::out_of_memory()),
        },
        None => Err(Refusal::of_field(ConversationFault::Script(ScriptFault::BadAddress), text)),
    }
}

fn pointer_request(alloc: Global, address: IpAddr, now: u64) -> Result<Request, AllocError>
    ensures { IfOk result (λ request. request_of request ≡ pointer_at now address) }
{
    let Ok(name) = Name::from_ip(alloc, address) else {
        return Err(AllocError);
    };
    Ok(Request::Lookup {
        name: text_of(alloc, &name)?,
        record_type: RecordType::PTR,
        now,
    })
}

fn text_of(alloc: Global, name: &Name) -> Result<String, AllocError>
    ensures { IfOk result (λ text. string_bytes text ≡ name_text name.now) }
{
    format!(in alloc; "{name}")
}
