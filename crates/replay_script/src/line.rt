//! What a line of a script says.
ghost use Rattle.std.specs.Prelude.{◌≡◌, ◌⊎◌, true, false, Err, IfOk, MatchResult};
ghost use Rattle.std.specs.List.{list_all};
ghost use Rattle.replay_script.specs.Faults.{out_of_memory, wrong_line};
ghost use Rattle.replay_script.specs.Fields.{fields, is_allowed};
ghost use Rattle.replay_script.specs.Line.{IsDirected, IsFailureLine, IsRead, IsRecordLine, IsRequestLine, IsSaid, directive_named, is_record};
ghost use Rattle.replay_script.specs.Words.{texts};

use crate::fail_line::{Failure, read_failure};
use crate::fault::{LineFault, ScriptFault};
use crate::fields::{Fields, is_allowed, is_skipped};
use crate::record_line::{Section, read_record};
use crate::reply_line::{ReplyHead, read_reply};
use crate::request_line::read_request;
use crate::setting::{Setting, SettingKind, read_setting};
use hickory_proto_core::Record;
use hickory_resolver_lookup::Request;
use smallvec::SmallVec;
use std::alloc::{AllocError, Global};
use std::str;

/// What a line says.
#[derive(Debug, Drop)]
pub enum Line {
    /// Nothing.
    Blank,
    /// An outcome: a response.
    Reply(ReplyHead),
    /// An outcome: a failure.
    Fail(Failure),
    /// One more record in a section of the latest response.
    Record(Section, Record),
    /// A request.
    Request(Request),
    /// A part of the configuration.
    Configuration(Setting),
}

/// Reads a line, which may be a record only where there is a reply that it can belong to. A fault is the first
/// one from the left, with the field that it is about.
pub fn read_line(alloc: Global, has_reply: bool, line: &[u8]) -> Result<Line, LineFault<'_>>
    ensures read { IsRead has_reply line.now result ⊎ (result ≡ Err out_of_memory) }
    ensures placed { IfOk result (λ l. is_record l ≡ true → has_reply ≡ true) }
{
    if is_skipped(line) {
        return Ok(Line::Blank);
    }
    let text = read_text(line)?;
    let fields = split(alloc, text)?;
    read_fields(alloc, has_reply, &fields)
}

/// The text of a line whose bytes are all allowed.
pub fn read_text(line: &[u8]) -> Result<&str, LineFault<'_>>
    ensures { MatchResult result (λ text. (text.now ≡ line.now) × (list_all is_allowed line.now ≡ true))
        (λ fault. (fault ≡ wrong_line ScriptFault.BadByte) × (list_all is_allowed line.now ≡ false)) }
{
    if !is_all_allowed(line) {
        return Err(LineFault::wrong_line(ScriptFault::BadByte));
    }
    // Each byte is one of ASCII, so that they are a text.
    Ok(str::from_utf8(line).unwrap())
}

fn is_all_allowed(line: &[u8]) -> bool
    ensures { result ≡ list_all is_allowed line.now }
{
    line.iter().all(|b| is_allowed(*b))
}

/// The fields of a line. Those of a usual line take no memory.
pub fn split(alloc: Global, text: &str) -> Result<SmallVec<&str, 8>, AllocError>
    ensures { IfOk result (λ v. texts v.items ≡ fields text.now) }
{
    Fields::new(text).collect(alloc)
}

/// Reads the fields of a line, of which the first is its directive.
pub fn read_fields<'a>(
    alloc: Global,
    has_reply: bool,
    fields: &[&'a str],
) -> Result<Line, LineFault<'a>>
    ensures said { IsSaid has_reply (texts fields.now) result ⊎ (result ≡ Err out_of_memory) }
    ensures placed { IfOk result (λ l. is_record l ≡ true → has_reply ≡ true) }
{
    let [word, fields @ ..] = fields else {
        return Ok(Line::Blank);
    };
    match Directive::from_word(word) {
        Some(directive) => read_directed(alloc, has_reply, directive, fields),
        None => Err(LineFault::wrong_field(ScriptFault::UnknownDirective, word)),
    }
}

// What the fields behind a directive are to say.
#[derive(Clone, Copy)]
enum Directive {
    Reply,
    Fail,
    Record(Section),
    Request,
    Configuration(SettingKind),
}

impl Directive {
    // The directive of a word.
    fn from_word(word: &str) -> Option<Directive>
        ensures { result ≡ directive_named word.now }
    {
        match word {
            "at" => Some(Directive::Request),
            "reply" => Some(Directive::Reply),
            "fail" => Some(Directive::Fail),
            "answer" => Some(Directive::Record(Section::Answer)),
            "authority" => Some(Directive::Record(Section::Authority)),
            "additional" => Some(Directive::Record(Section::Additional)),
            "option" => Some(Directive::Configuration(SettingKind::Option)),
            "domain" => Some(Directive::Configuration(SettingKind::Domain)),
            "search" => Some(Directive::Configuration(SettingKind::Search)),
            "upstream" => Some(Directive::Configuration(SettingKind::Upstream)),
            _ => None,
        }
    }
}

fn read_directed<'a>(
    alloc: Global,
    has_reply: bool,
    directive: Directive,
    fields: &[&'a str],
) -> Result<Line, LineFault<'a>>
    ensures said { IsDirected has_reply directive (texts fields.now) result
        ⊎ (result ≡ Err out_of_memory) }
    ensures placed { IfOk result (λ l. is_record l ≡ true → has_reply ≡ true) }
{
    match directive {
        Directive::Reply => Ok(Line::Reply(read_reply(alloc, fields)?)),
        Directive::Fail => read_failure_line(alloc, fields),
        Directive::Record(section) => read_record_line(alloc, has_reply, section, fields),
        Directive::Request => read_request_line(alloc, fields),
        Directive::Configuration(kind) => Ok(Line::Configuration(read_setting(
            alloc, kind, fields,
        )?)),
    }
}

fn read_failure_line<'a>(alloc: Global, fields: &[&'a str]) -> Result<Line, LineFault<'a>>
    ensures read { IsFailureLine (texts fields.now) result ⊎ (result ≡ Err out_of_memory) }
    ensures placed { IfOk result (λ l. is_record l ≡ false) }
{
    Ok(Line::Fail(read_failure(alloc, fields)?))
}

fn read_request_line<'a>(alloc: Global, fields: &[&'a str]) -> Result<Line, LineFault<'a>>
    ensures read { IsRequestLine (texts fields.now) result ⊎ (result ≡ Err out_of_memory) }
    ensures placed { IfOk result (λ l. is_record l ≡ false) }
{
    Ok(Line::Request(read_request(alloc, fields)?))
}

fn read_record_line<'a>(
    alloc: Global,
    has_reply: bool,
    section: Section,
    fields: &[&'a str],
) -> Result<Line, LineFault<'a>>
    ensures read { IsRecordLine has_reply section (texts fields.now) result
        ⊎ (result ≡ Err out_of_memory) }
    ensures placed { IfOk result (λ l. has_reply ≡ true) }
{
    if !has_reply {
        return Err(LineFault::wrong_line(ScriptFault::NoReply));
    }
    Ok(Line::Record(section, read_record(alloc, fields)?))
}
