//! Lines that open a response.
ghost use Rattle.std.specs.Prelude.{◌≡◌, ◌⊎◌, Err, true, false};
ghost use Rattle.hickory_proto_core.specs.Codes.{is_text};
ghost use Rattle.replay_script.specs.Faults.{out_of_memory};
ghost use Rattle.replay_script.specs.ReplyLine.{class_first, code_field, flag_first, no_more, plain_head, reply_of, with_words};
ghost use Rattle.replay_script.specs.Words.{texts};

use crate::fault::{LineFault, ScriptFault};
use crate::words::{read_name, read_type};
use hickory_proto_core::{DNSClass, Query, ResponseCode};
use std::alloc::Global;

/// What a response says before it has any records.
#[derive(Debug, Drop)]
pub struct ReplyHead {
    /// The question of the line.
    pub query: Query,
    pub code: ResponseCode,
    /// Whether the response says that it is truncated (RFC 1035, section 4.1.1).
    pub truncated: bool,
    /// Whether the response has no question in it.
    pub without_question: bool,
}

// CODE NAME TYPE [CLASS] [tc] [noq]
pub fn read_reply<'a>(alloc: Global, fields: &[&'a str]) -> Result<ReplyHead, LineFault<'a>>
    ensures { (result ≡ reply_of (texts fields.now)) ⊎ (result ≡ Err out_of_memory) }
{
    let [code, name, record_type, words @ ..] = fields else {
        return Err(LineFault::wrong_line(ScriptFault::FieldCount));
    };
    if 3 < words.len() {
        return Err(LineFault::wrong_line(ScriptFault::FieldCount));
    }
    let head = read_plain_head(alloc, code, name, record_type)?;
    read_words(head, words)
}

fn read_plain_head<'a>(
    alloc: Global,
    code: &'a str,
    name: &'a str,
    record_type: &'a str,
) -> Result<ReplyHead, LineFault<'a>>
    ensures { (result ≡ plain_head code.now name.now record_type.now)
        ⊎ (result ≡ Err out_of_memory) }
{
    let code = read_code(code)?;
    let name = read_name(alloc, name)?;
    let record_type = read_type(record_type)?;
    Ok(ReplyHead {
        query: Query::query(name, record_type),
        code,
        truncated: false,
        without_question: false,
    })
}

// A response code, by its word or its number.
fn read_code(word: &str) -> Result<ResponseCode, LineFault<'_>>
    ensures { result ≡ code_field word.now }
{
    ResponseCode::from_word(word).ok_or(LineFault::wrong_field(ScriptFault::UnknownWord, word))
}

fn read_words<'a>(head: ReplyHead, words: &[&'a str]) -> Result<ReplyHead, LineFault<'a>>
    ensures { result ≡ with_words head (texts words.now) }
{
    let (query_class, words) = take_class(words);
    let (truncated, words) = take_flag("tc", words);
    let (without_question, words) = take_flag("noq", words);
    no_more(words)?;
    let mut head = head;
    head.query.query_class = query_class;
    head.truncated = truncated;
    head.without_question = without_question;
    Ok(head)
}

fn no_more<'a>(words: &[&'a str]) -> Result<(), LineFault<'a>>
    ensures { result ≡ no_more (texts words.now) }
{
    match words {
        [] => Ok(()),
        [word, ..] => Err(LineFault::wrong_field(ScriptFault::UnknownWord, word)),
    }
}

// The class, where the first word is one, and else that of the Internet; and the words behind it.
fn take_class<'w, 'a>(words: &'w [&'a str]) -> (DNSClass, &'w [&'a str])
    ensures class { result.0 ≡ (class_first (texts words.now)).0 }
    ensures words { texts result.1.now ≡ (class_first (texts words.now)).1 }
{
    let [word, rest @ ..] = words else {
        return (DNSClass::IN, words);
    };
    match DNSClass::from_word(word) {
        Some(class) => (class, rest),
        None => (DNSClass::IN, words),
    }
}

// Whether the first word is this one; and the words behind it.
fn take_flag<'w, 'a>(flag: &str, words: &'w [&'a str]) -> (bool, &'w [&'a str])
    ensures flag { result.0 ≡ (flag_first flag.now (texts words.now)).0 }
    ensures words { texts result.1.now ≡ (flag_first flag.now (texts words.now)).1 }
{
    let [word, rest @ ..] = words else {
        return (false, words);
    };
    if is_word(word, flag) {
        (true, rest)
    } else {
        (false, words)
    }
}

fn is_word(word: &str, other: &str) -> bool
    ensures { result ≡ is_text other.now word.now }
{
    *word == *other
}
