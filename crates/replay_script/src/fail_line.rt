//! Lines that are failures of an upstream.
ghost use Rattle.std.specs.Prelude.{◌≡◌, ◌⊎◌, Err};
ghost use Rattle.replay_script.specs.FailLine.{IsFailure, failed, failure_of, kind_field};
ghost use Rattle.replay_script.specs.Faults.{out_of_memory};
ghost use Rattle.replay_script.specs.Words.{texts};

use crate::fault::{LineFault, ScriptFault};
use crate::words::{read_class, read_name, read_type};
use hickory_proto_core::{NetError, Query};
use std::alloc::Global;

/// What an upstream answers in place of a response.
#[derive(Debug, Drop)]
pub struct Failure {
    /// The question of the line.
    pub query: Query,
    pub kind: FailureKind,
}

/// How an upstream fails.
#[derive(Clone, Copy, Debug)]
pub enum FailureKind {
    /// It does not answer in time.
    Timeout,
    /// It has a fault, which the text tells.
    Message(&'static str),
}

impl FailureKind {
    ghost use Rattle.replay_script.specs.FailLine.{error_of};

    /// The error of an outcome that fails so.
    pub fn error(self) -> NetError
        ensures { result ≡ error_of self }
    {
        match self {
            FailureKind::Timeout => NetError::Timeout,
            FailureKind::Message(text) => NetError::Message(text),
        }
    }
}

// KIND NAME TYPE [CLASS]
pub fn read_failure<'a>(alloc: Global, fields: &[&'a str]) -> Result<Failure, LineFault<'a>>
    ensures { IsFailure (texts fields.now) result ⊎ (result ≡ Err out_of_memory) }
{
    read_fields(alloc, "upstream failed", fields)
}

// Where no class is given it is that of the Internet.
fn read_fields<'a>(
    alloc: Global,
    message: &'static str,
    fields: &[&'a str],
) -> Result<Failure, LineFault<'a>>
    ensures { (result ≡ failure_of message.entry (texts fields.now)) ⊎ (result ≡ Err out_of_memory) }
{
    match fields {
        [kind, name, record_type] => { read_failed(alloc, message, kind, name, record_type, "IN") }
        [kind, name, record_type, class] => {
            read_failed(alloc, message, kind, name, record_type, class)
        }
        _ => Err(LineFault::wrong_line(ScriptFault::FieldCount)),
    }
}

fn read_failed<'a>(
    alloc: Global,
    message: &'static str,
    kind: &'a str,
    name: &'a str,
    record_type: &'a str,
    class: &'a str,
) -> Result<Failure, LineFault<'a>>
    ensures { (result ≡ failed message.entry kind.now name.now record_type.now class.now)
        ⊎ (result ≡ Err out_of_memory) }
{
    let kind = read_kind(message, kind)?;
    let name = read_name(alloc, name)?;
    let query_type = read_type(record_type)?;
    let query_class = read_class(class)?;
    let query = Query {
        name,
        query_type,
        query_class,
    };
    Ok(Failure { query, kind })
}

// The kind of a word, with the text that a fault has.
fn read_kind<'a>(message: &'static str, word: &'a str) -> Result<FailureKind, LineFault<'a>>
    ensures { result ≡ kind_field message.entry word.now }
{
    match word {
        "timeout" => Ok(FailureKind::Timeout),
        "message" => Ok(FailureKind::Message(message)),
        _ => Err(LineFault::wrong_field(ScriptFault::UnknownWord, word)),
    }
}
