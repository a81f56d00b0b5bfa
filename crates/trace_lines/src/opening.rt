//! Lines that begin an event: `at` MOMENT, and what was asked, received or told.
ghost use Rattle.std.specs.Prelude.{◌≡◌, ◌⊎◌, Err};
ghost use Rattle.replay_script.specs.Faults.{out_of_memory};
ghost use Rattle.replay_script.specs.Words.{texts};
ghost use Rattle.trace_lines.specs.Openings.{asked_of, head_of, opening_of, question_of};

use hickory_proto_core::Query;
use replay_script::reply_line::read_reply;
use replay_script::words::{read_class, read_name, read_type};
use replay_script::{LineFault, ReplyHead, ScriptFault};
use std::alloc::Global;

/// What a line that begins an event says, before it has any records.
#[derive(Debug, Drop)]
pub enum Opening {
    Asked(Query),
    Received(ReplyHead),
    Told(ReplyHead),
}

/// Reads the verb behind a moment, and what it is about: `asked` NAME TYPE, `received` CODE NAME TYPE or `told` CODE
/// NAME TYPE, each with a class where one is wanted, and the last two with `tc` where the response is truncated.
pub fn read_opening<'a>(
    alloc: Global,
    verb: &'a str,
    fields: &[&'a str],
) -> Result<Opening, LineFault<'a>>
    ensures { (result ≡ opening_of verb.now (texts fields.now)) ⊎ (result ≡ Err out_of_memory) }
{
    match verb {
        "asked" => Ok(Opening::Asked(read_asked(alloc, fields)?)),
        "received" => Ok(Opening::Received(read_head(alloc, fields)?)),
        "told" => Ok(Opening::Told(read_head(alloc, fields)?)),
        _ => Err(LineFault::wrong_field(ScriptFault::UnknownWord, verb)),
    }
}

// NAME TYPE [CLASS]
fn read_asked<'a>(alloc: Global, fields: &[&'a str]) -> Result<Query, LineFault<'a>>
    ensures { (result ≡ asked_of (texts fields.now)) ⊎ (result ≡ Err out_of_memory) }
{
    match fields {
        [name, record_type] => read_question(alloc, name, record_type, "IN"),
        [name, record_type, class] => read_question(alloc, name, record_type, class),
        _ => Err(LineFault::wrong_line(ScriptFault::FieldCount)),
    }
}

fn read_question<'a>(
    alloc: Global,
    name: &'a str,
    record_type: &'a str,
    class: &'a str,
) -> Result<Query, LineFault<'a>>
    ensures { (result ≡ question_of name.now record_type.now class.now)
        ⊎ (result ≡ Err out_of_memory) }
{
    let name = read_name(alloc, name)?;
    let query_type = read_type(record_type)?;
    let query_class = read_class(class)?;
    Ok(Query {
        name,
        query_type,
        query_class,
    })
}

// CODE NAME TYPE [CLASS] [tc]: a response of a trace has its question.
fn read_head<'a>(alloc: Global, fields: &[&'a str]) -> Result<ReplyHead, LineFault<'a>>
    ensures { (result ≡ head_of (texts fields.now)) ⊎ (result ≡ Err out_of_memory) }
{
    let head = read_reply(alloc, fields)?;
    if head.without_question {
        return Err(LineFault::wrong_line(ScriptFault::UnknownWord));
    }
    Ok(head)
}
