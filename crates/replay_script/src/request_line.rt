//! Lines that are requests.
ghost use Rattle.std.specs.Prelude.{◌≡◌, ◌⊎◌, Err, MatchResult, Ok, string_bytes};
ghost use Rattle.replay_script.specs.Faults.{out_of_memory};
ghost use Rattle.replay_script.specs.RequestLine.{IsRequest, asked_by, clear_asked, clear_lookup_asked, host_asked, lookup_asked, name_and_type, request_asked};
ghost use Rattle.replay_script.specs.Words.{texts};

use crate::fault::{LineFault, ScriptFault};
use crate::words::{number64, read_type};
use hickory_proto_core::RecordType;
use hickory_resolver_lookup::Request;
use std::alloc::Global;

// MOMENT, a verb, and what it is about
pub fn read_request<'a>(alloc: Global, fields: &[&'a str]) -> Result<Request, LineFault<'a>>
    ensures { IsRequest (request_asked (texts fields.now)) result ⊎ (result ≡ Err out_of_memory) }
{
    let [moment, verb, fields @ ..] = fields else {
        return Err(LineFault::wrong_line(ScriptFault::FieldCount));
    };
    let now = number64(moment)?;
    read_asked(alloc, now, verb, fields)
}

fn read_asked<'a>(
    alloc: Global,
    now: u64,
    verb: &'a str,
    fields: &[&'a str],
) -> Result<Request, LineFault<'a>>
    ensures { IsRequest (asked_by now verb.now (texts fields.now)) result ⊎ (result ≡ Err out_of_memory) }
{
    match verb {
        "lookup" => read_lookup(alloc, now, fields),
        "lookup_ip" => read_lookup_ip(alloc, now, fields),
        "clear_lookup" => read_clear_lookup(alloc, now, fields),
        "clear" => read_clear(now, fields),
        _ => Err(LineFault::wrong_field(ScriptFault::UnknownWord, verb)),
    }
}

fn read_lookup<'a>(alloc: Global, now: u64, fields: &[&'a str]) -> Result<Request, LineFault<'a>>
    ensures { IsRequest (lookup_asked now (texts fields.now)) result ⊎ (result ≡ Err out_of_memory) }
{
    let (name, record_type) = read_name_and_type(alloc, fields)?;
    Ok(Request::Lookup {
        name,
        record_type,
        now,
    })
}

fn read_lookup_ip<'a>(alloc: Global, now: u64, fields: &[&'a str]) -> Result<Request, LineFault<'a>>
    ensures { IsRequest (host_asked now (texts fields.now)) result ⊎ (result ≡ Err out_of_memory) }
{
    let [host] = fields else {
        return Err(LineFault::wrong_line(ScriptFault::FieldCount));
    };
    let host = String::from_str(alloc, host)?;
    Ok(Request::LookupIp { host, now })
}

fn read_clear_lookup<'a>(
    alloc: Global,
    now: u64,
    fields: &[&'a str],
) -> Result<Request, LineFault<'a>>
    ensures { IsRequest (clear_lookup_asked now (texts fields.now)) result
        ⊎ (result ≡ Err out_of_memory) }
{
    let (name, record_type) = read_name_and_type(alloc, fields)?;
    Ok(Request::ClearLookup {
        name,
        record_type,
        now,
    })
}

fn read_clear<'a>(now: u64, fields: &[&'a str]) -> Result<Request, LineFault<'a>>
    ensures { IsRequest (clear_asked now (texts fields.now)) result }
{
    match fields {
        [] => Ok(Request::Clear { now }),
        _ => Err(LineFault::wrong_line(ScriptFault::FieldCount)),
    }
}

// NAME TYPE, the name as it is written
fn read_name_and_type<'a>(
    alloc: Global,
    fields: &[&'a str],
) -> Result<(String, RecordType), LineFault<'a>>
    ensures { MatchResult result
        (λ made. name_and_type (texts fields.now) ≡ Ok (string_bytes made.0, made.1))
        (λ fault. (name_and_type (texts fields.now) ≡ Err fault) ⊎ (fault ≡ out_of_memory)) }
{
    let [name, record_type] = fields else {
        return Err(LineFault::wrong_line(ScriptFault::FieldCount));
    };
    let record_type = read_type(record_type)?;
    let name = String::from_str(alloc, name)?;
    Ok((name, record_type))
}
