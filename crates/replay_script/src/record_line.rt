//! Lines that are records.
ghost use Rattle.std.specs.Prelude.{◌≡◌, ◌⊎◌, Err, IfOk};
ghost use Rattle.replay_script.specs.Faults.{out_of_memory};
ghost use Rattle.replay_script.specs.RecordLine.{IsRecord, head_of};
ghost use Rattle.replay_script.specs.Words.{texts};

use crate::data_fields::read_data;
use crate::fault::{LineFault, ScriptFault};
use crate::words::{number32, read_class, read_name, read_type};
use hickory_proto_core::{DNSClass, Name, Record, RecordType};
use std::alloc::Global;

/// The sections of a response that records stand in (RFC 1035, section 4.1).
#[derive(Clone, Copy, Debug, PartialEq, Eq)]
pub enum Section {
    Answer,
    Authority,
    Additional,
}

// What stands before the data of a record.
#[derive(Drop)]
struct RecordHead {
    name: Name,
    ttl: u32,
    dns_class: DNSClass,
    record_type: RecordType,
}

// NAME TTL CLASS TYPE DATA
pub fn read_record<'a>(alloc: Global, fields: &[&'a str]) -> Result<Record, LineFault<'a>>
    ensures { IsRecord (texts fields.now) result ⊎ (result ≡ Err out_of_memory) }
{
    let [name, ttl, class, record_type, fields @ ..] = fields else {
        return Err(LineFault::wrong_line(ScriptFault::FieldCount));
    };
    let head = read_head(alloc, name, ttl, class, record_type)?;
    let rdata = read_data(alloc, head.record_type, fields)?;
    Ok(Record {
        name: head.name,
        dns_class: head.dns_class,
        ttl: head.ttl,
        rdata,
    })
}

fn read_head<'a>(
    alloc: Global,
    name: &'a str,
    ttl: &'a str,
    class: &'a str,
    record_type: &'a str,
) -> Result<RecordHead, LineFault<'a>>
    ensures { (result ≡ head_of name.now ttl.now class.now record_type.now)
        ⊎ (result ≡ Err out_of_memory) }
{
    let name = read_name(alloc, name)?;
    let ttl = number32(ttl)?;
    let dns_class = read_class(class)?;
    let record_type = read_type(record_type)?;
    Ok(RecordHead {
        name,
        ttl,
        dns_class,
        record_type,
    })
}
