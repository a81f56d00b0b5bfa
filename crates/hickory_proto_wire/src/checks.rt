//! Whether a message can be written: the first fault in the order of writing.
ghost use Rattle.std.specs.Prelude.{◌≡◌, ◌+◌, None, length};
ghost use Rattle.std.specs.Option.{option_or};
ghost use Rattle.hickory_proto_names.specs.Name.{label_bytes};
ghost use Rattle.hickory_proto_core.specs.Records.{data_of, txt_data, unknown_data};
ghost use Rattle.hickory_proto_wire.specs.Refused.{Tests, first_fault, name_fault, string_fault, size_fault, data_fault, query_fault, record_fault, additional_fault, opt_fault, code_fault, op_fault, count_fault, counts_fault, header_fault, sections_fault, message_fault};
ghost use Rattle.hickory_proto_wire.specs.Writing.{is_parsed, run_of, opt_count};

use crate::edns::Edns;
use crate::old_data::is_spelled_out;
use crate::record_writer::data_code;
use crate::to_wire_error::ToWireError;
use crate::wire_message::WireMessage;
use hickory_proto_core::{Name, Query, RData, Record};

fn check_name(name: &Name) -> Result<(), ToWireError>
    ensures { Tests result (name_fault name.now) }
{
    if !name.is_fqdn() {
        return Err(ToWireError::RelativeName);
    }
    Ok(())
}

// Whether so many octets can be measured.
fn check_size(size: usize) -> Result<(), ToWireError>
    ensures { Tests result (size_fault size) }
{
    if 65535 < size {
        return Err(ToWireError::DataTooLong);
    }
    Ok(())
}

fn check_string(string: &[u8]) -> Result<(), ToWireError>
    ensures { Tests result (string_fault string.now) }
{
    if 255 < string.len() {
        return Err(ToWireError::StringTooLong);
    }
    Ok(())
}

fn check_strings(strings: &[Vec<u8>]) -> Result<(), ToWireError>
    ensures { Tests result (first_fault string_fault (label_bytes strings.now)) }
{
    for i in 0..strings.len() {
        check_string(&strings[i])?;
    }
    Ok(())
}

// The octets of strings with their lengths, or a number past 65,535.
fn strings_size(strings: &[Vec<u8>]) -> usize
    requires { first_fault string_fault (label_bytes strings.now) ≡ None }
    ensures { size_fault result ≡ size_fault (length (run_of (label_bytes strings.now))) }
{
    let mut size: usize = 0;
    for i in 0..strings.len() {
        if 65535 < size {
            return size;
        }
        size += strings[i].as_slice().len() + 1;
    }
    size
}

fn check_txt(strings: &[Vec<u8>]) -> Result<(), ToWireError>
    ensures { Tests result (data_fault (txt_data (label_bytes strings.now))) }
{
    check_strings(strings)?;
    check_size(strings_size(strings))
}

// Whether data of the type are parsed by the reader.
fn is_parsed(code: u16) -> bool
    ensures { result ≡ is_parsed code }
{
    match code {
        1 | 2 | 5 | 6 | 12 | 15 | 16 | 28 | 33 => true,
        _ => false,
    }
}

fn check_unknown(code: u16, octets: &[u8]) -> Result<(), ToWireError>
    ensures { Tests result (data_fault (unknown_data code octets.now)) }
{
    if is_parsed(code) {
        return Err(ToWireError::KnownType);
    }
    if !is_spelled_out(code, octets) {
        return Err(ToWireError::NotSpelledOut);
    }
    check_size(octets.len())
}

fn check_names(first: &Name, second: &Name) -> Result<(), ToWireError>
    ensures { Tests result (option_or (name_fault first.now) (name_fault second.now)) }
{
    check_name(first)?;
    check_name(second)
}

fn check_data(rdata: &RData) -> Result<(), ToWireError>
    ensures { Tests result (data_fault (data_of rdata.now)) }
{
    match rdata {
        RData::A(_) => Ok(()),
        RData::AAAA(_) => Ok(()),
        RData::CNAME(target) => check_name(target),
        RData::NS(target) => check_name(target),
        RData::PTR(target) => check_name(target),
        RData::SOA { mname, rname, .. } => check_names(mname, rname),
        RData::SRV { target, .. } => check_name(target),
        RData::MX { exchange, .. } => check_name(exchange),
        RData::TXT(strings) => check_txt(strings),
        RData::Unknown { code, bytes } => check_unknown(*code, bytes),
    }
}

fn check_record(checked: &Record) -> Result<(), ToWireError>
    ensures { Tests result (record_fault checked.now) }
{
    check_name(&checked.name)?;
    check_data(&checked.rdata)
}

// A record of the additional section, which is not OPT.
fn check_additional(checked: &Record) -> Result<(), ToWireError>
    ensures { Tests result (additional_fault checked.now) }
{
    check_name(&checked.name)?;
    if data_code(&checked.rdata) == 41 {
        return Err(ToWireError::KnownType);
    }
    check_data(&checked.rdata)
}

fn check_query(query: &Query) -> Result<(), ToWireError>
    ensures { Tests result (query_fault query.now) }
{
    check_name(&query.name)
}

fn check_queries(queries: &[Query]) -> Result<(), ToWireError>
    ensures { Tests result (first_fault query_fault queries.now) }
{
    for i in 0..queries.len() {
        check_query(&queries[i])?;
    }
    Ok(())
}

fn check_records(records: &[Record]) -> Result<(), ToWireError>
    ensures { Tests result (first_fault record_fault records.now) }
{
    for i in 0..records.len() {
        check_record(&records[i])?;
    }
    Ok(())
}

fn check_additionals(records: &[Record]) -> Result<(), ToWireError>
    ensures { Tests result (first_fault additional_fault records.now) }
{
    for i in 0..records.len() {
        check_additional(&records[i])?;
    }
    Ok(())
}

fn check_opt(edns: &Option<Edns>) -> Result<(), ToWireError>
    ensures { Tests result (opt_fault edns.now) }
{
    match edns {
        None => Ok(()),
        Some(edns) => check_size(edns.options.as_slice().len()),
    }
}

// The kind of message has 4 bits.
fn check_op(code: u8) -> Result<(), ToWireError>
    ensures { Tests result (op_fault code) }
{
    if 15 < code {
        return Err(ToWireError::OpCodeTooLarge);
    }
    Ok(())
}

// The response code has 4 bits, and 12 with OPT.
fn check_code(edns: &Option<Edns>, code: u16) -> Result<(), ToWireError>
    ensures { Tests result (code_fault edns.now code) }
{
    let most = match edns {
        None => 15,
        Some(_) => 4095,
    };
    if most < code {
        return Err(ToWireError::ResponseCodeTooLarge);
    }
    Ok(())
}

fn check_count(count: usize) -> Result<(), ToWireError>
    ensures { Tests result (count_fault count) }
{
    if 65535 < count {
        return Err(ToWireError::TooManyRecords);
    }
    Ok(())
}

// How many OPT records there are.
pub(crate) fn opt_count(edns: &Option<Edns>) -> usize
    ensures { result ≡ opt_count edns.now }
{
    match edns {
        None => 0,
        Some(_) => 1,
    }
}

fn check_counts(message: &WireMessage) -> Result<(), ToWireError>
    ensures { Tests result (counts_fault message.now) }
{
    check_count(message.message.queries.as_slice().len())?;
    check_count(message.message.answers.as_slice().len())?;
    check_count(message.message.authorities.as_slice().len())?;
    check_count(message.message.additionals.as_slice().len() + opt_count(&message.edns))
}

fn check_header(message: &WireMessage) -> Result<(), ToWireError>
    ensures { Tests result (header_fault message.now) }
{
    check_op(message.message.metadata.op_code.code())?;
    check_code(&message.edns, message.message.metadata.response_code.code())?;
    check_counts(message)
}

fn check_sections(message: &WireMessage) -> Result<(), ToWireError>
    ensures { Tests result (sections_fault message.now) }
{
    check_queries(&message.message.queries)?;
    check_records(&message.message.answers)?;
    check_records(&message.message.authorities)?;
    check_additionals(&message.message.additionals)?;
    check_opt(&message.edns)
}

pub(crate) fn check_message(message: &WireMessage) -> Result<(), ToWireError>
    ensures { Tests result (message_fault message.now) }
{
    check_header(message)?;
    check_sections(message)
}
