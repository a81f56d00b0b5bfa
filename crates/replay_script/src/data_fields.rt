//! The data of the records in a script.
ghost use Rattle.std.specs.Prelude.{◌≡◌, ◌⊎◌, Err, MatchResult};
ghost use Rattle.hickory_proto_core.specs.Records.{DataValue, data_of};
ghost use Rattle.hickory_proto_core.specs.Name.{label_bytes};
ghost use Rattle.replay_script.specs.DataFields.{IsAddressData, IsData, IsIpv4Data, IsIpv6Data, bytes_as_value, hex_field, mx_of, read_as_value, service_of, soa_of, srv_of, strings_as_value, strings_of, times_of, txt_of, unknown_of, zone_of};
ghost use Rattle.replay_script.specs.Faults.{out_of_memory, wrong_field};
ghost use Rattle.replay_script.specs.Words.{texts};

use crate::fault::{LineFault, ScriptFault};
use crate::words::{number16, number32, read_name, read_only_name};
use hex::FromHexError;
use hickory_proto_core::{RData, RecordType};
use std::alloc::Global;
use std::net::{Ipv4Addr, Ipv6Addr};

/// The data that the fields behind a type write.
pub fn read_data<'a>(
    alloc: Global,
    record_type: RecordType,
    fields: &[&'a str],
) -> Result<RData, LineFault<'a>>
    ensures { IsData record_type (texts fields.now) (read_as_value result)
        ⊎ (result ≡ Err out_of_memory) }
{
    match record_type {
        RecordType::A => read_ipv4_field(fields),
        RecordType::AAAA => read_ipv6_field(fields),
        RecordType::CNAME => Ok(RData::CNAME(read_only_name(alloc, fields)?)),
        RecordType::NS => Ok(RData::NS(read_only_name(alloc, fields)?)),
        RecordType::PTR => Ok(RData::PTR(read_only_name(alloc, fields)?)),
        RecordType::MX => read_mx(alloc, fields),
        RecordType::SRV => read_srv(alloc, fields),
        RecordType::SOA => read_soa(alloc, fields),
        RecordType::TXT => read_txt(alloc, fields),
        _ => read_unknown(alloc, record_type.code(), fields),
    }
}

fn read_ipv4_field<'a>(fields: &[&'a str]) -> Result<RData, LineFault<'a>>
    ensures { IsAddressData IsIpv4Data (texts fields.now) (read_as_value result) }
{
    let [text] = fields else {
        return Err(LineFault::wrong_line(ScriptFault::FieldCount));
    };
    read_ipv4(text)
}

fn read_ipv4(text: &str) -> Result<RData, LineFault<'_>>
    ensures { MatchResult result (λ d. IsIpv4Data text.now (data_of d))
        (λ fault. (fault ≡ wrong_field ScriptFault.BadAddress text.now)
        × ((d : DataValue) → ¬ IsIpv4Data text.now d)) }
{
    match text.parse::<Ipv4Addr>() {
        Ok(address) => Ok(RData::A(address)),
        Err(_) => Err(LineFault::wrong_field(ScriptFault::BadAddress, text)),
    }
}

fn read_ipv6_field<'a>(fields: &[&'a str]) -> Result<RData, LineFault<'a>>
    ensures { IsAddressData IsIpv6Data (texts fields.now) (read_as_value result) }
{
    let [text] = fields else {
        return Err(LineFault::wrong_line(ScriptFault::FieldCount));
    };
    read_ipv6(text)
}

fn read_ipv6(text: &str) -> Result<RData, LineFault<'_>>
    ensures { MatchResult result (λ d. IsIpv6Data text.now (data_of d))
        (λ fault. (fault ≡ wrong_field ScriptFault.BadAddress text.now)
        × ((d : DataValue) → ¬ IsIpv6Data text.now d)) }
{
    match text.parse::<Ipv6Addr>() {
        Ok(address) => Ok(RData::AAAA(address)),
        Err(_) => Err(LineFault::wrong_field(ScriptFault::BadAddress, text)),
    }
}

// PREFERENCE NAME
fn read_mx<'a>(alloc: Global, fields: &[&'a str]) -> Result<RData, LineFault<'a>>
    ensures { (read_as_value result ≡ mx_of (texts fields.now)) ⊎ (result ≡ Err out_of_memory) }
{
    let [preference, exchange] = fields else {
        return Err(LineFault::wrong_line(ScriptFault::FieldCount));
    };
    let preference = number16(preference)?;
    let exchange = read_name(alloc, exchange)?;
    Ok(RData::MX {
        preference,
        exchange,
    })
}

// PRIORITY WEIGHT PORT NAME
fn read_srv<'a>(alloc: Global, fields: &[&'a str]) -> Result<RData, LineFault<'a>>
    ensures { (read_as_value result ≡ srv_of (texts fields.now)) ⊎ (result ≡ Err out_of_memory) }
{
    let [priority, weight, port, target] = fields else {
        return Err(LineFault::wrong_line(ScriptFault::FieldCount));
    };
    read_service(alloc, priority, weight, port, target)
}

fn read_service<'a>(
    alloc: Global,
    priority: &'a str,
    weight: &'a str,
    port: &'a str,
    target: &'a str,
) -> Result<RData, LineFault<'a>>
    ensures { (read_as_value result ≡ service_of priority.now weight.now port.now target.now)
        ⊎ (result ≡ Err out_of_memory) }
{
    let priority = number16(priority)?;
    let weight = number16(weight)?;
    let port = number16(port)?;
    let target = read_name(alloc, target)?;
    Ok(RData::SRV {
        priority,
        weight,
        port,
        target,
    })
}

// The numbers of a zone: its version, and its times in seconds.
#[derive(Clone, Copy)]
struct ZoneTimes {
    serial: u32,
    refresh: u32,
    retry: u32,
    expire: u32,
    minimum: u32,
}

// NAME NAME SERIAL REFRESH RETRY EXPIRE MINIMUM
fn read_soa<'a>(alloc: Global, fields: &[&'a str]) -> Result<RData, LineFault<'a>>
    ensures { (read_as_value result ≡ soa_of (texts fields.now)) ⊎ (result ≡ Err out_of_memory) }
{
    let [mname, rname, serial, refresh, retry, expire, minimum] = fields else {
        return Err(LineFault::wrong_line(ScriptFault::FieldCount));
    };
    let times = read_times(serial, refresh, retry, expire, minimum);
    read_zone(alloc, mname, rname, times)
}

fn read_zone<'a>(
    alloc: Global,
    mname: &'a str,
    rname: &'a str,
    times: Result<ZoneTimes, LineFault<'a>>,
) -> Result<RData, LineFault<'a>>
    ensures { (read_as_value result ≡ zone_of mname.now rname.now times.entry)
        ⊎ (result ≡ Err out_of_memory) }
{
    let mname = read_name(alloc, mname)?;
    let rname = read_name(alloc, rname)?;
    let times = times?;
    Ok(RData::SOA {
        mname,
        rname,
        serial: times.serial,
        refresh: times.refresh,
        retry: times.retry,
        expire: times.expire,
        minimum: times.minimum,
    })
}

fn read_times<'a>(
    serial: &'a str,
    refresh: &'a str,
    retry: &'a str,
    expire: &'a str,
    minimum: &'a str,
) -> Result<ZoneTimes, LineFault<'a>>
    ensures { result ≡ times_of serial.now refresh.now retry.now expire.now minimum.now }
{
    Ok(ZoneTimes {
        serial: number32(serial)?,
        refresh: number32(refresh)?,
        retry: number32(retry)?,
        expire: number32(expire)?,
        minimum: number32(minimum)?,
    })
}

// STRING, and more of them
fn read_txt<'a>(alloc: Global, fields: &[&'a str]) -> Result<RData, LineFault<'a>>
    ensures { (read_as_value result ≡ txt_of (texts fields.now)) ⊎ (result ≡ Err out_of_memory) }
{
    if fields.is_empty() {
        return Err(LineFault::wrong_line(ScriptFault::FieldCount));
    }
    Ok(RData::TXT(read_strings(alloc, fields)?))
}

fn read_strings<'a>(alloc: Global, fields: &[&'a str]) -> Result<Vec<Vec<u8>>, LineFault<'a>>
    ensures { (strings_as_value result ≡ strings_of (texts fields.now))
        ⊎ (result ≡ Err out_of_memory) }
{
    let mut strings = Vec::new(alloc);
    for field in fields {
        let string = read_bytes(alloc, field)?;
        strings.push(string)?;
    }
    Ok(strings)
}

// The data of a type without a form of its own: BYTES
fn read_unknown<'a>(alloc: Global, code: u16, fields: &[&'a str]) -> Result<RData, LineFault<'a>>
    ensures { (read_as_value result ≡ unknown_of code (texts fields.now))
        ⊎ (result ≡ Err out_of_memory) }
{
    let [text] = fields else {
        return Err(LineFault::wrong_line(ScriptFault::FieldCount));
    };
    let bytes = read_bytes(alloc, text)?;
    Ok(RData::Unknown { code, bytes })
}

// The bytes that hex digits write, where `-` stands for no bytes.
fn read_bytes(alloc: Global, text: &str) -> Result<Vec<u8>, LineFault<'_>>
    ensures { (bytes_as_value result ≡ hex_field text.now) ⊎ (result ≡ Err out_of_memory) }
{
    if *text == *"-" {
        return Ok(Vec::new(alloc));
    }
    match hex::decode(alloc, text) {
        Ok(bytes) => Ok(bytes),
        Err(FromHexError::OutOfMemory) => Err(LineFault::wrong_line(ScriptFault::OutOfMemory)),
        Err(_) => Err(LineFault::wrong_field(ScriptFault::BadHex, text)),
    }
}
