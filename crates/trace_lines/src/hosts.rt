//! Files of hosts (hosts(5)): lines of an address and its names, as the records that a resolver makes of them.
ghost use Rattle.std.specs.Prelude.{◌≡◌, ◌==◌, ◌++◌, List, OnOk, MatchOption, Some};
ghost use Rattle.std.specs.Str.{IsUtf8};
ghost use Rattle.std.specs.List.{before_first};
ghost use Rattle.std.specs.Str.Lines.{lines};
ghost use Rattle.std.specs.Result.{result_ok};
ghost use Rattle.hickory_proto_core.specs.Records.{RecordValue, data_of, data_of_address};
ghost use Rattle.hickory_proto_core.specs.NameDecided.{text_name};
ghost use Rattle.hickory_proto_core.specs.NameGiven.{IsReadAddress};
ghost use Rattle.replay_script.specs.Words.{texts};
ghost use Rattle.trace_lines.specs.HostRecords.{AreNamed, AreOfLine, AreOfLines, AreOfText, host_records, own_record, pair_if, pair_of};

use hickory_proto_core::{DNSClass, Name, NameError, RData, Record, read_ip};
use replay_script::{ScriptLines, split};
use std::alloc::{AllocError, Global};
use std::net::IpAddr;
use std::str;

/// Puts in the records of a file: for each name the address of its line, and for the address the name. What is no
/// address, or no name, is left out.
pub fn add_hosts(alloc: Global, text: &str, own: &mut Vec<Record>) -> Result<(), AllocError>
    ensures { OnOk result ((records : List RecordValue) × AreOfLines (lines text.now) records
        × (own.new.items ≡ own.old.items ++ records)) }
{
    for line in ScriptLines::new(text.as_bytes()) {
        add_line(alloc, line, own)?;
    }
    Ok(())
}

fn add_line(alloc: Global, line: &[u8], own: &mut Vec<Record>) -> Result<(), AllocError>
    ensures { OnOk result ((records : List RecordValue) × AreOfLine line.now records
        × (own.new.items ≡ own.old.items ++ records)) }
{
    match text_of(line) {
        Some(text) => add_text(alloc, text, own),
        None => Ok(()),
    }
}

fn text_of(line: &[u8]) -> Option<&str>
    ensures { MatchOption result (IsUtf8 line.now → ⊥) (λ text. IsUtf8 line.now × (text.now ≡ line.now)) }
{
    str::from_utf8(line).ok()
}

fn add_text(alloc: Global, line: &str, own: &mut Vec<Record>) -> Result<(), AllocError>
    ensures { OnOk result ((records : List RecordValue) × AreOfText line.now records
        × (own.new.items ≡ own.old.items ++ records)) }
{
    let fields = split(alloc, without_comment(line))?;
    add_fields(alloc, &fields, own)
}

fn without_comment(line: &str) -> &str
    ensures { result.now ≡ before_first (λ b. b == 35) line.now }
{
    match line.split_once('#') {
        Some((before, _)) => before,
        None => line,
    }
}

fn add_fields(alloc: Global, fields: &[&str], own: &mut Vec<Record>) -> Result<(), AllocError>
    ensures { OnOk result ((records : List RecordValue) × AreNamed (texts fields.now) records
        × (own.new.items ≡ own.old.items ++ records)) }
{
    let [first, names @ ..] = fields else {
        return Ok(());
    };
    match read_address(first) {
        Some(address) => add_names(alloc, address, names, own),
        None => Ok(()),
    }
}

/// The address that a text spells, if it spells one.
pub fn read_address(text: &str) -> Option<IpAddr>
    ensures { IsReadAddress text.now result }
{
    read_ip(text)
}

fn add_names(
    alloc: Global,
    address: IpAddr,
    names: &[&str],
    own: &mut Vec<Record>,
) -> Result<(), AllocError>
    ensures { OnOk result (own.new.items
        ≡ own.old.items ++ host_records (Some address) (texts names.now)) }
{
    for name in names {
        add_name(alloc, address, name, own)?;
    }
    Ok(())
}

fn add_name(
    alloc: Global,
    address: IpAddr,
    text: &str,
    own: &mut Vec<Record>,
) -> Result<(), AllocError>
    ensures { OnOk result (own.new.items
        ≡ own.old.items ++ pair_if address (result_ok (text_name text.now))) }
{
    match Name::from_ascii(alloc, text) {
        Ok(name) => add_pair(alloc, address, name, own),
        Err(NameError::OutOfMemory) => Err(AllocError),
        Err(_) => Ok(()),
    }
}

fn add_pair(
    alloc: Global,
    address: IpAddr,
    mut name: Name,
    own: &mut Vec<Record>,
) -> Result<(), AllocError>
    ensures { OnOk result (own.new.items ≡ own.old.items ++ pair_if address (Some name)) }
{
    name.set_fqdn(true);
    let Ok(back) = Name::from_ip(alloc, address) else {
        return Err(AllocError);
    };
    let target = Clone::clone(&name)?;
    own.push(own_record(name, data_of(address)))?;
    own.push(own_record(back, RData::PTR(target)))?;
    Ok(())
}

fn data_of(address: IpAddr) -> RData
    ensures { data_of result ≡ data_of_address address }
{
    match address {
        IpAddr::V4(address) => RData::A(address),
        IpAddr::V6(address) => RData::AAAA(address),
    }
}

// Its TTL is not looked at.
fn own_record(name: Name, rdata: RData) -> Record
    ensures { result ≡ own_record name (data_of rdata) }
{
    Record {
        name,
        dns_class: DNSClass::IN,
        ttl: 0,
        rdata,
    }
}
