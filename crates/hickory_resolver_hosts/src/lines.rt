//! What the lines of a file of hosts say.
ghost use Rattle.std.specs.Prelude.{◌≡◌, ◌≢◌, ◌==◌, ◌<◌, ◌+◌, ◌∷◌, [], ◌&&◌, length, take, drop, IfSome, OnOk, OnErr, IsOkUnless, MatchOption, MatchResult};
ghost use Rattle.std.specs.Char.{is_ascii, to_ascii_lowercase};
ghost use Rattle.std.specs.List.{before_first, list_all};
ghost use Rattle.std.specs.Str.{chars, IsUtf8};
ghost use Rattle.std.specs.Str.Iter.{split_whitespace_rest};
ghost use Rattle.hickory_proto_core.specs.Name.{NameValue};
ghost use Rattle.hickory_proto_core.specs.NameText.{Spells};
ghost use Rattle.hickory_proto_core.specs.Records.{DataValue, data_of_address};
ghost use Rattle.hickory_resolver_model.specs.Hosts.{IsAddressField, insert_host, as_fqdn, one_address, address_type, without_mark};
ghost use Rattle.hickory_resolver_hosts.specs.Reading.{AreNamesRead, IsBytesRead, IsLineRead, IsNameField};
ghost use Rattle.hickory_resolver_hosts.specs.Text.{lines_of, words};

use crate::hosts::Hosts;
use crate::hosts_error::HostsError;
use hickory_proto_core::{Name, NameError, Query, RData, RecordType, read_ip};
use hickory_resolver_lookup::Lookup;
use memchr::memchr;
use std::alloc::Global;
use std::hash::BuildHasher;
use std::net::IpAddr;
use std::str;
use std::str::SplitWhitespace;

/// Puts in what the lines of a file say, at this moment (seconds).
pub fn insert_lines<S: BuildHasher>(
    alloc: Global,
    hosts: &mut Hosts<S>,
    bytes: &[u8],
    now: u64,
) -> Result<(), HostsError>
    ensures { IsBytesRead now bytes.now hosts.old result hosts.new }
{
    let mut rest = without_mark(bytes);
    while let Some((line, next)) = split_line(rest) {
        insert_line(alloc, hosts, line, now)?;
        rest = next;
    }
    insert_line(alloc, hosts, rest, now)
}

// The first line, and what stands behind its LF. None where there is no LF.
fn split_line(bytes: &[u8]) -> Option<(&[u8], &[u8])>
    ensures short { IfSome result (λ split. length split.1.now < length bytes.now) }
    ensures lines { MatchOption result (lines_of bytes.now ≡ bytes.now ∷ [])
        (λ split. lines_of bytes.now ≡ split.0.now ∷ lines_of split.1.now) }
{
    let end = line_len(bytes)?;
    Some((&bytes[..end], &bytes[end + 1..]))
}

// How many bytes stand before the first LF, if there is one.
fn line_len(bytes: &[u8]) -> Option<usize>
    ensures short { IfSome result (λ end. end < length bytes.now) }
    ensures lines { MatchOption result (lines_of bytes.now ≡ bytes.now ∷ [])
        (λ end. lines_of bytes.now ≡ take end bytes.now ∷ lines_of (drop (end + 1) bytes.now)) }
{
    memchr(b'\n', bytes)
}

// The bytes without the byte order mark U+FEFF that they may begin with.
fn without_mark(bytes: &[u8]) -> &[u8]
    ensures { result.now ≡ without_mark bytes.now }
{
    match bytes {
        [0xef, 0xbb, 0xbf, rest @ ..] => rest,
        _ => bytes,
    }
}

fn insert_line<S: BuildHasher>(
    alloc: Global,
    hosts: &mut Hosts<S>,
    line: &[u8],
    now: u64,
) -> Result<(), HostsError>
    ensures { IsLineRead now line.now hosts.old result hosts.new }
{
    let Some(text) = text_of(line) else {
        return Err(HostsError::InvalidData);
    };
    let mut fields = text.split_whitespace();
    let Some(first) = fields.next() else {
        return Ok(());
    };
    match address_of(first) {
        Some(address) => insert_names(alloc, hosts, address, fields, now),
        None => Ok(()),
    }
}

// What stands in a line before its comment, if the line is UTF-8.
fn text_of(line: &[u8]) -> Option<&str>
    ensures { MatchOption result (IsUtf8 line.now → ⊥)
        (λ text. IsUtf8 line.now × IsUtf8 text.now × (chars text.now ≡ before_first (λ c. c == 35) (chars line.now))) }
{
    let text = str::from_utf8(line).ok()?;
    Some(without_comment(text))
}

// The address that a field is.
fn address_of(field: &str) -> Option<IpAddr>
    ensures { MatchOption result ((d : DataValue) → IsAddressField (chars field.now) d → ⊥)
        (λ address. IsAddressField (chars field.now) (data_of_address address)) }
{
    read_ip(field)
}

// What stands before the first `#`.
fn without_comment(text: &str) -> &str
    ensures { chars result.now ≡ before_first (λ c. c == 35) (chars text.now) }
{
    match text.split_once('#') {
        Some((text, _)) => text,
        None => text,
    }
}

// Puts in the names with an address.
fn insert_names<S: BuildHasher>(
    alloc: Global,
    hosts: &mut Hosts<S>,
    address: IpAddr,
    names: SplitWhitespace<'_>,
    now: u64,
) -> Result<(), HostsError>
    requires { IsUtf8 (split_whitespace_rest names) }
    ensures { AreNamesRead now (data_of_address address) (words (chars (split_whitespace_rest names.entry)))
        hosts.old result hosts.new }
{
    for field in names {
        if let Some(name) = host_name(alloc, field)? {
            insert_pair(alloc, hosts, name, address, now)?;
        }
    }
    Ok(())
}

// The name that a field is, in lower case. One past ASCII is none.
fn host_name(alloc: Global, field: &str) -> Result<Option<Name>, HostsError>
    ensures { MatchResult result (IsNameField (chars field.now)) (λ error. error ≡ HostsError.OutOfMemory) }
{
    if is_lower_ascii(field) {
        return name_of(alloc, field);
    }
    if !field.is_ascii() {
        return Ok(None);
    }
    let mut text = String::from_str(alloc, field)?;
    text.make_ascii_lowercase();
    name_of(alloc, &text)
}

// Whether a text is ASCII in lower case.
fn is_lower_ascii(text: &str) -> bool
    ensures { result ≡ list_all (λ b. is_ascii b && to_ascii_lowercase b == b) text.now }
{
    text.bytes()
        .all(|b| b.is_ascii() && b.to_ascii_lowercase() == b)
}

// The name that a text spells, if it spells one.
fn name_of(alloc: Global, text: &str) -> Result<Option<Name>, HostsError>
    ensures { MatchResult result (λ found. MatchOption found ((n : NameValue) → Spells text.now n → ⊥) (Spells text.now))
        (λ error. error ≡ HostsError.OutOfMemory) }
{
    match Name::from_ascii(alloc, text) {
        Ok(name) => Ok(Some(name)),
        Err(error) => {
            check_memory(error)?;
            Ok(None)
        }
    }
}

// Whether an error is other than out of memory.
fn check_memory(error: NameError) -> Result<(), HostsError>
    ensures { MatchResult result (λ _. error ≢ NameError.OutOfMemory)
        (λ fault. fault ≡ HostsError.OutOfMemory) }
{
    match error {
        NameError::OutOfMemory => Err(HostsError::OutOfMemory),
        _ => Ok(()),
    }
}

// Puts in one address of a name.
fn insert_pair<S: BuildHasher>(
    alloc: Global,
    hosts: &mut Hosts<S>,
    name: Name,
    address: IpAddr,
    now: u64,
) -> Result<(), HostsError>
    ensures ok { OnOk result (hosts.new ≡ insert_host name (address_type (data_of_address address))
        (one_address (as_fqdn name) (data_of_address address) now) now hosts.old) }
    ensures unchanged { OnErr result (hosts.new ≡ hosts.old) }
    ensures err { IsOkUnless result HostsError.OutOfMemory }
{
    let record_type = address_type(address);
    let mut owner = Clone::clone(&name)?;
    owner.set_fqdn(true);
    let query = Query::query(owner, record_type);
    let Ok(lookup) = Lookup::from_rdata(alloc, query, RData::from(address), now) else {
        return Err(HostsError::OutOfMemory);
    };
    hosts.insert(name, record_type, lookup, now)
}

fn address_type(address: IpAddr) -> RecordType
    ensures { result ≡ address_type (data_of_address address) }
{
    match address {
        IpAddr::V4(_) => RecordType::A,
        IpAddr::V6(_) => RecordType::AAAA,
    }
}
