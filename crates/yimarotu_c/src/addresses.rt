//! Answers as addresses.
ghost use Rattle.std.specs.Prelude.{◌≡◌, ◌++◌, IfOk, OnOk};
ghost use Rattle.std.specs.List.{flat_map};
ghost use Rattle.yimarotu_c.specs.Addresses.{AreAddressesPut, AreEntriesPut, AreFoundPut, ArePut, address_entry, addresses_end, error_end, padding_of, record_entry};
ghost use Rattle.yimarotu_c.specs.Asking.{Reads};
ghost use Rattle.yimarotu_c.specs.declared.status.Status.TheVariants as status;

use crate::answering::{Told, told_of};
use crate::doing::{family_of, push_address};
use crate::looking_up::status_of;
use crate::room::put as put_octets;
use crate::sessions::{YimarotuSession, put, take};
use crate::status::Status;
use hickory_proto_core::{NetError, Record};
use hickory_resolver::Lookup;
use std::alloc::{AllocError, Global};
use std::net::IpAddr;
use yimarotu_embedded::Held;

/// How the writing of addresses ended.
#[repr(C)]
#[derive(Drop)]
pub struct YimarotuFound {
    /// The number of a status.
    pub status: u8,
    /// The number of an error of the look-up; 0 where there are records.
    pub error: u8,
    /// The response code; 0 where there is none.
    pub code: u16,
    /// For how many seconds from the moment on they may be used.
    pub ttl: u64,
    /// How many there are: where they were written, and where the room is too small for them; else 0.
    pub count: usize,
}

/// Writes the addresses that the look-up of a number came to at the front of the room, each as 17 octets: 4 or 6, and
/// its octets, behind those of IPv4 twelve that are 0.
#[unsafe(no_mangle)]
pub extern "C" fn yimarotu_addresses(
    alloc: Global,
    session: &mut YimarotuSession,
    number: u64,
    moment: u64,
    room: &mut [u8],
) -> YimarotuFound
    ensures { Reads (AreAddressesPut number moment) (addresses_end status.Closed) session.old.inside.value room.old
        result session.new.inside.value room.new }
{
    let Some(inside) = take(alloc, session) else {
        return ended(Status::Closed);
    };
    let addresses = addresses(alloc, &inside, number, moment, room);
    put(session, inside);
    addresses
}

fn addresses(alloc: Global, held: &Held, number: u64, moment: u64, room: &mut [u8]) -> YimarotuFound
    ensures { AreAddressesPut number moment held.now room.old room.new result }
{
    match held.found(number) {
        Ok(found) => put_found(alloc, found, moment, room),
        Err(error) => ended(status_of(error)),
    }
}

fn put_found(
    alloc: Global,
    found: &Result<Lookup, NetError>,
    moment: u64,
    room: &mut [u8],
) -> YimarotuFound
    ensures { AreFoundPut found.now moment room.old room.new result }
{
    match found {
        Ok(lookup) => put_addresses(alloc, lookup, moment, room),
        Err(_) => without_addresses(told_of(found)),
    }
}

fn put_addresses(alloc: Global, lookup: &Lookup, moment: u64, room: &mut [u8]) -> YimarotuFound
    ensures { ArePut lookup.now moment room.old room.new result }
{
    match address_entries(alloc, lookup.answers()) {
        Ok(entries) => put_entries(&entries, lookup, moment, room),
        Err(AllocError) => ended(Status::NoMemory),
    }
}

fn put_entries(entries: &[u8], lookup: &Lookup, moment: u64, room: &mut [u8]) -> YimarotuFound
    ensures { AreEntriesPut entries.now lookup.now moment room.old room.new result }
{
    let status = put_octets(entries, room);
    YimarotuFound {
        status: status.number(),
        error: 0,
        code: lookup.message().metadata.response_code.code(),
        ttl: lookup.valid_until().saturating_sub(moment / 1000),
        count: entries.len() / 17,
    }
}

fn address_entries(alloc: Global, records: &[Record]) -> Result<Vec<u8>, AllocError>
    ensures { IfOk result (λ entries. entries.items ≡ flat_map record_entry records.now) }
{
    let mut entries = Vec::new(alloc);
    push_records(&mut entries, records)?;
    Ok(entries)
}

fn push_records(entries: &mut Vec<u8>, records: &[Record]) -> Result<(), AllocError>
    ensures { OnOk result (entries.new.items ≡ entries.old.items ++ flat_map record_entry records.now) }
{
    for entry in records {
        push_record(entries, entry)?;
    }
    Ok(())
}

fn push_record(entries: &mut Vec<u8>, entry: &Record) -> Result<(), AllocError>
    ensures { OnOk result (entries.new.items ≡ entries.old.items ++ record_entry entry.now) }
{
    match entry.rdata.ip_addr() {
        Some(address) => push_entry(entries, address),
        None => Ok(()),
    }
}

fn push_entry(entries: &mut Vec<u8>, address: IpAddr) -> Result<(), AllocError>
    ensures { OnOk result (entries.new.items ≡ entries.old.items ++ address_entry address) }
{
    entries.push(family_of(address))?;
    push_address(entries, address)?;
    push_padding(entries, address)
}

// An address of IPv4 takes as much room as one of IPv6.
fn push_padding(entries: &mut Vec<u8>, address: IpAddr) -> Result<(), AllocError>
    ensures { OnOk result (entries.new.items ≡ entries.old.items ++ padding_of address) }
{
    match address {
        IpAddr::V4(_) => entries.extend_from_slice(&[0; 12]),
        IpAddr::V6(_) => Ok(()),
    }
}

fn without_addresses(told: Told) -> YimarotuFound
    ensures { result ≡ error_end told }
{
    YimarotuFound {
        status: Status::Ok.number(),
        error: told.error,
        code: told.code,
        ttl: 0,
        count: 0,
    }
}

fn ended(status: Status) -> YimarotuFound
    ensures { result ≡ addresses_end status }
{
    YimarotuFound {
        status: status.number(),
        error: 0,
        code: 0,
        ttl: 0,
        count: 0,
    }
}
