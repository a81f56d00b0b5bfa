//! Tables of hosts: reading a file, and static look-ups.
ghost use Rattle.std.specs.Prelude.{◌<◌, ◌^◌};

use crate::measure::{Stopwatch, Subject};
use crate::samples::{BATCH, BATCHES, Numbered, OPERATIONS, place};
use hickory_proto_core::{Name, NetError, Query, RecordType};
use hickory_resolver::Hosts;
use std::alloc::Global;
use std::net::Ipv4Addr;
use std::rt::Clock;

// How many lines a file has, each an address and a name.
const LINES: u64 = 100_000;

/// Times tables of hosts, and prints a line for each operation.
pub fn print_times<R: Clock + Print>(
    alloc: Global,
    watch: &mut Stopwatch<'_, R>,
) -> anyhow::Result<()> {
    print_read(alloc, watch, "read 10,000 addresses a name, a line", 10_000)?;
    print_read(alloc, watch, "read 1,000 addresses a name, a line", 1_000)?;
    let mut table = print_read(alloc, watch, "read 1 address a name, a line", 1)?;
    table.asked_type = Some(RecordType::A);
    watch.print_best(
        "static look-up of A",
        &mut table,
        BATCHES,
        BATCH,
        OPERATIONS,
    )?;
    table.asked_type = Some(RecordType::PTR);
    watch.print_best(
        "static look-up of PTR",
        &mut table,
        BATCHES,
        BATCH,
        OPERATIONS,
    )
}

// Reads a file whose names have so many addresses each. Gives the table that was read last.
fn print_read<R: Clock + Print>(
    alloc: Global,
    watch: &mut Stopwatch<'_, R>,
    what: &str,
    addresses: u64,
) -> anyhow::Result<Table>
    requires { 0 < addresses }
{
    let mut table = Table {
        alloc,
        file: file_of(alloc, addresses)?,
        hosts: Hosts::default(alloc),
        asked_type: None,
        asked: Vec::new(alloc),
        next: 0,
    };
    watch.print_best(what, &mut table, 1, 1, LINES)?;
    Ok(table)
}

fn file_of(alloc: Global, addresses: u64) -> anyhow::Result<String>
    requires { 0 < addresses }
{
    let mut file = String::new(alloc);
    for number in 0..LINES {
        let name = String::of(alloc, number / addresses)?;
        write!(file, "{} {name}\n", address(number))?;
    }
    Ok(file)
}

// A file that is read into an empty table; or a type that is looked up in it, for as many names as the file has lines.
#[derive(Drop)]
struct Table {
    alloc: Global,
    file: String,
    hosts: Hosts,
    asked_type: Option<RecordType>,
    asked: Vec<Query>,
    next: u64,
}

impl Subject for Table {
    fn prepare(&mut self) -> Result<(), NetError> {
        match self.asked_type {
            Some(record_type) => self.ask(record_type),
            None => {
                self.hosts = Hosts::default(self.alloc);
                Ok(())
            }
        }
    }

    fn operate(&mut self, i: usize) -> Result<u64, NetError> {
        if self.asked_type.is_none() {
            return match self.hosts.read_hosts_bytes(self.file.as_bytes(), 0) {
                Ok(()) => Ok(self.file.len() as u64),
                Err(_) => Err(NetError::OutOfMemory),
            };
        }
        let Some(query) = self.asked.get(i) else {
            return Ok(0);
        };
        match self.hosts.lookup_static_host(query, 1)? {
            Some(found) => Ok(found.answers().len() as u64),
            None => Ok(0),
        }
    }
}

impl Table {
    // Asks the questions of the next batch.
    fn ask(&mut self, record_type: RecordType) -> Result<(), NetError> {
        self.asked.clear();
        for _ in 0..BATCH {
            let name = asked_name(self.alloc, record_type, place(self.next, LINES))?;
            self.asked.push(Query::query(name, record_type))?;
            self.next = self.next.wrapping_add(1);
        }
        Ok(())
    }
}

// The address of a host.
fn address(number: u64) -> Ipv4Addr
    requires { number < 2 ^ 32 }
{
    Ipv4Addr::from_bits(0x0a00_0000 | number as u32)
}

// The name to ask for a host's address, or for the name of its address.
fn asked_name(alloc: Global, record_type: RecordType, number: u64) -> Result<Name, NetError>
    requires { number < 2 ^ 32 }
{
    if record_type == RecordType::A {
        return Name::of(alloc, number);
    }
    let [a, b, c, d] = address(number).octets();
    let text = format!(in alloc; "{d}.{c}.{b}.{a}.in-addr.arpa.")?;
    Ok(Name::from_ascii(alloc, text.as_str())?)
}
