//! Tables of hosts out of readers that give a file in pieces, and fail.
use crate::sample::query;
use crate::shown::show;
use crate::watched_calls;
use hickory_proto_core::NetError;
use hickory_resolver::{Hosts, Watched};
use std::alloc::Global;
use std::io::{self, Read};

// Two lines, of which the second has no name.
const LATE: &[u8] = b"10.0.0.9 late\n10.0.0.8";

/// What tables answer then, and what is told of single calls of a reader and of a writer.
pub fn show_all(rt: &impl Print, alloc: Global) -> Result<(), NetError> {
    show_watched(rt, alloc, false)?;
    show_watched(rt, alloc, true)?;
    show_unwatched(rt, alloc, "unwatched", LATE, true)?;
    show_unwatched(rt, alloc, "unwatched", LATE, false)?;
    show_long(rt, alloc)?;
    watched_calls::show_all(rt);
    Ok(())
}

// A reader that gives its bytes one by one. Behind them it ends, or every further read is interrupted.
#[derive(Drop)]
struct Pieces<'a> {
    bytes: &'a [u8],
    place: usize,
    is_interrupted: bool,
}

impl<'a> Read for Pieces<'a> {
    fn read(&mut self, buf: &mut [u8]) -> io::Result<usize> {
        match (self.bytes.get(self.place), buf.first_mut()) {
            (Some(byte), Some(room)) => {
                *room = *byte;
                self.place = self.place.saturating_add(1);
                Ok(1)
            }
            _ if self.is_interrupted => Err(io::Error::from(io::ErrorKind::Interrupted)),
            _ => Ok(0),
        }
    }
}

fn reader_of(bytes: &[u8], is_interrupted: bool) -> Pieces<'_> {
    Pieces {
        bytes,
        place: 0,
        is_interrupted,
    }
}

// A file that is read to its end or up to a read that is interrupted, into a table that has a name.
fn show_watched(rt: &impl Print, alloc: Global, is_interrupted: bool) -> Result<(), NetError> {
    let mut hosts = Hosts::default(alloc);
    drop(hosts.read_hosts_bytes(b"10.0.0.1 early", 7));
    let mut source = Watched::new(reader_of(LATE, is_interrupted));
    let _ = rt.print("in pieces: ");
    show(rt, hosts.read_hosts_watched(&mut source, 7));
    let failed = source.failed();
    drop(source);
    let _ = println!(rt; "failed {failed}");
    let shown = show_names(rt, alloc, &hosts, &["early", "late"]);
    drop(hosts);
    shown
}

// A file out of a reader that nobody watches.
fn show_unwatched(
    rt: &impl Print,
    alloc: Global,
    label: &str,
    file: &[u8],
    is_interrupted: bool,
) -> Result<(), NetError> {
    let mut hosts = Hosts::default(alloc);
    let _ = print!(rt; "{label}: ");
    show(
        rt,
        hosts.read_hosts_conf(reader_of(file, is_interrupted), 7),
    );
    let shown = show_names(rt, alloc, &hosts, &["late"]);
    drop(hosts);
    shown
}

// What a table has for names.
fn show_names(
    rt: &impl Print,
    alloc: Global,
    hosts: &Hosts,
    labels: &[&str],
) -> Result<(), NetError> {
    for label in labels {
        let query = query(alloc, label)?;
        let _ = print!(rt; "{label}: ");
        show(rt, hosts.lookup_static_host(&query, 1007));
    }
    Ok(())
}

// A file that needs thousands of reads.
fn show_long(rt: &impl Print, alloc: Global) -> Result<(), NetError> {
    let comment = "#".repeat(alloc, 5_000)?;
    let file = format!(in alloc; "{comment}\n10.0.0.9 late\n")?;
    show_unwatched(rt, alloc, "in thousands of pieces", file.as_bytes(), false)
}
