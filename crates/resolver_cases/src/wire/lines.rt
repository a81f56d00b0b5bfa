//! The lines of a case: a title behind `#`, octets as hex digits, and the limit for which they are written again.
use crate::shown::say;
use crate::wire::shown::{show_message, show_written};
use hickory_proto_wire::WireMessage;
use std::alloc::Global;

/// Prints a title, keeps octets, or reads and writes those that were kept.
pub fn take(
    rt: &impl Print,
    alloc: Global,
    octets: &mut Vec<u8>,
    line: &str,
) -> anyhow::Result<()> {
    if line.starts_with('#') {
        say(rt, &line);
        return Ok(());
    }
    match line.strip_prefix("limit ") {
        Some(limit) => {
            show(rt, alloc, octets, limit.parse().unwrap_or(0));
            octets.clear();
            Ok(())
        }
        None => keep(alloc, octets, line),
    }
}

fn keep(alloc: Global, octets: &mut Vec<u8>, line: &str) -> anyhow::Result<()> {
    for word in line.split_whitespace() {
        let bytes = hex::decode(alloc, word)?;
        octets.extend_from_slice(&bytes)?;
    }
    Ok(())
}

fn show(rt: &impl Print, alloc: Global, octets: &[u8], limit: usize) {
    let read = WireMessage::from_wire(alloc, octets);
    match &read {
        Ok(message) => {
            show_message(rt, message);
            show_written(rt, alloc, message.to_wire(alloc, limit), octets);
        }
        Err(error) => {
            let _ = println!(rt; "not read: {error}");
        }
    }
    // `drop` costs the prover less than the end of the block.
    drop(read);
}
