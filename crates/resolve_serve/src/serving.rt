//! The loop over the lines of the input.
use crate::error::{ServeError, is_memory};
use conversation::{Conversation, Heard, Hosts, HostsError, mark_of};
use std::alloc::{AllocError, Global};
use std::fs;
use std::io::{self, BufRead, Write};
use std::rt::Files;

/// The bytes of a file of hosts, which can be read as a table; none where there is no file.
pub fn table_bytes<R: AllocGlobal + Files>(
    rt: &R,
    path: Option<String>,
) -> Result<Vec<u8>, ServeError> {
    match path {
        Some(path) => file_bytes(rt, path),
        None => Ok(Vec::new(rt.alloc())),
    }
}

fn file_bytes<R: AllocGlobal + Files>(rt: &R, path: String) -> Result<Vec<u8>, ServeError> {
    match fs::read(rt, path.as_str()) {
        Ok(bytes) => checked(rt.alloc(), bytes),
        Err(error) => Err(unreadable(error, path)),
    }
}

fn unreadable(error: io::Error, path: String) -> ServeError {
    if is_memory(&error) {
        ServeError::Memory
    } else {
        ServeError::Unreadable(path)
    }
}

fn checked(alloc: Global, bytes: Vec<u8>) -> Result<Vec<u8>, ServeError> {
    let mut table: Hosts = Hosts::default(alloc);
    let read = table.read_hosts_bytes(&bytes, 0);
    drop(table);
    match read {
        Ok(()) => Ok(bytes),
        Err(HostsError::OutOfMemory) => Err(ServeError::Memory),
        Err(_) => Err(ServeError::HostsNotUtf8),
    }
}

/// Answers each line, up to the last, and writes the journal.
pub fn serve<R: BufRead, W: Write, J: Write>(
    alloc: Global,
    hosts: Vec<u8>,
    reader: &mut R,
    writer: &mut W,
    journal: &mut J,
) -> Result<(), ServeError> {
    let mut conversation = Conversation::new(alloc, hosts);
    let mut line = Vec::new(alloc);
    let served = converse(&mut conversation, &mut line, reader, writer, journal);
    drop(line);
    drop(conversation);
    served
}

fn converse<R: BufRead, W: Write, J: Write>(
    conversation: &mut Conversation,
    line: &mut Vec<u8>,
    reader: &mut R,
    writer: &mut W,
    journal: &mut J,
) -> Result<(), ServeError> {
    for _ in 0..u64::MAX {
        let is_last = match read_line(reader, line)? {
            0 => true,
            _ => answer(conversation, without_end(line), writer, journal)?,
        };
        if is_last {
            break;
        }
    }
    Ok(())
}

// Reads a line in place of the one before, and gives its size.
fn read_line<R: BufRead>(reader: &mut R, line: &mut Vec<u8>) -> Result<usize, ServeError> {
    line.clear();
    match reader.read_until(b'\n', line) {
        Ok(size) => Ok(size),
        Err(error) if is_memory(&error) => Err(ServeError::Memory),
        Err(_) => Err(ServeError::Input),
    }
}

// The line without its LF and a CR before that.
fn without_end(line: &[u8]) -> &[u8] {
    match line {
        [front @ .., b'\r', b'\n'] => front,
        [front @ .., b'\n'] => front,
        _ => line,
    }
}

// Answers a line: whether it was the last.
fn answer<W: Write, J: Write>(
    conversation: &mut Conversation,
    line: &[u8],
    writer: &mut W,
    journal: &mut J,
) -> Result<bool, ServeError> {
    match conversation.hear(line) {
        Ok(heard) => {
            let written = write_heard(&heard, writer, journal);
            drop(heard);
            written
        }
        Err(AllocError) => {
            write_whole(writer, mark_of(line).as_bytes())?;
            write_whole(writer, b" memory\n")?;
            Ok(false)
        }
    }
}

fn write_heard<W: Write, J: Write>(
    heard: &Heard,
    writer: &mut W,
    journal: &mut J,
) -> Result<bool, ServeError> {
    write_whole(journal, heard.journal.as_bytes())?;
    write_whole(writer, heard.explained.as_bytes())?;
    write_whole(writer, heard.text.as_bytes())?;
    Ok(heard.is_last)
}

// Writes all of the bytes, and waits for none of them.
fn write_whole<W: Write>(writer: &mut W, bytes: &[u8]) -> Result<(), ServeError> {
    if bytes.is_empty() {
        return Ok(());
    }
    if writer.write_all(bytes).is_err() || writer.flush().is_err() {
        return Err(ServeError::Output);
    }
    Ok(())
}
