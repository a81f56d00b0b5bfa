//! The report on a trace: the loop over its lines.
ghost use Rattle.std.specs.Prelude.{◌≡◌, ◌++◌, [], ℕ, List, IfOk, IfSome, OnOk, Option, Ok, Some, length, nat_lt, if◌then◌else◌};
ghost use Rattle.std.specs.Io.BufRead.{drop_through, ends_with_byte, strip_last, take_through};
ghost use Rattle.std.specs.Io.KnownBytes.{Appends};
ghost use Rattle.trace_judge.specs.Options.{OptionsValue};
ghost use Rattle.trace_lines.specs.Printing.{counts_text};
ghost use Rattle.trace_lines.specs.Reading.{IsTaken};
ghost use Rattle.trace_lines.specs.Reports.{HasHeard, counts_of, has_found, told_text};
ghost use Rattle.trace_lines.specs.Whole.{IsSplit, IsTrace, whole_text, with_whole};
ghost use Rattle.trace_lines.specs.declared.reader.Placed.{Placed};
ghost use Rattle.trace_lines.specs.declared.verdict.Strictness.{Strictness};

use crate::error::{TraceError, memory_or};
use crate::reader::{Placed, TraceReader};
use crate::session::Session;
use crate::settings::Settings;
use replay_script::ScriptFault;
use std::alloc::Global;
use std::io::{BufRead, Write};

/// Judges the lines, prints each finding at once, and in the end a table of counts: whether anything was found.
pub fn report<R: BufRead, W: Write>(
    alloc: Global,
    settings: Settings,
    reader: &mut R,
    writer: &mut W,
) -> Result<bool, TraceError>
    ensures { IfOk result (λ found. (lines : List (List ℕ)) × (events : List Placed) × IsTrace lines events
        × IfSome (R.remaining reader.old) (λ text. IsSplit text lines [])
        × (found ≡ has_found settings.options settings.strictness events)
        × Appends (W.contents writer.old) (W.contents writer.new)
        (told_text settings.options settings.strictness events ++ counts_text (counts_of settings.options events))) }
{
    let Settings {
        options,
        strictness,
        ..
    } = settings;
    let mut session = Session::new(alloc, options, strictness);
    match hear_lines(alloc, &mut session, reader, writer) {
        Ok(()) => {
            let found = session.finish(writer);
            drop(session);
            found
        }
        Err(error) => {
            drop(session);
            Err(error)
        }
    }
}

// Judges all lines, of which none was heard before.
fn hear_lines<R: BufRead, W: Write>(
    alloc: Global,
    session: &mut Session,
    reader: &mut R,
    writer: &mut W,
) -> Result<(), TraceError>
    ensures { (options : OptionsValue) (strict : Strictness) → HasHeard options strict [] session.old
        → OnOk result ((lines : List (List ℕ)) × (events : List Placed) × IsTrace lines events
        × IfSome (R.remaining reader.old) (λ text. IsSplit text lines [])
        × HasHeard options strict events session.new
        × Appends (W.contents writer.old) (W.contents writer.new) (told_text options strict events)) }
{
    let mut lines = TraceReader::new(alloc);
    let mut line = Vec::new(alloc);
    for _ in 0..u64::MAX {
        if !next_line(reader, &mut line)? {
            return hear_whole(session, lines.finish(), writer);
        }
        hear_line(&mut lines, session, without_end(&line), writer)?;
    }
    Err(TraceError::Input)
}

// Reads the next line, with its end, if there is one.
fn next_line<R: BufRead>(reader: &mut R, line: &mut Vec<u8>) -> Result<bool, TraceError>
    ensures { IfOk result (λ is_there. IfSome (R.remaining reader.old) (λ text.
        (is_there ≡ nat_lt 0 (length text)) × (line.new.items ≡ take_through 10 text)
        × (R.remaining reader.new ≡ Some (drop_through 10 text)))) }
{
    line.clear();
    match reader.read_until(b'\n', line) {
        Ok(count) => Ok(0 < count),
        Err(error) => Err(memory_or(error, TraceError::Input)),
    }
}

// Reads a line, and judges the event that is whole with it.
fn hear_line<W: Write>(
    lines: &mut TraceReader,
    session: &mut Session,
    line: &[u8],
    writer: &mut W,
) -> Result<(), TraceError>
    ensures { (options : OptionsValue) (strict : Strictness) (past : List Placed)
        → HasHeard options strict past session.old
        → OnOk result ((whole : Option Placed) × IsTaken lines.old line.now (Ok whole) lines.new
        × HasHeard options strict (with_whole whole past) session.new
        × Appends (W.contents writer.old) (W.contents writer.new) (whole_text options strict past whole)) }
{
    let whole = read_line(lines, line)?;
    hear_whole(session, whole, writer)
}

// The event that is whole with a line.
fn read_line(lines: &mut TraceReader, line: &[u8]) -> Result<Option<Placed>, TraceError>
    ensures { IfOk result (λ whole. IsTaken lines.old line.now (Ok whole) lines.new) }
{
    let fault = match lines.read(line) {
        Ok(whole) => return Ok(whole),
        Err(error) => error.fault,
    };
    match fault {
        ScriptFault::OutOfMemory => Err(TraceError::Memory),
        fault => Err(TraceError::Line(lines.lines(), fault)),
    }
}

// The line without its LF and a CR before that.
fn without_end(line: &[u8]) -> &[u8]
    ensures { result.now ≡ (if ends_with_byte 10 line.now then strip_last 13 (strip_last 10 line.now)
        else strip_last 10 line.now) }
{
    match line {
        [front @ .., b'\n'] => without_return(front),
        _ => line,
    }
}

fn without_return(line: &[u8]) -> &[u8]
    ensures { result.now ≡ strip_last 13 line.now }
{
    match line {
        [front @ .., b'\r'] => front,
        _ => line,
    }
}

// Judges an event, if one is whole.
fn hear_whole<W: Write>(
    session: &mut Session,
    whole: Option<Placed>,
    writer: &mut W,
) -> Result<(), TraceError>
    ensures { (options : OptionsValue) (strict : Strictness) (past : List Placed)
        → HasHeard options strict past session.old
        → OnOk result (HasHeard options strict (with_whole whole past) session.new
        × Appends (W.contents writer.old) (W.contents writer.new) (whole_text options strict past whole)) }
{
    match whole {
        Some(placed) => session.hear(&placed, writer),
        None => Ok(()),
    }
}
