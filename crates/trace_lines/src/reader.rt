//! A trace, line by line, as events.
ghost use Rattle.std.specs.Prelude.{◌≡◌, ◌⊎◌, ◌+◌, ◌-◌, ◌^◌, Err, Ok, IfOk, MatchResult, min};
ghost use Rattle.replay_script.specs.Faults.{out_of_memory};
ghost use Rattle.trace_lines.specs.Reading.{IsTaken, begun, opened, put_to, unread, with_event, with_found, with_line, with_record};

use crate::line::{TraceLine, read_line};
use crate::opening::Opening;
use hickory_proto_core::Record;
use replay_script::{LineFault, ReplyHead, ScriptFault, Section};
use std::alloc::{AllocError, Global};
use std::marker::Model;
use trace_judge::{Event, Moment, Reply, Said};

// By how many milliseconds a line may be before the one above it: what is within them counts as at once.
const AT_ONCE: u64 = 50;

/// Reads a trace line by line. An event is whole where the next one begins, or a blank line stands behind it.
#[derive(Drop)]
pub struct TraceReader {
    alloc: Global,
    // How many lines were read.
    lines: u64,
    open_event: Option<Placed>,
    // The latest moment so far, in milliseconds.
    latest: u64,
}

/// An event, and the number of the line that it begins with, counted from 1.
#[derive(Debug, Drop)]
pub struct Placed {
    pub line: u64,
    pub event: Event,
}

impl Model for TraceReader {
    ghost use Rattle.trace_lines.specs.Reading.{ReaderValue};

    ghost Value = { ReaderValue };

    ghost view = { λ r. record { lines = r.lines; open_event = r.open_event; latest = r.latest } };
}

impl TraceReader {
    ghost use Rattle.std.specs.Prelude.{None};

    /// A reader that has read nothing.
    pub fn new(alloc: Global) -> TraceReader
        ensures { result ≡ unread }
    {
        TraceReader {
            alloc,
            lines: 0,
            open_event: None,
            latest: 0,
        }
    }

    /// How many lines were read, the last one with them.
    pub fn lines(&self) -> u64
        ensures { result ≡ self.now.lines }
    {
        self.lines
    }

    /// Reads a line, and gives the event that is whole with it. After a fault the reader is of no further use.
    pub fn read<'a>(&mut self, line: &'a [u8]) -> Result<Option<Placed>, LineFault<'a>>
        ensures { IsTaken self.old line.now result self.new }
    {
        self.lines = self.lines.saturating_add(1);
        let read = read_line(self.alloc, line)?;
        self.take(read)
    }

    /// The event that the last line left open.
    pub fn finish(&mut self) -> Option<Placed>
        ensures whole { result ≡ self.old.open_event }
        ensures left { self.new ≡ record self.old { open_event = None } }
    {
        self.open_event.take()
    }

    // Takes what a line says.
    fn take<'a>(&mut self, read: TraceLine) -> Result<Option<Placed>, LineFault<'a>>
        ensures taken { MatchResult result (λ whole. with_line self.old read ≡ Ok (whole, self.new))
            (λ fault. (with_line self.old read ≡ Err fault) ⊎ (fault ≡ out_of_memory)) }
        ensures lines { self.new.lines ≡ self.old.lines }
    {
        match read {
            TraceLine::Comment => Ok(None),
            TraceLine::Blank => Ok(self.open_event.take()),
            TraceLine::Record(section, found) => {
                self.add(section, found)?;
                Ok(None)
            }
            TraceLine::Begins(moment, opening) => self.begin(moment, opening),
        }
    }

    fn begin<'a>(
        &mut self,
        moment: Moment,
        opening: Opening,
    ) -> Result<Option<Placed>, LineFault<'a>>
        ensures taken { MatchResult result
            (λ whole. with_event self.old moment opening ≡ Ok (whole, self.new))
            (λ fault. with_event self.old moment opening ≡ Err fault) }
        ensures lines { self.new.lines ≡ self.old.lines }
    {
        let at = moment.in_milliseconds();
        if at + AT_ONCE < self.latest {
            return Err(LineFault::wrong_line(ScriptFault::MomentBack));
        }
        self.latest = self.latest.max(at);
        let said = said_of(self.alloc, opening);
        let begun = Placed {
            line: self.lines,
            event: Event { moment, said },
        };
        let whole = self.open_event.take();
        self.open_event = Some(begun);
        Ok(whole)
    }

    fn add<'a>(&mut self, section: Section, found: Record) -> Result<(), LineFault<'a>>
        ensures taken { MatchResult result
            (λ _. with_found self.old section found self.old.open_event ≡ Ok (None, self.new))
            (λ fault. (with_found self.old section found self.old.open_event ≡ Err fault)
            ⊎ (fault ≡ out_of_memory)) }
        ensures lines { self.new.lines ≡ self.old.lines }
    {
        let Some(placed) = self.open_event.take() else {
            drop(found);
            return Err(LineFault::wrong_line(ScriptFault::NoReply));
        };
        let Placed { line, event } = placed;
        let Event { moment, said } = event;
        let said = with_put(said, section, found)?;
        let event = Event { moment, said };
        self.open_event = Some(Placed { line, event });
        Ok(())
    }
}

// What is said with one more record.
fn with_put<'a>(said: Said, section: Section, found: Record) -> Result<Said, LineFault<'a>>
    ensures { (result ≡ put_to section found said) ⊎ (result ≡ Err out_of_memory) }
{
    match said {
        Said::Asked(_) => {
            drop(found);
            Err(LineFault::wrong_line(ScriptFault::NoReply))
        }
        Said::Received(reply) => Ok(Said::Received(with_record(reply, section, found)?)),
        Said::Told(reply) => Ok(Said::Told(with_record(reply, section, found)?)),
    }
}

fn with_record(reply: Reply, section: Section, found: Record) -> Result<Reply, AllocError>
    ensures { IfOk result (λ more. more ≡ with_record section found reply) }
{
    let mut reply = reply;
    match section {
        Section::Answer => reply.answers.push(found)?,
        Section::Authority => reply.authorities.push(found)?,
        Section::Additional => reply.additionals.push(found)?,
    }
    Ok(reply)
}

fn said_of(alloc: Global, opening: Opening) -> Said
    ensures { result ≡ begun opening }
{
    match opening {
        Opening::Asked(query) => Said::Asked(query),
        Opening::Received(head) => Said::Received(reply_of(alloc, head)),
        Opening::Told(head) => Said::Told(reply_of(alloc, head)),
    }
}

fn reply_of(alloc: Global, head: ReplyHead) -> Reply
    ensures { result ≡ opened head }
{
    Reply {
        query: head.query,
        code: head.code,
        truncated: head.truncated,
        answers: Vec::new(alloc),
        authorities: Vec::new(alloc),
        additionals: Vec::new(alloc),
    }
}
