//! What was heard of a trace so far.
ghost use Rattle.std.specs.Prelude.{◌≡◌, ◌∷◌, [], List, IfOk, OnOk};
ghost use Rattle.std.specs.Io.KnownBytes.{Appends};
ghost use Rattle.trace_judge.specs.Options.{OptionsValue};
ghost use Rattle.trace_lines.specs.Printing.{counts_text};
ghost use Rattle.trace_lines.specs.Reports.{HasHeard, event_text, found_at};
ghost use Rattle.trace_lines.specs.declared.reader.Placed.{Placed};
ghost use Rattle.trace_lines.specs.declared.verdict.Strictness.{Strictness};

use crate::error::TraceError;
use crate::reader::Placed;
use crate::table::Counts;
use crate::verdict::{Strictness, event_text, is_any_finding};
use std::alloc::Global;
use std::io::Write;
use std::marker::Model;
use trace_judge::{Judge, Options};

/// What was heard of a trace so far, and how often each class was found.
#[derive(Drop)]
pub struct Session {
    alloc: Global,
    strictness: Strictness,
    judge: Judge,
    counts: Counts,
    found: bool,
}

impl Model for Session {
    ghost use Rattle.trace_lines.specs.Reports.{SessionValue};

    ghost Value = { SessionValue };

    ghost view = { λ s. record {
      strictness = s.strictness;
      judge = s.judge;
      counts = s.counts;
      found = s.found;
    } };
}

impl Session {
    /// Nothing was heard yet.
    pub fn new(alloc: Global, options: Options, strictness: Strictness) -> Session
        ensures { HasHeard options strictness [] result }
    {
        Session {
            alloc,
            strictness,
            judge: Judge::new(alloc, options),
            counts: Counts::new(),
            found: false,
        }
    }

    /// Judges an event, and writes at once the lines that tell of it. After an error the session is of no further use.
    pub fn hear<W: Write>(&mut self, placed: &Placed, writer: &mut W) -> Result<(), TraceError>
        ensures { (options : OptionsValue) (strict : Strictness) (past : List Placed)
            → HasHeard options strict past self.old
            → OnOk result (HasHeard options strict (placed.now ∷ past) self.new
            × Appends (W.contents writer.old) (W.contents writer.new)
            (event_text strict placed.now (found_at options past placed.now))) }
    {
        let found = self.judge.hear(&placed.event)?;
        self.counts.count(&placed.event, &found);
        self.found = self.found || is_any_finding(self.strictness, &found);
        let text = event_text(self.alloc, self.strictness, placed, &found)?;
        write_text(writer, text.as_bytes())
    }

    /// Writes the table of counts: whether anything was found.
    pub fn finish<W: Write>(&self, writer: &mut W) -> Result<bool, TraceError>
        ensures { IfOk result (λ found. (found ≡ self.now.found)
            × Appends (W.contents writer.old) (W.contents writer.new) (counts_text self.now.counts)) }
    {
        let counts = self.counts;
        if write!(writer, "{counts}").is_err() || writer.flush().is_err() {
            return Err(TraceError::Output);
        }
        Ok(self.found)
    }
}

// Writes a text, and sends it on at once.
fn write_text<W: Write>(writer: &mut W, text: &[u8]) -> Result<(), TraceError>
    ensures { OnOk result (Appends (W.contents writer.old) (W.contents writer.new) text.now) }
{
    if writer.write_all(text).is_err() || writer.flush().is_err() {
        return Err(TraceError::Output);
    }
    Ok(())
}
