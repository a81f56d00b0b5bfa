//! What a line of a trace says.
ghost use Rattle.std.specs.Prelude.{◌≡◌, ◌⊎◌, Err, codes, if◌then◌else◌};
ghost use Rattle.std.specs.List.{list_all};
ghost use Rattle.hickory_proto_core.specs.Codes.{is_text};
ghost use Rattle.replay_script.specs.Faults.{out_of_memory};
ghost use Rattle.replay_script.specs.Fields.{is_blank};
ghost use Rattle.replay_script.specs.Words.{texts};
ghost use Rattle.trace_lines.specs.Lines.{IsLine, IsRecordLine, IsSaid, event_of, section_named};

use crate::moments::read_moment;
use crate::opening::{Opening, read_opening};
use hickory_proto_core::Record;
use replay_script::fields::is_blank;
use replay_script::record_line::read_record;
use replay_script::{LineFault, ScriptFault, Section, is_skipped, read_text, split};
use std::alloc::Global;
use trace_judge::Moment;

/// What a line says.
#[derive(Debug, Drop)]
pub enum TraceLine {
    /// Nothing: the event above it is whole.
    Blank,
    /// Nothing, and no event ends with it.
    Comment,
    /// An event begins.
    Begins(Moment, Opening),
    /// One more record in a section of the event above it.
    Record(Section, Record),
}

/// Reads a line. A fault is the first one from the left, with the field that it is about.
pub fn read_line(alloc: Global, line: &[u8]) -> Result<TraceLine, LineFault<'_>>
    ensures { IsLine line.now result ⊎ (result ≡ Err out_of_memory) }
{
    if is_skipped(line) {
        return Ok(skipped(line));
    }
    let text = read_text(line)?;
    let fields = split(alloc, text)?;
    read_fields(alloc, &fields)
}

// A line that says nothing.
fn skipped(line: &[u8]) -> TraceLine
    ensures { result ≡ (if list_all is_blank line.now then TraceLine.Blank else TraceLine.Comment) }
{
    if is_all_blank(line) {
        TraceLine::Blank
    } else {
        TraceLine::Comment
    }
}

fn is_all_blank(line: &[u8]) -> bool
    ensures { result ≡ list_all is_blank line.now }
{
    line.iter().all(|b| is_blank(*b))
}

fn read_fields<'a>(alloc: Global, fields: &[&'a str]) -> Result<TraceLine, LineFault<'a>>
    ensures { IsSaid (texts fields.now) result ⊎ (result ≡ Err out_of_memory) }
{
    let [word, fields @ ..] = fields else {
        return Ok(TraceLine::Blank);
    };
    if is_at(word) {
        return read_event(alloc, fields);
    }
    match section_named(word) {
        Some(section) => read_record_line(alloc, section, fields),
        None => Err(LineFault::wrong_field(ScriptFault::UnknownDirective, word)),
    }
}

fn is_at(word: &str) -> bool
    ensures { result ≡ is_text (codes "at") word.now }
{
    *word == *"at"
}

// The section of a word.
fn section_named(word: &str) -> Option<Section>
    ensures { result ≡ section_named word.now }
{
    match word {
        "answer" => Some(Section::Answer),
        "authority" => Some(Section::Authority),
        "additional" => Some(Section::Additional),
        _ => None,
    }
}

fn read_event<'a>(alloc: Global, fields: &[&'a str]) -> Result<TraceLine, LineFault<'a>>
    ensures { (result ≡ event_of (texts fields.now)) ⊎ (result ≡ Err out_of_memory) }
{
    let [moment, verb, fields @ ..] = fields else {
        return Err(LineFault::wrong_line(ScriptFault::FieldCount));
    };
    let moment = read_moment(moment)?;
    let opening = read_opening(alloc, verb, fields)?;
    Ok(TraceLine::Begins(moment, opening))
}

fn read_record_line<'a>(
    alloc: Global,
    section: Section,
    fields: &[&'a str],
) -> Result<TraceLine, LineFault<'a>>
    ensures { IsRecordLine (texts fields.now) result section ⊎ (result ≡ Err out_of_memory) }
{
    Ok(TraceLine::Record(section, read_record(alloc, fields)?))
}
