//! A finding as a line.
ghost use Rattle.std.specs.Prelude.{◌≡◌, option_copied};
ghost use Rattle.trace_lines.specs.Printing.{record_at};

use crate::reader::Placed;
use hickory_proto_core::Record;
use std::fmt;
use trace_judge::{Class, Finding, Moment, Place, Reply, Said, Section};

/// A finding: `line` NUMBER `at` MOMENT, the class, and what it is said of.
#[derive(Clone, Copy)]
pub struct FindingText<'a> {
    pub placed: &'a Placed,
    pub finding: Finding,
}

impl fmt::Display for FindingText<'_> {
    ghost use Rattle.std.specs.Prelude.{Some};
    ghost use Rattle.trace_lines.specs.Printing.{finding_text};

    ghost output = { λ x. Some (finding_text x.placed.now x.finding) };

    fn fmt<W: fmt::Write>(&self, f: &mut fmt::Formatter<W>) -> fmt::Result {
        let line = self.placed.line;
        let moment = MomentText(self.placed.event.moment);
        let class = ClassText(self.finding.class);
        let subject = SubjectText {
            said: &self.placed.event.said,
            place: self.finding.place,
        };
        write!(f, "line {line} at {moment} {class}: {subject}\n")
    }
}

// What a finding is said of.
#[derive(Clone, Copy)]
struct SubjectText<'a> {
    said: &'a Said,
    place: Place,
}

impl fmt::Display for SubjectText<'_> {
    ghost use Rattle.std.specs.Prelude.{Some};
    ghost use Rattle.trace_lines.specs.Printing.{subject_text};

    ghost output = { λ x. Some (subject_text x.said.now x.place) };

    fn fmt<W: fmt::Write>(&self, f: &mut fmt::Formatter<W>) -> fmt::Result {
        match self.said {
            Said::Asked(query) => write!(f, "{query}"),
            Said::Received(reply) => {
                let text = PlaceText {
                    reply,
                    place: self.place,
                };
                write!(f, "{text}")
            }
            Said::Told(reply) => {
                let text = PlaceText {
                    reply,
                    place: self.place,
                };
                write!(f, "{text}")
            }
        }
    }
}

// The record at a place of a response, or the response.
#[derive(Clone, Copy)]
struct PlaceText<'a> {
    reply: &'a Reply,
    place: Place,
}

impl fmt::Display for PlaceText<'_> {
    ghost use Rattle.std.specs.Prelude.{Some};
    ghost use Rattle.trace_lines.specs.Printing.{place_text, record_at};

    ghost output = { λ x. Some (place_text x.reply.now (record_at x.reply.now x.place)) };

    fn fmt<W: fmt::Write>(&self, f: &mut fmt::Formatter<W>) -> fmt::Result {
        match record_at(self.reply, self.place) {
            Some(found) => write!(f, "{found}"),
            None => {
                let reply = self.reply;
                let code = reply.code;
                let query = &reply.query;
                write!(f, "{code} {query}")
            }
        }
    }
}

// The record at a place.
fn record_at(reply: &Reply, place: Place) -> Option<&Record>
    ensures { option_copied result ≡ record_at reply.now place }
{
    match place {
        Place::Record(Section::Answer, i) => reply.answers.get(i),
        Place::Record(Section::Authority, i) => reply.authorities.get(i),
        Place::Record(Section::Additional, i) => reply.additionals.get(i),
        Place::Response => None,
    }
}

// A moment, with three digits behind a dot.
#[derive(Clone, Copy)]
struct MomentText(Moment);

impl fmt::Display for MomentText {
    ghost use Rattle.std.specs.Prelude.{Some};
    ghost use Rattle.trace_lines.specs.Printing.{moment_text};

    ghost output = { λ x. Some (moment_text x.0) };

    fn fmt<W: fmt::Write>(&self, f: &mut fmt::Formatter<W>) -> fmt::Result {
        let seconds = self.0.seconds;
        let milliseconds = self.0.milliseconds;
        write!(f, "{seconds}.{milliseconds:03}")
    }
}

// A class by its name, and by how many seconds.
#[derive(Clone, Copy)]
struct ClassText(Class);

impl fmt::Display for ClassText {
    ghost use Rattle.std.specs.Prelude.{Some};
    ghost use Rattle.trace_lines.specs.Printing.{class_text};

    ghost output = { λ x. Some (class_text x.0) };

    fn fmt<W: fmt::Write>(&self, f: &mut fmt::Formatter<W>) -> fmt::Result {
        match self.0 {
            Class::Stale(by) => {
                let by = SecondsText(by);
                write!(f, "stale by {by}")
            }
            Class::ServedStale(by) => {
                let by = SecondsText(by);
                write!(f, "served stale for {by}")
            }
            Class::Raised => f.write_str("raised"),
            Class::AliasOutlives => f.write_str("alias outlives"),
            Class::NegativeOutlives(by) => {
                let by = SecondsText(by);
                write!(f, "negative outlives by {by}")
            }
            Class::Synthesized => f.write_str("synthesized"),
            Class::NeverReceived => f.write_str("never received"),
            Class::Unseen => f.write_str("unseen"),
            Class::Unasked => f.write_str("not asked"),
        }
    }
}

// Milliseconds, as seconds.
#[derive(Clone, Copy)]
struct SecondsText(u64);

impl fmt::Display for SecondsText {
    ghost use Rattle.std.specs.Prelude.{Some, ◌/◌, ◌%◌};
    ghost use Rattle.trace_lines.specs.Printing.{seconds_text};

    ghost output = { λ x. Some (seconds_text (x.0 / 1000) (x.0 % 1000)) };

    fn fmt<W: fmt::Write>(&self, f: &mut fmt::Formatter<W>) -> fmt::Result {
        let seconds = self.0 / 1000;
        let milliseconds = self.0 % 1000;
        write!(f, "{seconds}.{milliseconds:03}")
    }
}
