//! Which of the classes that hold are findings, and the lines that tell of them.
ghost use Rattle.std.specs.Prelude.{◌≡◌, ◌++◌, IfOk, OnOk, string_bytes};
ghost use Rattle.std.specs.List.{list_any};
ghost use Rattle.trace_lines.specs.Printing.{finding_text};
ghost use Rattle.trace_lines.specs.Reports.{event_text, is_finding, is_same_place, is_served_at, is_served_within, is_told_of, is_unasked, may_be_served, section_number};

use crate::printing::FindingText;
use crate::reader::Placed;
use std::alloc::{AllocError, Global};
use trace_judge::{Class, Finding, Place, Section};

/// Which of the classes that hold are findings.
#[derive(Clone, Copy, Debug)]
pub struct Strictness {
    /// Whether the trace begins with an empty cache, so that what was not received in it is a finding from its first
    /// line on.
    pub cold: bool,
    /// For how many seconds after it ran out a record may be served, where its question cannot be answered (RFC 8767).
    pub serve_stale: Option<u32>,
}

/// The lines that tell of an event in which these classes hold.
pub fn event_text(
    alloc: Global,
    strictness: Strictness,
    placed: &Placed,
    found: &[Finding],
) -> Result<String, AllocError>
    ensures { IfOk result (λ text. string_bytes text ≡ event_text strictness placed.now found.now) }
{
    let mut text = String::new(alloc);
    for finding in found {
        if is_told_of(strictness, found, finding) {
            push_finding(&mut text, placed, *finding)?;
        }
    }
    Ok(text)
}

fn push_finding(text: &mut String, placed: &Placed, finding: Finding) -> Result<(), AllocError>
    ensures { OnOk result (string_bytes text.new
        ≡ string_bytes text.old ++ finding_text placed.now finding) }
{
    let line = FindingText { placed, finding };
    write!(text, "{line}")
}

/// Whether one of the classes that hold is a finding.
pub fn is_any_finding(strictness: Strictness, found: &[Finding]) -> bool
    ensures { result ≡ list_any (is_finding strictness found.now) found.now }
{
    found
        .iter()
        .any(|finding| is_finding(strictness, found, finding))
}

// What was received and not asked is told of, and no finding.
fn is_told_of(strictness: Strictness, found: &[Finding], finding: &Finding) -> bool
    ensures { result ≡ is_told_of strictness found.now finding.now }
{
    is_unasked(finding.class) || is_finding(strictness, found, finding)
}

fn is_unasked(class: Class) -> bool
    ensures { result ≡ is_unasked class }
{
    matches!(class, Class::Unasked)
}

// What was not received in the first day is no finding, but where the trace begins with an empty cache. What the
// resolver answers for by itself is none, nor is what may be served stale for so long.
fn is_finding(strictness: Strictness, found: &[Finding], finding: &Finding) -> bool
    ensures { result ≡ is_finding strictness found.now finding.now }
{
    match finding.class {
        Class::Unseen => strictness.cold,
        Class::Unasked | Class::Synthesized => false,
        Class::Stale(_) | Class::ServedStale(_) | Class::Raised => {
            !may_be_served(strictness.serve_stale, found, finding)
        }
        Class::AliasOutlives | Class::NegativeOutlives(_) | Class::NeverReceived => true,
    }
}

// Whether what a finding is said of may be served stale, for so many seconds.
fn may_be_served(serve_stale: Option<u32>, found: &[Finding], finding: &Finding) -> bool
    ensures { result ≡ may_be_served serve_stale found.now finding.now }
{
    match serve_stale {
        Some(seconds) => is_any_served(1000 * u64::from(seconds), found, finding),
        None => false,
    }
}

fn is_any_served(longest: u64, found: &[Finding], finding: &Finding) -> bool
    ensures { result ≡ list_any (is_served_at longest finding.now) found.now }
{
    found
        .iter()
        .any(|other| is_served_at(longest, finding, other))
}

fn is_served_at(longest: u64, finding: &Finding, other: &Finding) -> bool
    ensures { result ≡ is_served_at longest finding.now other.now }
{
    is_same_place(other.place, finding.place) && is_served_within(longest, other.class)
}

fn is_same_place(a: Place, b: Place) -> bool
    ensures { result ≡ is_same_place a b }
{
    match (a, b) {
        (Place::Record(s, i), Place::Record(t, j)) => {
            section_number(s) == section_number(t) && i == j
        }
        (Place::Response, Place::Response) => true,
        _ => false,
    }
}

fn section_number(section: Section) -> u8
    ensures { result ≡ section_number section }
{
    match section {
        Section::Answer => 0,
        Section::Authority => 1,
        Section::Additional => 2,
    }
}

// Whether it is served stale, so many milliseconds after it ran out at the most.
fn is_served_within(longest: u64, class: Class) -> bool
    ensures { result ≡ is_served_within longest class }
{
    match class {
        Class::ServedStale(by) => by <= longest,
        _ => false,
    }
}
