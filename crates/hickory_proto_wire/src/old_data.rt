//! Record data that are not parsed, with each name in those of old types whole (RFC 3597, section 4).
ghost use Rattle.std.specs.Prelude.{◌≡◌};
ghost use Rattle.hickory_proto_wire.specs.Names.{labels_at};
ghost use Rattle.hickory_proto_wire.specs.Octets.{Gives, with_front, octets_at};
ghost use Rattle.hickory_proto_wire.specs.OldData.{parts_of, whole_name_at, uncompressed_start, uncompressed_name_at, string_octets_at, part_at, parts_at, end_of, is_spelled_out};

use crate::name_writer::put_name;
use crate::reader::{octet_at, octets_at};
use crate::wire_error::WireError;
use crate::wire_name::{Walk, own_name_at};
use std::alloc::Global;

// A part of data.
#[derive(Clone, Copy, Debug)]
pub(crate) enum Part {
    // So many octets.
    Octets(usize),
    // A string behind its length.
    String,
    Name,
    // All octets up to the end.
    Rest,
}

// The parts of the data of a type.
pub(crate) fn parts_of(code: u16) -> &'static [Part]
    ensures { result.now ≡ parts_of code }
{
    match code {
        3 | 4 | 7 | 8 | 9 => &[Part::Name],
        14 | 17 => &[Part::Name, Part::Name],
        18 | 21 => &[Part::Octets(2), Part::Name],
        26 => &[Part::Octets(2), Part::Name, Part::Name],
        24 => &[Part::Octets(18), Part::Name, Part::Rest],
        30 => &[Part::Name, Part::Rest],
        35 => &[
            Part::Octets(4),
            Part::String,
            Part::String,
            Part::String,
            Part::Name,
        ],
        _ => &[Part::Rest],
    }
}

// Each of these adds what it reads, and answers the position behind it.

fn add_octets(out: &mut Vec<u8>, count: usize, bytes: &[u8], at: usize) -> Result<usize, WireError>
    ensures { Gives (λ end. (out.new.items, end)) result (with_front out.old.items (octets_at count bytes.now at)) }
{
    let (octets, end) = octets_at(count, bytes, at)?;
    out.extend_from_slice(octets)?;
    Ok(end)
}

#[tactic(auto, unfolding(crate::specs::OldData::string_octets_at))]
fn add_string(out: &mut Vec<u8>, bytes: &[u8], at: usize) -> Result<usize, WireError>
    ensures { Gives (λ end. (out.new.items, end)) result (with_front out.old.items (string_octets_at bytes.now at)) }
{
    let (len, _) = octet_at(bytes, at)?;
    add_octets(out, usize::from(len) + 1, bytes, at)
}

#[tactic(auto, using(crate::proofs::Places::whole_name), unfolding(crate::specs::OldData::whole_name_at))]
fn add_name(alloc: Global, out: &mut Vec<u8>, bytes: &[u8], at: usize) -> Result<usize, WireError>
    ensures { Gives (λ end. (out.new.items, end)) result (with_front out.old.items (whole_name_at bytes.now at)) }
{
    let (name, end) = own_name_at(alloc, bytes, at)?;
    put_name(&[], out, &name)?;
    Ok(end)
}

#[tactic(auto, unfolding(crate::specs::OldData::part_at))]
fn add_part(
    alloc: Global,
    out: &mut Vec<u8>,
    part: Part,
    bytes: &[u8],
    at: usize,
) -> Result<usize, WireError>
    ensures { Gives (λ end. (out.new.items, end)) result
        (with_front out.old.items (part_at whole_name_at part bytes.now at)) }
{
    match part {
        Part::Octets(count) => add_octets(out, count, bytes, at),
        Part::String => add_string(out, bytes, at),
        Part::Name => add_name(alloc, out, bytes, at),
        Part::Rest => add_octets(out, bytes.len().saturating_sub(at), bytes, at),
    }
}

// The parts there, one behind the other, and the position behind them.
pub(crate) fn parts_at(
    alloc: Global,
    parts: &[Part],
    bytes: &[u8],
    at: usize,
) -> Result<(Vec<u8>, usize), WireError>
    ensures { Gives (λ x. (x.0.items, x.1)) result (parts_at whole_name_at parts.now bytes.now at) }
{
    let mut out = Vec::new(alloc);
    let mut at = at;
    for part in parts {
        at = add_part(alloc, &mut out, *part, bytes, at)?;
    }
    Ok((out, at))
}

// Each of these answers where what stands there ends, with no pointer in a name. They take no memory.

#[tactic(auto, unfolding(crate::specs::Octets::octets_at))]
fn octets_end(count: usize, octets: &[u8], at: usize) -> Option<usize>
    ensures { result ≡ end_of (octets_at count octets.now at) }
{
    if octets.len() < at || octets.len() - at < count {
        return None;
    }
    Some(at + count)
}

#[tactic(auto, unfolding(crate::specs::OldData::string_octets_at, crate::specs::Octets::octet_at))]
fn string_end(octets: &[u8], at: usize) -> Option<usize>
    ensures { result ≡ end_of (string_octets_at octets.now at) }
{
    if octets.len() <= at {
        return None;
    }
    octets_end(usize::from(octets[at]) + 1, octets, at)
}

fn labels_end(steps: usize, octets: &[u8], walk: Walk) -> Option<usize>
    requires { walk.jumps ≡ 0 }
    ensures { result ≡ end_of (labels_at steps octets.now walk) }
{
    if steps == 0 || octets.len() <= walk.at {
        return None;
    }
    let len = usize::from(octets[walk.at]);
    let after = walk.at + 1;
    if len == 0 {
        return Some(after);
    }
    // A pointer, or no label.
    if 63 < len {
        return None;
    }
    if walk.left.saturating_sub(1) <= len || octets.len() - after < len {
        return None;
    }
    let behind = Walk {
        start: walk.start,
        at: after + len,
        left: walk.left - (len + 1),
        jumps: walk.jumps,
    };
    labels_end(steps - 1, octets, behind)
}

#[tactic(auto, unfolding(crate::specs::OldData::uncompressed_name_at))]
fn name_end(octets: &[u8], at: usize) -> Option<usize>
    ensures { result ≡ end_of (uncompressed_name_at octets.now at) }
{
    let start = Walk {
        start: at,
        at,
        left: 255,
        jumps: 0,
    };
    labels_end(256, octets, start)
}

#[tactic(auto, unfolding(crate::specs::OldData::part_at))]
fn part_end(part: Part, octets: &[u8], at: usize) -> Option<usize>
    ensures { result ≡ end_of (part_at uncompressed_name_at part octets.now at) }
{
    match part {
        Part::Octets(count) => octets_end(count, octets, at),
        Part::String => string_end(octets, at),
        Part::Name => name_end(octets, at),
        Part::Rest => octets_end(octets.len().saturating_sub(at), octets, at),
    }
}

fn parts_end(parts: &[Part], octets: &[u8]) -> Option<usize>
    ensures { result ≡ end_of (parts_at uncompressed_name_at parts.now octets.now 0) }
{
    let mut at = 0;
    for part in parts {
        at = part_end(*part, octets, at)?;
    }
    Some(at)
}

// Whether the octets, where they stand alone, are read as they stand: up to their end, with no pointer.
pub(crate) fn is_spelled_out(code: u16, octets: &[u8]) -> bool
    ensures { result ≡ is_spelled_out code octets.now }
{
    match parts_end(parts_of(code), octets) {
        Some(end) => end == octets.len(),
        None => false,
    }
}
