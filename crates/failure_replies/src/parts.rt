//! The parts of a reply.
ghost use Rattle.std.specs.Prelude.{◌≡◌, ◌<◌, Some, take, drop};
ghost use Rattle.hickory_proto_wire.specs.Writing.{weighed};
ghost use Rattle.client_queries.specs.Refusals.{reply_flags, count_of, head_octets, question_octets, opt_octets};
ghost use Rattle.failure_replies.specs.Failures.{opt_with_error};

use client_queries::choices::LARGEST_DATAGRAM;
use client_queries::{ClientEdns, ClientQuery};

// The weight of a bit that is set.
fn weighed(set: bool, weight: u16) -> u16
    ensures { result ≡ weighed set weight }
{
    if set { weight } else { 0 }
}

fn reply_flags(asked: u16, code: u16) -> u16
    ensures { result ≡ reply_flags asked code }
{
    32768
        + asked / 2048 % 16 * 2048
        + weighed(asked / 256 % 2 == 1, 256)
        + 128
        + weighed(asked / 16 % 2 == 1, 16)
        + code % 16
}

// How many there are: one, or none.
fn count_of<T>(one: &Option<T>) -> u8
    ensures { result ≡ count_of one.now }
{
    if one.is_some() { 1 } else { 0 }
}

// The header, which says this code.
pub(crate) fn head_of(query: &ClientQuery, code: u16) -> [u8; 12]
    ensures { result ≡ head_octets query.now code }
{
    let flags = reply_flags(query.flags, code);
    [
        (query.id / 256) as u8,
        (query.id % 256) as u8,
        (flags / 256) as u8,
        (flags % 256) as u8,
        0,
        count_of(&query.question_end),
        0,
        0,
        0,
        0,
        0,
        count_of(&query.edns),
    ]
}

// The question, as it stands in these octets.
pub(crate) fn question_of(octets: &[u8], question_end: Option<usize>) -> &[u8]
    ensures { result.now ≡ question_octets octets.now question_end }
{
    match question_end {
        None => &[],
        Some(end) => first(end.saturating_sub(12), behind_head(octets)),
    }
}

// What stands behind the header.
fn behind_head(octets: &[u8]) -> &[u8]
    ensures { result.now ≡ drop 12 octets.now }
{
    &octets[octets.len().min(12)..]
}

// So many octets, or all.
fn first(count: usize, octets: &[u8]) -> &[u8]
    ensures { result.now ≡ take count octets.now }
{
    &octets[..octets.len().min(count)]
}

// OPT without options.
pub(crate) fn opt_of(edns: &ClientEdns, code: u16) -> [u8; 11]
    requires { code < 4096 }
    ensures { result ≡ opt_octets (Some edns.now) code }
{
    let flags = weighed(edns.dnssec_ok, 32768);
    [
        0,
        0,
        41,
        (LARGEST_DATAGRAM / 256) as u8,
        (LARGEST_DATAGRAM % 256) as u8,
        (code / 16) as u8,
        0,
        (flags / 256) as u8,
        (flags % 256) as u8,
        0,
        0,
    ]
}

// OPT with an extended error of this number.
pub(crate) fn opt_with_error(edns: &ClientEdns, info: u16) -> [u8; 17]
    ensures { result ≡ opt_with_error edns.now info }
{
    let flags = weighed(edns.dnssec_ok, 32768);
    [
        0,
        0,
        41,
        (LARGEST_DATAGRAM / 256) as u8,
        (LARGEST_DATAGRAM % 256) as u8,
        0,
        0,
        (flags / 256) as u8,
        (flags % 256) as u8,
        0,
        6,
        0,
        15,
        0,
        2,
        (info / 256) as u8,
        (info % 256) as u8,
    ]
}
