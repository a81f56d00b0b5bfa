//! Parts of what a client is told: the question, the flags, and OPT.
ghost use Rattle.std.specs.Prelude.{◌≡◌, ◌≤◌, ◌+◌, ◌++◌, ◌∷◌, [], ◌&&◌, ◌||◌, Some, length, take};
ghost use Rattle.std.specs.Option.{option_map};
ghost use Rattle.hickory_proto_wire.specs.Messages.{bit};
ghost use Rattle.hickory_proto_wire.specs.Writing.{u16_octets, weighed};
ghost use Rattle.hickory_proto_wire.specs.Written.{edns_octets, opt_octets};
ghost use Rattle.client_queries.specs.Refusals.{question_octets, count_of};
ghost use Rattle.stored_replies.specs.Told.{asks_dnssec, told_edns, told_flags, opt_length};
ghost use Rattle.stored_replies.specs.Walk.{over};

use crate::places::behind;
use crate::room::put_at;
use client_queries::choices::LARGEST_DATAGRAM;
use client_queries::{ClientEdns, ClientQuery};

// How many OPT records there are.
fn count_of(edns: Option<ClientEdns>) -> u8
    ensures { result ≡ count_of edns }
{
    if edns.is_some() { 1 } else { 0 }
}

// A header with one question, and the octets of the numbers of answers and of records of authority.
pub(crate) fn header(query: &ClientQuery, flags: u16, counts: [u8; 4]) -> [u8; 12]
    ensures { result ≡ u16_octets query.now.id ++ (u16_octets flags ++ (0 ∷ 1 ∷ counts
        ++ (0 ∷ count_of query.now.edns ∷ []))) }
{
    [
        (query.id / 256) as u8,
        (query.id % 256) as u8,
        (flags / 256) as u8,
        (flags % 256) as u8,
        0,
        1,
        counts[0],
        counts[1],
        counts[2],
        counts[3],
        0,
        count_of(query.edns),
    ]
}

fn asks_dnssec(edns: Option<ClientEdns>) -> bool
    ensures { result ≡ asks_dnssec edns }
{
    match edns {
        Some(edns) => edns.dnssec_ok,
        None => false,
    }
}

// Whether AD is told.
pub(crate) fn is_told_authentic(trust: bool, authentic: bool, query: &ClientQuery) -> bool
    ensures { result ≡ (trust && authentic && (bit 32 query.now.flags || asks_dnssec query.now.edns)) }
{
    trust && authentic && (query.flags / 32 % 2 == 1 || asks_dnssec(query.edns))
}

// The weight of a bit that is set.
fn weighed(set: bool, weight: u16) -> u16
    ensures { result ≡ weighed set weight }
{
    if set { weight } else { 0 }
}

// The flags of a reply.
pub(crate) fn told_flags(asked: u16, truncated: bool, authentic: bool, code: u16) -> u16
    ensures { result ≡ told_flags asked truncated authentic code }
{
    32768
        + weighed(truncated, 512)
        + weighed(asked / 256 % 2 == 1, 256)
        + 128
        + weighed(authentic, 32)
        + weighed(asked / 16 % 2 == 1, 16)
        + code % 16
}

// So many octets, or all.
pub(crate) fn first(count: usize, octets: &[u8]) -> &[u8]
    ensures { result.now ≡ take count octets.now }
{
    &octets[..octets.len().min(count)]
}

// The question of a query, which ends at this position.
pub(crate) fn question_in(octets: &[u8], end: usize) -> &[u8]
    ensures { result.now ≡ question_octets octets.now (Some end) }
{
    first(end.saturating_sub(12), behind(12, octets))
}

// How many octets the OPT record has.
pub(crate) fn opt_length(edns: Option<ClientEdns>) -> usize
    ensures value { result ≡ opt_length edns }
    ensures small { result ≤ 11 }
{
    match edns {
        Some(_) => 11,
        None => 0,
    }
}

// Writes the OPT record, where there is one.
pub(crate) fn put_opt(room: &mut [u8], at: usize, edns: Option<ClientEdns>)
    requires { at + opt_length edns ≤ length room.old }
    ensures { room.new ≡ over room.old at (opt_octets (option_map told_edns edns) 0) }
{
    if let Some(edns) = edns {
        put_at(room, at, &opt_of(edns));
    }
}

fn opt_of(edns: ClientEdns) -> [u8; 11]
    ensures { result ≡ edns_octets (told_edns edns) 0 }
{
    let dnssec_ok = if edns.dnssec_ok { 128 } else { 0 };
    let high = (LARGEST_DATAGRAM / 256) as u8;
    let low = (LARGEST_DATAGRAM % 256) as u8;
    [0, 0, 41, high, low, 0, 0, dnssec_ok, 0, 0, 0]
}
