//! Replies that refuse a query, and how long a reply may be.
ghost use Rattle.std.specs.Prelude.{◌≡◌, ◌-◌, ◌++◌, ◌≤◌, ◌<◌, length, take, drop, IfOk, OnOk, IfSome};
ghost use Rattle.hickory_proto_wire.specs.Writing.{u16_octets, weighed};
ghost use Rattle.client_queries.specs.Refusals.{refusal_code, reply_flags, question_octets, count_of, count_octets, opt_octets, head_octets, refusal_octets, datagram_limit};

use crate::choices::LARGEST_DATAGRAM;
use crate::query::{ClientEdns, ClientQuery, Refusal};
use std::alloc::{AllocError, Global};

impl Refusal {
    /// The response code.
    pub fn code(self) -> u16
        ensures { result ≡ refusal_code self }
    {
        match self {
            Refusal::FormErr => 1,
            Refusal::NotImp => 4,
            Refusal::Refused => 5,
            Refusal::NotAuth => 9,
            Refusal::BadVers => 16,
        }
    }
}

// The weight of a bit that is set.
fn weighed(set: bool, weight: u16) -> u16
    ensures { result ≡ weighed set weight }
{
    if set { weight } else { 0 }
}

fn reply_flags(asked: u16, code: u16) -> u16
    ensures { result ≡ reply_flags asked code }
{
    32768
        + asked / 2048 % 16 * 2048
        + weighed(asked / 256 % 2 == 1, 256)
        + 128
        + weighed(asked / 16 % 2 == 1, 16)
        + code % 16
}

fn put_u16(out: &mut Vec<u8>, number: u16) -> Result<(), AllocError>
    ensures { OnOk result (out.new.items ≡ out.old.items ++ u16_octets number) }
{
    out.push((number / 256) as u8)?;
    out.push((number % 256) as u8)?;
    Ok(())
}

// How many there are: one, or none.
fn count_of<T>(one: &Option<T>) -> u16
    ensures { result ≡ count_of one.now }
{
    if one.is_some() { 1 } else { 0 }
}

// How many entries each section has.
fn put_counts(out: &mut Vec<u8>, query: &ClientQuery) -> Result<(), AllocError>
    ensures { OnOk result (out.new.items ≡ out.old.items ++ count_octets query.now) }
{
    put_u16(out, count_of(&query.question_end))?;
    put_u16(out, 0)?;
    put_u16(out, 0)?;
    put_u16(out, count_of(&query.edns))?;
    Ok(())
}

fn put_head(out: &mut Vec<u8>, query: &ClientQuery, code: u16) -> Result<(), AllocError>
    ensures { OnOk result (out.new.items ≡ out.old.items ++ head_octets query.now code) }
{
    put_u16(out, query.id)?;
    put_u16(out, reply_flags(query.flags, code))?;
    put_counts(out, query)?;
    Ok(())
}

// The question, as it stands in these octets.
fn put_question(
    out: &mut Vec<u8>,
    octets: &[u8],
    question_end: Option<usize>,
) -> Result<(), AllocError>
    ensures { OnOk result (out.new.items ≡ out.old.items ++ question_octets octets.now question_end) }
{
    match question_end {
        None => Ok(()),
        Some(end) => out.extend_from_slice(first(end.saturating_sub(12), behind_head(octets))),
    }
}

// What stands behind the header.
fn behind_head(octets: &[u8]) -> &[u8]
    ensures { result.now ≡ drop 12 octets.now }
{
    &octets[octets.len().min(12)..]
}

// So many octets, or all.
fn first(count: usize, octets: &[u8]) -> &[u8]
    ensures { result.now ≡ take count octets.now }
{
    &octets[..octets.len().min(count)]
}

fn put_opt(out: &mut Vec<u8>, edns: &Option<ClientEdns>, code: u16) -> Result<(), AllocError>
    requires { code < 4096 }
    ensures { OnOk result (out.new.items ≡ out.old.items ++ opt_octets edns.now code) }
{
    match edns {
        None => Ok(()),
        Some(edns) => put_opt_of(out, edns, code),
    }
}

fn put_opt_of(out: &mut Vec<u8>, edns: &ClientEdns, code: u16) -> Result<(), AllocError>
    requires { code < 4096 }
    ensures { OnOk result (out.new.items ≡ out.old.items ++ opt_octets (Some edns.now) code) }
{
    out.push(0)?;
    put_u16(out, 41)?;
    put_u16(out, LARGEST_DATAGRAM)?;
    out.push((code / 16) as u8)?;
    out.push(0)?;
    put_u16(out, weighed(edns.dnssec_ok, 32768))?;
    put_u16(out, 0)?;
    Ok(())
}

/// The reply to these octets that refuses the query that they are, with its number and its question, octet for octet,
/// and OPT of version 0 where it had OPT.
pub fn refuse(
    alloc: Global,
    octets: &[u8],
    query: &ClientQuery,
    refusal: Refusal,
) -> Result<Vec<u8>, AllocError>
    ensures { IfOk result (λ v. v.items ≡ refusal_octets octets.now query.now refusal) }
{
    let code = refusal.code();
    let mut out = Vec::new(alloc);
    put_head(&mut out, query, code)?;
    put_question(&mut out, octets, query.question_end)?;
    put_opt(&mut out, &query.edns, code)?;
    Ok(out)
}

/// How many octets a datagram to the client may have.
pub fn datagram_limit(edns: Option<ClientEdns>) -> u16
    ensures { result ≡ datagram_limit edns }
{
    let size = match edns {
        Some(edns) => edns.size,
        None => 512,
    };
    size.max(512).min(LARGEST_DATAGRAM)
}
