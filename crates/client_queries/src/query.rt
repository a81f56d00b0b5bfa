//! What octets from a client are.
ghost use Rattle.std.specs.Prelude.{◌≡◌, ◌≤◌, length, IfSome};
ghost use Rattle.client_queries.specs.Queries.{query_of, query_if, query_with, query_from, edns_of};

use crate::extras::extras_behind;
use crate::verdict::{question_in, verdict_of};
use hickory_resolver_tries::head::{Head, head_at};

/// What the OPT record of a query says (RFC 6891, section 6.1).
#[derive(Clone, Copy, Debug, PartialEq, Eq)]
pub struct ClientEdns {
    /// How many octets the client takes in one datagram.
    pub size: u16,
    /// The version.
    pub version: u8,
    /// Whether DNSSEC records are asked for (RFC 3225, section 3).
    pub dnssec_ok: bool,
}

/// Why a query is refused.
#[derive(Clone, Copy, Debug, PartialEq, Eq)]
pub enum Refusal {
    /// It is not one question, or cannot be read.
    FormErr,
    /// It is no query, or asks for a zone.
    NotImp,
    /// Its class or its type is not served.
    Refused,
    /// It is signed, and no key is shared with its client (RFC 8945, section 5.2.1).
    NotAuth,
    /// It has OPT of a later version than 0 (RFC 6891, section 6.1.3).
    BadVers,
}

/// What is to be done with a query.
#[derive(Clone, Copy, Debug, PartialEq, Eq)]
pub enum Verdict {
    /// It is refused.
    Refused(Refusal),
    /// It asks for all types of a name, and is answered with one record (RFC 8482, section 4.2).
    Any,
    /// It asks this server for its counts, `statistics.yimarotu. CH TXT`.
    Statistics,
    /// It asks for one type of a name.
    Asked,
}

/// A query: what its reply repeats of it, and what is to be done with it.
#[derive(Clone, Copy, Debug, PartialEq, Eq)]
pub struct ClientQuery {
    /// The number of the message.
    pub id: u16,
    /// The kind of message and its flags (RFC 1035, section 4.1.1).
    pub flags: u16,
    /// The position behind the question, where there is one and it can be read. It begins behind the header, at 12.
    pub question_end: Option<usize>,
    /// What its OPT record says, where it has one and can be read to its end.
    pub edns: Option<ClientEdns>,
    /// What is to be done with it.
    pub verdict: Verdict,
}

// What stands behind the question: OPT, and whether something signs the message.
#[derive(Clone, Copy, Debug)]
pub(crate) struct Extras {
    pub(crate) edns: Option<ClientEdns>,
    pub(crate) is_signed: bool,
}

/// What octets from a client are. Nothing is replied where there is none: they are shorter than a header, or a response.
/// Takes no memory.
pub fn read_query(octets: &[u8]) -> Option<ClientQuery>
    ensures { result ≡ query_of octets.now }
{
    let head = head_at(octets)?;
    query_if(octets, &head)
}

fn query_if(octets: &[u8], head: &Head) -> Option<ClientQuery>
    ensures { result ≡ query_if octets.now head.now }
{
    if head.flags / 32768 % 2 == 1 {
        return None;
    }
    Some(query_with(octets, head))
}

fn query_with(octets: &[u8], head: &Head) -> ClientQuery
    ensures { result ≡ query_with octets.now head.now }
{
    match question_in(octets, head) {
        None => query_from(octets, head, None, None),
        Some(end) => {
            let extras = extras_behind(octets, head, end);
            query_from(octets, head, Some(end), extras)
        }
    }
}

fn query_from(
    octets: &[u8],
    head: &Head,
    question_end: Option<usize>,
    extras: Option<Extras>,
) -> ClientQuery
    requires { IfSome question_end (λ end. (16 ≤ end) × (end ≤ length octets.now)) }
    ensures { result ≡ query_from octets.now head.now question_end extras }
{
    ClientQuery {
        id: head.id,
        flags: head.flags,
        question_end,
        edns: edns_of(extras),
        verdict: verdict_of(octets, head, question_end, extras),
    }
}

fn edns_of(extras: Option<Extras>) -> Option<ClientEdns>
    ensures { result ≡ edns_of extras }
{
    match extras {
        Some(extras) => extras.edns,
        None => None,
    }
}
