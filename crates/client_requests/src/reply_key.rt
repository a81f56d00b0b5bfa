//! Under what a reply is kept.
ghost use Rattle.std.specs.Prelude.{◌≡◌, ◌≤◌, ◌+◌, ◌∷◌, length};
ghost use Rattle.hickory_proto_wire.specs.Writing.{weighed};
ghost use Rattle.stored_replies.specs.Key.{question_key};
ghost use Rattle.stored_replies.specs.Told.{asks_dnssec};
ghost use Rattle.client_requests.specs.Keys.{dnssec_octet, key_for, key_of};

use crate::choices::{LONGEST_KEY, LONGEST_QUESTION};
use crate::request::Request;
use client_queries::{ClientEdns, ClientQuery};
use std::hash::{Hash, Hasher};
use std::marker::Model;

/// Under what a reply is kept, and a question is looked up: what is asked of DNSSEC, and the question with its name in
/// lower case.
#[derive(Debug, Drop)]
pub struct ReplyKey {
    octets: [u8; LONGEST_KEY],
    length: usize,
}

impl Model for ReplyKey {
    ghost use Rattle.std.specs.Prelude.{ℕ, ◌≤◌, List, take};
    ghost use Rattle.client_requests.specs.declared.choices.TheConstants.{LONGEST_KEY};

    ghost Value = { List ℕ };

    ghost view = { λ k. take k.length k.octets };

    ghost invariant = { λ k. k.length ≤ LONGEST_KEY };
}

impl ReplyKey {
    /// The key of a request. Takes no memory.
    pub fn of(request: &Request<'_>) -> ReplyKey
        ensures { result ≡ key_of request.now }
    {
        ReplyKey::with(dnssec_octet(request.query()), request.question())
    }

    /// The key of a question as octets, with DO and CD as they are asked. None where it is longer than a question is
    /// (`LONGEST_QUESTION`). Takes no memory.
    pub fn for_question(question: &[u8], dnssec: bool, unchecked: bool) -> Option<ReplyKey>
        ensures { result ≡ key_for question.now dnssec unchecked }
    {
        let first = weighed(dnssec, 1) + weighed(unchecked, 2);
        if question.len() <= LONGEST_QUESTION {
            Some(ReplyKey::with(first, question))
        } else {
            None
        }
    }

    // The key with this first octet.
    fn with(first: u8, question: &[u8]) -> ReplyKey
        requires { length question.now ≤ LONGEST_QUESTION }
        ensures { result ≡ first ∷ question_key question.now }
    {
        let mut octets = [0; LONGEST_KEY];
        octets[0] = first;
        put_question(&mut octets[1..1 + question.len()], question);
        ReplyKey {
            octets,
            length: 1 + question.len(),
        }
    }

    /// The same key.
    pub fn copied(&self) -> ReplyKey
        ensures { result ≡ self.now }
    {
        ReplyKey {
            octets: self.octets,
            length: self.length,
        }
    }

    /// Its octets.
    pub fn as_slice(&self) -> &[u8]
        ensures { result.now ≡ self.now }
    {
        &self.octets[..self.length]
    }
}

// What is asked of DNSSEC.
fn dnssec_octet(query: &ClientQuery) -> u8
    ensures { result ≡ dnssec_octet query.now }
{
    weighed(asks_dnssec(query.edns), 1) + weighed(query.flags / 16 % 2 == 1, 2)
}

fn asks_dnssec(edns: Option<ClientEdns>) -> bool
    ensures { result ≡ asks_dnssec edns }
{
    match edns {
        Some(edns) => edns.dnssec_ok,
        None => false,
    }
}

fn weighed(is_set: bool, weight: u8) -> u8
    ensures { result ≡ weighed is_set weight }
{
    if is_set { weight } else { 0 }
}

// A question with its name in lower case.
fn put_question(room: &mut [u8], question: &[u8])
    requires { length room.old ≡ length question.now }
    ensures { room.new ≡ question_key question.now }
{
    room.copy_from_slice(question);
    let name = question.len().saturating_sub(4);
    room[..name].make_ascii_lowercase();
}

impl PartialEq for ReplyKey {
    ghost use Rattle.std.specs.Cmp.{partial_equiv_from_equiv};
    ghost use Rattle.client_requests.specs.Keys.{key_eq, key_equiv};

    ghost eq = { key_eq };

    ghost laws = { partial_equiv_from_equiv key_equiv };

    fn eq(&self, other: &ReplyKey) -> bool {
        self.as_slice() == other.as_slice()
    }
}

impl Eq for ReplyKey {
    ghost use Rattle.client_requests.specs.Keys.{key_equiv};

    ghost laws = { key_equiv };
}

impl Hash for ReplyKey {
    ghost use Rattle.client_requests.specs.Keys.{key_hash_input, key_respects_eq};

    ghost hash_input = { key_hash_input };

    ghost respects_eq = { key_respects_eq };

    fn hash<H: Hasher>(&self, state: &mut H) {
        state.write(self.as_slice());
    }
}
