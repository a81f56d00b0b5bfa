//! A query with who asks it.
ghost use Rattle.std.specs.Prelude.{◌≡◌, ◌≤◌, length, take, IfOk, Some};
ghost use Rattle.client_queries.specs.Queries.{query_of};
ghost use Rattle.client_queries.specs.Refusals.{question_octets};
ghost use Rattle.client_requests.specs.Requests.{request_of, request_with, question_of, IsShort, waiting_of, waiting_up_to, limit_of};

use crate::choices::{LONGEST_MESSAGE, LONGEST_QUESTION};
use crate::client::Client;
use client_queries::{ClientQuery, datagram_limit, read_query};
use std::alloc::{AllocError, Global};
use std::marker::Model;

/// A query with who asks it, and octets that begin with its header and its question.
#[derive(Debug, Drop)]
pub struct Request<'a> {
    client: Client,
    query: ClientQuery,
    octets: &'a [u8],
}

impl<'a> Model for Request<'a> {
    ghost use Rattle.client_requests.specs.Requests.{IsShort, RequestValue};

    ghost Value = { RequestValue };

    ghost view = { λ r. record { client = r.client; query = r.query; octets = r.octets.now } };

    ghost invariant = { λ r. IsShort (record { client = r.client; query = r.query; octets = r.octets.now }) };
}

impl<'a> Request<'a> {
    /// What octets from a client are. None where they are shorter than a header, or a response: then nothing is replied.
    /// Takes no memory.
    pub fn read(client: Client, octets: &'a [u8]) -> Option<Request<'a>>
        ensures { result ≡ request_of client octets.now }
    {
        match read_query(octets) {
            Some(query) => Some(Request::with(client, octets, query)),
            None => None,
        }
    }

    fn with(client: Client, octets: &'a [u8], query: ClientQuery) -> Request<'a>
        requires { query_of octets.now ≡ Some query }
        ensures { result ≡ request_with client octets.now query }
    {
        Request {
            client,
            query,
            octets,
        }
    }

    /// Who asks.
    pub fn client(&self) -> Client
        ensures { result ≡ self.now.client }
    {
        self.client
    }

    /// What the query is.
    pub fn query(&self) -> &ClientQuery
        ensures { result.now ≡ self.now.query }
    {
        &self.query
    }

    /// Octets that begin with the header and the question.
    pub fn octets(&self) -> &[u8]
        ensures value { result.now ≡ self.now.octets }
        ensures short { IsShort self.now }
    {
        self.octets
    }

    /// The octets of the question; none where it cannot be read.
    pub fn question(&self) -> &[u8]
        ensures value { result.now ≡ question_of self.now }
        ensures short { length result.now ≤ LONGEST_QUESTION }
    {
        question_in(self.octets, self.query.question_end)
    }

    /// How many octets its reply may have.
    pub fn limit(&self) -> usize
        ensures { result ≡ limit_of self.now }
    {
        if self.client.is_stream {
            LONGEST_MESSAGE
        } else {
            usize::from(datagram_limit(self.query.edns))
        }
    }
}

/// A request that waits for its reply. Nothing of its octets is kept behind the question, so that it takes little memory.
#[derive(Debug, Drop)]
pub struct WaitingRequest {
    client: Client,
    query: ClientQuery,
    octets: Vec<u8>,
}

impl Model for WaitingRequest {
    ghost use Rattle.client_requests.specs.Requests.{IsShort, RequestValue};

    ghost Value = { RequestValue };

    ghost view = { λ w. record { client = w.client; query = w.query; octets = w.octets.items } };

    ghost invariant = { λ w. IsShort (record { client = w.client; query = w.query; octets = w.octets.items }) };
}

impl WaitingRequest {
    /// What is kept of a request. None where its question cannot be read.
    pub fn of(alloc: Global, request: &Request<'_>) -> Result<Option<WaitingRequest>, AllocError>
        ensures { IfOk result (λ waiting. waiting ≡ waiting_of request.now) }
    {
        let Some(end) = request.query.question_end else {
            return Ok(None);
        };
        let octets = Vec::from_slice(alloc, first(end, request.octets))?;
        Ok(Some(WaitingRequest {
            client: request.client,
            query: request.query,
            octets,
        }))
    }

    /// The request.
    pub fn request(&self) -> Request<'_>
        ensures { result ≡ self.now }
    {
        Request {
            client: self.client,
            query: self.query,
            octets: &self.octets,
        }
    }

    /// Who asks.
    pub fn client(&self) -> Client
        ensures { result ≡ self.now.client }
    {
        self.client
    }
}

// The question, which stands behind the header up to this place.
fn question_in(octets: &[u8], end: Option<usize>) -> &[u8]
    ensures { result.now ≡ question_octets octets.now end }
{
    match end {
        None => &[],
        Some(end) => first(end.saturating_sub(12), &octets[octets.len().min(12)..]),
    }
}

// So many octets, or all.
fn first(count: usize, octets: &[u8]) -> &[u8]
    ensures { result.now ≡ take count octets.now }
{
    &octets[..octets.len().min(count)]
}
