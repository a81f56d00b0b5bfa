//! A question that is looked up for clients.
ghost use Rattle.std.specs.Prelude.{◌≡◌, length, IfOk, OnErr, OnOk};
ghost use Rattle.whole_lookups.specs.Lookups.{after, heard};
ghost use Rattle.yimarotu_forwarder.specs.Fetches.{has_request, is_same_request, with_waiting};
ghost use Rattle.yimarotu_forwarder.specs.NextQuestions.{ended_by};
ghost use Rattle.yimarotu_forwarder.specs.Telling.{earlier_second, heard_after, told_as};

use crate::telling::{Told, told_as};
use client_requests::{Request, WaitingRequest};
use hickory_proto_wire::WireMessage;
use std::alloc::{AllocError, Global};
use std::collections::VecDeque;
use std::marker::Model;
use whole_lookups::WholeLookup;

// A question that is looked up: how far it is, whether the servers are asked not to check, the second at which the pool
// told the first of its replies, the generation of local data under which it began, the moment at which it did, and the
// requests that wait, first come first.
#[derive(Drop)]
pub struct Fetch {
    pub(crate) lookup: WholeLookup,
    pub(crate) checking_disabled: bool,
    pub(crate) heard: Option<u64>,
    pub(crate) generation: u64,
    pub(crate) began: u64,
    pub(crate) waiting: VecDeque<WaitingRequest>,
}

impl Model for Fetch {
    ghost use Rattle.yimarotu_forwarder.specs.Fetches.{FetchValue};

    ghost Value = { FetchValue };

    ghost view = { λ f. record {
      lookup = f.lookup;
      checking_disabled = f.checking_disabled;
      heard = f.heard;
      generation = f.generation;
      began = f.began;
      waiting = f.waiting.items;
    } };
}

impl Fetch {
    // Whether the same client waits for a query of the same number.
    pub(crate) fn has_request(&self, request: &Request<'_>) -> bool
        ensures { result ≡ has_request request.now self.now }
    {
        self.waiting
            .iter()
            .any(|waiting| is_same_request(request, waiting))
    }

    pub(crate) fn waiting_number(&self) -> usize
        ensures { result ≡ length self.now.waiting }
    {
        self.waiting.len()
    }

    // How many questions were asked, with the one that is asked now.
    pub(crate) fn questions(&self) -> u32
        ensures { result ≡ self.now.lookup.count }
    {
        self.lookup.count
    }

    // The second at which the pool told the first of its replies, or this one, whichever is earlier.
    pub(crate) fn first_second(&self, second: u64) -> u64
        ensures { result ≡ earlier_second self.now.heard second }
    {
        match self.heard {
            Some(first) => first.min(second),
            None => second,
        }
    }

    // A reply came at this second: what it tells. A refused call changes nothing.
    pub(crate) fn hear(
        &mut self,
        alloc: Global,
        reply: &WireMessage,
        second: u64,
    ) -> Result<Told, AllocError>
        ensures told { IfOk result (λ told. told ≡ told_as (heard reply.now self.old.lookup)) }
        ensures ok { IfOk result (λ told. self.new ≡ record self.old {
          lookup = after reply.now self.old.lookup;
          heard = heard_after told second self.old.heard;
        }) }
        ensures err { OnErr result (self.new ≡ self.old) }
    {
        match self.lookup.hear(alloc, reply) {
            Ok(heard) => Ok(self.note(told_as(heard), second)),
            Err(error) => Err(error),
        }
    }

    // The second at which the pool told the first reply that leads on is noted.
    fn note(&mut self, told: Told, second: u64) -> Told
        ensures told { result ≡ told }
        ensures heard { self.new ≡ record self.old { heard = heard_after told second self.old.heard } }
    {
        if let Told::Asks = told {
            self.heard = Some(self.first_second(second));
        }
        told
    }

    // The same, its question answered here by what so many replies of servers made.
    pub(crate) fn ended_by(self, replies: u32) -> Fetch
        ensures { result ≡ ended_by replies self }
    {
        let mut fetch = self;
        fetch.lookup.count = fetch.lookup.count.saturating_sub(1).saturating_add(replies);
        fetch
    }

    // One more waits. A refused call changes nothing.
    pub(crate) fn push(&mut self, waiting: WaitingRequest) -> Result<(), AllocError>
        ensures ok { OnOk result (self.new ≡ with_waiting waiting self.old) }
        ensures err { OnErr result (self.new ≡ self.old) }
    {
        match self.waiting.push_back(waiting) {
            Ok(()) => Ok(()),
            Err(_) => Err(AllocError),
        }
    }
}

// Whether the same client sent the same number.
fn is_same_request(request: &Request<'_>, waiting: &WaitingRequest) -> bool
    ensures { result ≡ is_same_request request.now waiting.now }
{
    waiting.client().number == request.client().number
        && waiting.request().query().id == request.query().id
}
