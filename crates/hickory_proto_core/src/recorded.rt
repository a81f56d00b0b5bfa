//! A handle that keeps what it was asked, and what came back.
ghost use Rattle.std.specs.Prelude.{◌≡◌, [], true, IfOk, OnErr, IsOkUnless};
ghost use Rattle.hickory_proto_core.specs.Handles.{holds_memory};

use crate::dns_handle::{DnsHandle, Outcome};
use crate::dns_request::DnsRequest;
use crate::dns_response::DnsResponse;
use crate::net_error::NetError;
use crate::query::Query;
use std::alloc::Global;
use std::marker::Model;

/// A question that was sent, and what came back.
#[derive(Debug, Drop)]
pub struct Exchange {
    pub query: Query,
    pub outcome: Outcome,
}

/// A handle over another, which keeps each question that was sent and what the other handle gave for it.
/// Where there is no memory to keep more, nothing is sent. Where there is none for the copy to answer with,
/// the outcome is kept, and out of memory is answered; a failure, of which a copy takes no memory, is answered
/// always.
#[derive(Drop)]
pub struct Recorded<H: DnsHandle> {
    handle: H,
    exchanges: Vec<Exchange>,
}

impl<H: DnsHandle> Model for Recorded<H> {
    ghost use Rattle.hickory_proto_core.specs.Handles.{RecordedValue};

    ghost Value = { RecordedValue H };

    ghost view = { λ r. record { handle = r.handle; exchanges = r.exchanges.items } };
}

impl<H: DnsHandle> Recorded<H> {
    /// The handle over this one, with nothing kept yet.
    pub fn new(alloc: Global, handle: H) -> Recorded<H>
        ensures { result ≡ record { handle = handle; exchanges = [] } }
    {
        Recorded {
            handle,
            exchanges: Vec::new(alloc),
        }
    }

    /// The handle below.
    pub fn handle(&self) -> &H
        ensures { result.now ≡ self.now.handle }
    {
        &self.handle
    }

    /// What was sent, and what came back, in order.
    pub fn exchanges(&self) -> &[Exchange]
        ensures { result.now ≡ self.now.exchanges }
    {
        &self.exchanges
    }
}

impl<H: DnsHandle> DnsHandle for Recorded<H> {
    ghost use Rattle.hickory_proto_core.specs.Recorded.{RecordedStep};

    ghost step = { RecordedStep H.step };

    fn send(&mut self, request: &DnsRequest) -> Result<DnsResponse, NetError> {
        self.exchanges.reserve(1)?;
        let query = request.query.clone()?;
        let outcome = self.handle.send(request);
        let copied = clone_outcome(&outcome);
        self.exchanges.push_reserved(Exchange { query, outcome });
        copied?
    }
}

/// A copy of an outcome. Only that of a response or of a negative answer may find no memory.
pub fn clone_outcome(outcome: &Outcome) -> Result<Outcome, NetError>
    ensures ok { IfOk result (λ copy. copy ≡ outcome.now) }
    ensures err { IsOkUnless result NetError.OutOfMemory }
    ensures memory { OnErr result (holds_memory outcome.now ≡ true) }
{
    match outcome {
        Ok(response) => Ok(Ok(response.clone()?)),
        Err(error) => Ok(Err(error.clone()?)),
    }
}
