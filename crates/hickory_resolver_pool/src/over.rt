//! What a transaction came to.
ghost use Rattle.std.specs.Prelude.{◌≡◌, ◌≢◌, option_copied, Err, Some};
ghost use Rattle.std.specs.Option.{option_map};
ghost use Rattle.hickory_resolver_pool.specs.Over.{told_as, is_of_reply, reply_of, octets_of, message_of, code_of, answered_with, IsCoreOutcome};

use hickory_proto_core::{DnsError, DnsResponse, NetError, ResponseCode};
use hickory_proto_wire::WireMessage;
use hickory_resolver_flights::KeptReply;
use hickory_resolver_traffic::Entry;
use hickory_resolver_transactions::Outcome;
use hickory_resolver_tries::PoolQuestion;
use std::marker::Model;

/// What the core is told of a reply that was cut.
pub const CUT: &str = "the reply was cut";

/// What it is told where no server was reached.
pub const UNREACHABLE: &str = "no name server was reached";

/// What it is told where there was no place for the question.
pub const OVERLOADED: &str = "too many questions are in flight";

/// What a transaction came to.
#[derive(Clone, Copy, Debug, PartialEq, Eq)]
pub enum PoolOutcome {
    /// An answer, or a negative answer.
    Response,
    /// A reply that was cut, and there is no TCP to ask for the rest.
    Cut,
    /// A reply with another code than NOERROR and NXDOMAIN, one that says nothing, or one that is no message.
    Code,
    /// A channel failed, or there is no server.
    Unreachable,
    /// Nothing came in time.
    Timeout,
    /// There was no place for it in time. It is no failure of the servers, and never kept as one.
    Overloaded,
}

/// A transaction is over.
#[derive(Drop)]
pub struct Over {
    pub(crate) transaction: u64,
    pub(crate) askers: Vec<u64>,
    pub(crate) outcome: PoolOutcome,
    pub(crate) entry: Entry,
}

impl Model for Over {
    ghost use Rattle.hickory_resolver_pool.specs.Over.{OverValue};

    ghost Value = { OverValue };

    ghost view = { λ o. record {
      transaction = o.transaction;
      askers = o.askers.items;
      outcome = o.outcome;
      question = o.entry.asked.1;
      kept = o.entry.flying.flight.kept;
    } };
}

pub(crate) fn told_as(outcome: Outcome) -> PoolOutcome
    ensures { result ≡ told_as outcome }
{
    match outcome {
        Outcome::Reply(_) => PoolOutcome::Response,
        Outcome::Cut(_) => PoolOutcome::Cut,
        Outcome::Code(_) => PoolOutcome::Code,
        Outcome::Unreachable => PoolOutcome::Unreachable,
        Outcome::Timeout => PoolOutcome::Timeout,
    }
}

impl PoolOutcome {
    // Whether it is a reply, or is made of one.
    fn is_of_reply(self) -> bool
        ensures { result ≡ is_of_reply self }
    {
        match self {
            PoolOutcome::Response | PoolOutcome::Cut | PoolOutcome::Code => true,
            _ => false,
        }
    }
}

impl Over {
    /// The number of the transaction.
    pub fn transaction(&self) -> u64
        ensures { result ≡ self.now.transaction }
    {
        self.transaction
    }

    /// The numbers of its askers, in the order in which they asked.
    pub fn askers(&self) -> &[u64]
        ensures { result.now ≡ self.now.askers }
    {
        &self.askers
    }

    /// What it came to.
    pub fn outcome(&self) -> PoolOutcome
        ensures { result ≡ self.now.outcome }
    {
        self.outcome
    }

    /// What was asked.
    pub fn question(&self) -> &PoolQuestion
        ensures { result.now ≡ self.now.question }
    {
        &self.entry.parts.asked.1
    }

    // The reply, where it is one or is made of one.
    fn reply(&self) -> Option<&KeptReply>
        ensures { option_copied result ≡ reply_of self.now }
    {
        if self.outcome.is_of_reply() {
            self.entry.parts.flying.flight.kept()
        } else {
            None
        }
    }

    /// The octets of the reply as they came, where it is one or is made of one.
    pub fn octets(&self) -> Option<&[u8]>
        ensures { option_copied result ≡ option_map octets_of (reply_of self.now) }
    {
        match self.reply() {
            Some(kept) => Some(&kept.octets),
            None => None,
        }
    }

    /// The message of the reply with the letters that were asked, unless it was cut or is none.
    pub fn message(&self) -> Option<&WireMessage>
        ensures { option_copied result ≡ message_of self.now }
    {
        match self.reply() {
            Some(kept) => kept.message.as_ref(),
            None => None,
        }
    }

    /// The same as a handle of the core tells it. A reply that was cut is a failure there.
    pub fn dns_outcome(&self) -> Result<DnsResponse, NetError>
        ensures { result ≢ Err NetError.OutOfMemory → IsCoreOutcome self.now result }
    {
        match self.outcome {
            PoolOutcome::Response => response_of(self.message()),
            PoolOutcome::Cut => Err(NetError::Message(CUT)),
            PoolOutcome::Code => Err(failed_with(code_of(self.message()))),
            PoolOutcome::Unreachable => Err(NetError::Message(UNREACHABLE)),
            PoolOutcome::Timeout => Err(NetError::Timeout),
            PoolOutcome::Overloaded => Err(NetError::Message(OVERLOADED)),
        }
    }
}

fn failed_with(code: ResponseCode) -> NetError
    ensures { result ≡ NetError.Dns (DnsError.ResponseCode code) }
{
    NetError::Dns(DnsError::ResponseCode(code))
}

fn response_of(message: Option<&WireMessage>) -> Result<DnsResponse, NetError>
    ensures { result ≢ Err NetError.OutOfMemory → result ≡ answered_with (option_copied message.entry) }
{
    match message {
        Some(message) => {
            let copy = message.message.clone()?;
            Ok(DnsResponse::from_message(copy))
        }
        None => Err(failed_with(ResponseCode::FormErr)),
    }
}

// What is no message counts as FORMERR, and a lame reply, which has NOERROR, as SERVFAIL.
fn code_of(message: Option<&WireMessage>) -> ResponseCode
    ensures { result ≡ code_of (option_copied message.entry) }
{
    match message {
        None => ResponseCode::FormErr,
        Some(message) => code_of_message(message),
    }
}

fn code_of_message(message: &WireMessage) -> ResponseCode
    ensures { result ≡ code_of (Some message.now) }
{
    let code = message.message.metadata.response_code;
    if code == ResponseCode::NoError || code == ResponseCode::NXDomain {
        ResponseCode::ServFail
    } else {
        code
    }
}
