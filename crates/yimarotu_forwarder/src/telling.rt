//! A transaction of the pool that is over, whose askers are told one after another.
ghost use Rattle.std.specs.Prelude.{◌≡◌, ◌<◌, length, option_copied, slice_get};
ghost use Rattle.yimarotu_forwarder.specs.Telling.{first_telling, one_more, reason_of, response_of, told_as};

use failure_replies::FailureReason;
use hickory_proto_wire::WireMessage;
use hickory_resolver_pool::{Over, PoolOutcome};
use std::marker::Model;
use whole_lookups::Heard;
use whole_replies::KeptReply;

// A transaction that is over, and how many of its askers were told.
#[derive(Drop)]
pub(crate) struct Telling {
    over: Over,
    told: usize,
}

impl Model for Telling {
    ghost use Rattle.yimarotu_forwarder.specs.Forwarders.{TellingValue};

    ghost Value = { TellingValue };

    ghost view = { λ t. record { over = t.over; told = t.told } };
}

impl Telling {
    // Nobody was told of it.
    pub(crate) fn new(over: Over) -> Telling
        ensures { result ≡ first_telling over }
    {
        Telling { over, told: 0 }
    }

    // The number of the asker that is told next.
    pub(crate) fn next_asker(&self) -> Option<u64>
        ensures { result ≡ slice_get self.now.over.askers self.now.told }
    {
        self.over.askers().get(self.told).copied()
    }

    // One more was told.
    pub(crate) fn count(&mut self)
        requires { self.old.told < length self.old.over.askers }
        ensures { self.new ≡ one_more self.old }
    {
        if self.told < self.over.askers().len() {
            self.told += 1;
        }
    }

    // The reply, where it came to one.
    pub(crate) fn response(&self) -> Option<&WireMessage>
        ensures { option_copied result ≡ response_of self.now.over }
    {
        match self.over.outcome() {
            PoolOutcome::Response => self.over.message(),
            _ => None,
        }
    }

    // Why there is no reply.
    pub(crate) fn reason(&self) -> FailureReason
        ensures { result ≡ reason_of self.now.over.outcome }
    {
        match self.over.outcome() {
            PoolOutcome::Unreachable | PoolOutcome::Timeout => FailureReason::NoReachableAuthority,
            PoolOutcome::Overloaded => FailureReason::NotReady,
            _ => FailureReason::NetworkError,
        }
    }
}

// What a fetch hears.
#[derive(Debug, Drop)]
pub(crate) enum Told {
    // It goes on with a question.
    Asks,
    // This is the whole reply.
    Whole(KeptReply),
    // There is none: why.
    Fails(FailureReason),
}

pub(crate) fn told_as(heard: Heard) -> Told
    ensures { result ≡ told_as heard }
{
    match heard {
        Heard::Asks => Told::Asks,
        Heard::Whole(kept) => Told::Whole(kept),
        Heard::Fails => Told::Fails(FailureReason::Other),
    }
}
