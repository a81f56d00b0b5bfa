//! A call that waits for what comes back to a question.
ghost use Rattle.std.specs.Prelude.{◌≡◌};
ghost use Rattle.std.specs.Option.{option_copied};
ghost use Rattle.hickory_resolver_client.specs.Contexts.{first_passed};

use crate::attempting::Attempt;
use hickory_proto_core::Query;
use hickory_resolver_client::{Progress, Waiting};
use std::marker::Model;

/// A call that waits for what comes back to a question. Its moment is that of its start, however late it goes on.
/// One that is dropped stores nothing further: what was kept of its questions before stays.
///
/// A call of one resolver may go on with another. Each question is then answered by the cache and the table of hosts
/// of the resolver that goes on with it; which names and types are looked up, and the last resort, were settled at
/// the start.
#[derive(Drop)]
pub struct WaitingCall {
    pub(crate) attempt: Attempt,
    pub(crate) lookup: Waiting,
}

impl Model for WaitingCall {
    ghost use Rattle.std.specs.Prelude.{◌≡◌};
    ghost use Rattle.hickory_resolver_theorems.specs.ResumingCalls.{WaitingCallValue};
    ghost use Rattle.hickory_resolver_attempts.specs.Sought.{kept_name_for, order_of};
    ghost use Rattle.hickory_resolver.specs.CallSteps.{attempt_value, first_question};

    ghost Value = { WaitingCallValue };

    ghost view = { λ w. record {
      attempt = attempt_value w.attempt (first_question w.lookup).name w.lookup.now;
      lookup = w.lookup;
    } };

    ghost invariant = { λ w. w.attempt.kept_name
        ≡ kept_name_for (order_of w.attempt.sought) w.attempt.first (first_question w.lookup).name };
}

/// How far a call came.
pub type CallProgress = Progress<WaitingCall>;

impl WaitingCall {
    /// The question that is to be sent, with the options of the resolver (`Resolver::request_options`).
    pub fn question(&self) -> &Query
        ensures { result.now ≡ self.now.lookup.hop.query }
    {
        self.lookup.question()
    }

    /// The question of the name and type that are attempted, where aliases led from it to the one that is to be sent.
    /// None where it is itself to be sent.
    pub fn aliased(&self) -> Option<&Query>
        ensures { option_copied result ≡ first_passed self.now.lookup.passed }
    {
        self.lookup.aliased()
    }

    /// The moment of its start (seconds).
    pub fn now(&self) -> u64
        ensures { result ≡ self.now.lookup.now }
    {
        self.lookup.now()
    }
}
