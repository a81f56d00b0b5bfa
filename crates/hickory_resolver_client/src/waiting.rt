//! A look-up that waits for what comes back to a question.
ghost use Rattle.std.specs.Prelude.{◌≡◌, ◌≤◌, length};
ghost use Rattle.std.specs.Option.{option_copied};
ghost use Rattle.hickory_resolver_client.specs.Contexts.{first_passed};

use crate::verdict::Hop;
use hickory_proto_core::{NetError, Query};
use hickory_resolver_lookup::Lookup;
use std::marker::Model;

// A question that was asked, and until when the CNAMEs live that counted in its answer (seconds).
#[derive(Drop)]
pub(crate) struct Passed {
    pub(crate) query: Query,
    pub(crate) limit: u64,
}

impl Model for Passed {
    ghost use Rattle.hickory_resolver_model.specs.Hops.{PassedValue};

    ghost Value = { PassedValue };

    ghost view = { λ p. record { query = p.query; limit = p.limit } };
}

/// A look-up that waits for what comes back to its question. It passed seven questions at most, and its moment
/// is that of its start, however late it goes on. One that is dropped stores nothing.
///
/// A look-up of one client may go on with another. Each hop then reads the cache of the client that takes it,
/// and the result is kept in the cache of the last: what came back to the earlier questions is a source of it
/// there too, and how long the aliases on its way live was reckoned by the bounds of the cache that each was with.
#[derive(Drop)]
pub struct Waiting {
    pub(crate) moment: u64,
    pub(crate) passed: Vec<Passed>,
    pub(crate) hop: Hop,
}

impl Model for Waiting {
    ghost use Rattle.std.specs.Prelude.{◌≤◌, length};
    ghost use Rattle.hickory_resolver_model.specs.Resuming.{WaitingValue};

    ghost Value = { WaitingValue };

    ghost view = { λ w. record { now = w.moment; passed = w.passed.items; hop = w.hop } };

    ghost invariant = { λ w. length w.passed.items ≤ 7 };
}

/// How far a look-up or a call came.
#[derive(Drop)]
pub enum Progress<W> {
    /// It waits for what comes back to a question.
    Waiting(W),
    /// It is done, with this result.
    Done(Result<Lookup, NetError>),
}

impl Waiting {
    /// The question that is to be sent.
    pub fn question(&self) -> &Query
        ensures question { result.now ≡ self.now.hop.query }
        ensures few { length self.now.passed ≤ 7 }
    {
        &self.hop.query
    }

    /// The question of the look-up, where aliases led from it to the one that is to be sent (RFC 1034, section 3.6.2).
    /// None where it is itself to be sent.
    pub fn aliased(&self) -> Option<&Query>
        ensures { option_copied result ≡ first_passed self.now.passed }
    {
        match self.passed.as_slice() {
            [first, ..] => Some(&first.query),
            [] => None,
        }
    }

    /// The moment of its start (seconds).
    pub fn now(&self) -> u64
        ensures { result ≡ self.now.now }
    {
        self.moment
    }
}
