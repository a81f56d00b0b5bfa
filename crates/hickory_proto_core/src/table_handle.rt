//! A handle that looks its outcomes up in a table.
ghost use Rattle.std.specs.Prelude.{◌≡◌, IfOk, IsOkUnless};
ghost use Rattle.hickory_proto_core.specs.Table.{outcome_in, last_given};
ghost use Rattle.hickory_proto_core.specs.declared.query.Query.{Query};

use crate::dns_handle::{DnsHandle, Outcome};
use crate::dns_request::DnsRequest;
use crate::dns_response::DnsResponse;
use crate::net_error::NetError;
use crate::query::Query;
use crate::recorded::clone_outcome;
use std::collections::HashMap;
use std::hash::{BuildHasher, BuildHasherDefault, FoldHasher};
use std::marker::Model;

/// A handle that answers each question with its outcome in a table, and a question that has none there with
/// an error.
#[derive(Drop)]
pub struct TableHandle<S: BuildHasher = BuildHasherDefault<FoldHasher>> {
    outcomes: HashMap<Query, Outcome, S>,
}

impl<S: BuildHasher> Model for TableHandle<S> {
    ghost use Rattle.hickory_proto_core.specs.Table.{TableValue};

    ghost Value = { TableValue };

    ghost view = { λ t. t.outcomes.entries };
}

impl TableHandle {
    /// The handle of these questions and outcomes, with the default hasher. Of equal questions the last one's
    /// outcome counts.
    pub fn new(outcomes: Vec<(Query, Outcome)>) -> Result<TableHandle, NetError>
        ensures ok { IfOk result (λ table. (q : Query) → outcome_in q table ≡ last_given q outcomes.items) }
        ensures err { IsOkUnless result NetError.OutOfMemory }
    {
        TableHandle::with_hasher(outcomes, BuildHasherDefault::new())
    }
}

impl<S: BuildHasher + Drop> TableHandle<S> {
    /// As `new`, with this hasher: one of random state where the questions come from strangers.
    pub fn with_hasher(
        outcomes: Vec<(Query, Outcome)>,
        hasher: S,
    ) -> Result<TableHandle<S>, NetError>
        ensures ok { IfOk result (λ table. (q : Query) → outcome_in q table ≡ last_given q outcomes.items) }
        ensures err { IsOkUnless result NetError.OutOfMemory }
    {
        let mut table = HashMap::with_hasher(*outcomes.allocator(), hasher);
        table.extend(outcomes)?;
        Ok(TableHandle { outcomes: table })
    }
}

impl<S: BuildHasher> DnsHandle for TableHandle<S> {
    ghost use Rattle.hickory_proto_core.specs.Table.{TableStep};

    ghost step = { TableStep };

    fn send(&mut self, request: &DnsRequest) -> Result<DnsResponse, NetError> {
        match self.outcomes.get(&request.query) {
            Some(outcome) => clone_outcome(outcome)?,
            None => Err(NetError::NoOutcome),
        }
    }
}
