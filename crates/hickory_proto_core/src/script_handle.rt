//! A handle that follows a script.
ghost use Rattle.std.specs.Prelude.{◌≡◌};

use crate::dns_handle::{DnsHandle, Outcome};
use crate::dns_request::DnsRequest;
use crate::dns_response::DnsResponse;
use crate::net_error::NetError;
use std::marker::Model;
use std::vec::IntoIter;

/// A handle that answers the outcomes of a list in order, whatever is asked, and then that it has none.
#[derive(Drop)]
pub struct ScriptHandle {
    outcomes: IntoIter<Outcome>,
}

impl Model for ScriptHandle {
    ghost use Rattle.std.specs.Prelude.{List};
    ghost use Rattle.std.specs.Vec.Iter.{into_iter_items};
    ghost use Rattle.hickory_proto_core.specs.Handles.{OutcomeValue};

    ghost Value = { List OutcomeValue };

    ghost view = { λ s. into_iter_items s.outcomes };
}

impl ScriptHandle {
    /// The handle that follows this script. Takes no memory.
    pub fn new(outcomes: Vec<Outcome>) -> ScriptHandle
        ensures { result ≡ outcomes.items }
    {
        ScriptHandle {
            outcomes: outcomes.into_iter(),
        }
    }
}

impl DnsHandle for ScriptHandle {
    ghost use Rattle.hickory_proto_core.specs.Handles.{ScriptStep};

    ghost step = { ScriptStep };

    // Takes no memory, and a time that does not depend on the script.
    fn send(&mut self, _request: &DnsRequest) -> Result<DnsResponse, NetError> {
        match self.outcomes.next() {
            Some(outcome) => outcome,
            None => Err(NetError::NoOutcome),
        }
    }
}
